// An image as a store.
ghost use Rattle.std.specs.Prelude.{◌≡◌, true};
ghost use Rattle.slots.specs.Cuts.{lawful_image};

mod as_store;
mod open;
mod put;
mod search;

// 1 to 1,024 whole slots, each empty or what is written for a lawful record, no site month twice.
#[derive(Drop)]
pub struct Image<'a> {
    bytes: &'a mut [u8],
    ghost lawful: { lawful_image bytes.now ≡ true },
}
