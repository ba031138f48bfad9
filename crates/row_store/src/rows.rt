// Lent rows as a store.
ghost use Rattle.std.specs.Prelude.{◌≡◌, ◌≤◌, true, length};
ghost use Rattle.store.specs.Table.{lawful_table};

use record::Row;

mod as_store;
mod open;
mod search;

// 1 to 1,024 rows, each vacant or with a lawful record, no site month twice.
#[derive(Drop)]
pub struct Rows<'a> {
    rows: &'a mut [Row],
    ghost lawful: { lawful_table rows.now ≡ true },
    ghost least: { 1 ≤ length rows.now },
    ghost most: { length rows.now ≤ 1024 },
}
