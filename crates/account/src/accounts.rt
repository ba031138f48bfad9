// The site months of a store, under a book.
mod account;
mod cancel;
mod close;
mod correct;
mod edit;
mod post;
mod reply;

// The book that a request asks, and the store that it changes. Each call that may change the store says that it is still
// the one that was lent (`lent`): a fact of a call, so that no invariant can hold it.
#[derive(Drop)]
pub(crate) struct Accounts<'a, B, S> {
    pub(crate) book: &'a B,
    pub(crate) store: &'a mut S,
}
