// What proofs say of copies and of threads. No value of these is made.
use gq_load_check::Insert;
use std::collections::LinkedList;

/// What a copy shows: the inserts that it has taken in, and whether its index is up to date.
pub struct Shown {
    pub rows: LinkedList<Insert>,
    pub sealed: bool,
}

/// What a thread has seen: a list of inserts that was published.
pub struct View {
    pub seen: LinkedList<Insert>,
}
