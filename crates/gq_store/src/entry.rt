// What the copies take in.
use crate::book::{News, StoreName};
use gq_load_check::Insert;
use std::marker::Model;

/// An insert that was added, and the history that ends with it. Contracts see the insert.
#[derive(Drop)]
pub struct Entry<N: StoreName> {
    pub row: Insert,
    pub after: News<N>,
}

impl<N: StoreName> Model for Entry<N> {
    ghost use Rattle.std.specs.Coded.{codes};
    ghost use Rattle.gq_value.specs.contracts.value.Value as value;
    ghost use Rattle.gq_load_check.specs.declared.insert.Insert.{Insert};
    ghost use Rattle.gq_store.specs.Entries.{IsEntry};

    ghost Value = { Insert };

    ghost coded = { Prim.hlevel (codes, value.the_row.coded) };

    ghost view = { λ e. e.row };

    ghost invariant = { λ e. IsEntry N.schema e.row e.after };
}

/// An insert, or none for a seal, at which a copy brings its index up to date.
pub type Change<N> = Option<Entry<N>>;
