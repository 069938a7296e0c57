// The rule of what readers take.
use crate::book::StoreName;
use crate::entry::Change;
use crate::store_copy::StoreCopy;
use crate::view::View;
use crossbeam_utils::rule::{Outcome, Protocol};
use left_right::reader::Reader;
use left_right::writer::Writer;

/// The copy that readers take has its index, and a list that begins with what each thread has seen.
pub struct Published;

impl<N: StoreName> Protocol<StoreCopy<N>, View> for Published {
    ghost use Rattle.std.specs.Prelude.{[]};
    ghost use Rattle.gq_store.specs.Shows.{Holds};

    ghost holds = { λ copy views. Holds copy views };

    ghost first = { record { seen = [] } };
}

/// A thread sees the list of the copy that readers take.
pub struct Sees;

impl<N: StoreName> Outcome<StoreCopy<N>, View> for Sees {
    ghost use Rattle.gq_store.specs.Shows.{Looks};

    ghost then = { λ v x y w. Looks v y w };
}

/// A reader's part of the two copies.
pub type ReadSide<N> = Reader<StoreCopy<N>, View, Published>;

/// The writer's part.
pub type WriteSide<N> = Writer<StoreCopy<N>, Change<N>, View, Published>;
