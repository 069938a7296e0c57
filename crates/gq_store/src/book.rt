// The history of a store's inserts, which exists in proofs alone, and the tokens that say how much of it was seen.
ghost use Rattle.std.specs.Prelude.{◌≡◌, ◌+◌, ◌<◌, ◌^◌, ◌++◌, ◌∷◌, [], length, true};
ghost use mathlib.Core.List.{IsPrefix};
ghost use Rattle.gq_store.specs.Histories.{IsOneLonger, head_of};

use gq_load_check::Insert;
use logbook::{Gain, Offer, Plain, Play, Rule, Seen, Start, Word};
use std::marker::{Brand, Model, PhantomData};

/// The rule of the history: its word is its length.
pub struct Law;

impl Rule<Insert, u64> for Law {
    ghost use Rattle.std.specs.Prelude.{[]};
    ghost use base.Fml.{ftrue};
    ghost use Rattle.gq_store.specs.Histories.{IsKept};

    ghost holds = { λ cells log. IsKept cells log };

    ghost first = { [] };

    ghost hinted = { λ n log. Unit {0} };

    ghost shows = { λ log. [] };

    ghost keeps = { λ names log. ftrue };

    ghost moves = { λ ask before after answer. Unit {0} };
}

/// Who adds an insert trades nothing for it.
pub struct Nothing;

impl Gain<Insert, u64> for Nothing {
    ghost use base.Fml.{ftrue};

    ghost after = { λ names about answer. ftrue };
}

/// The step that adds an insert to the history.
pub struct Add;

impl Play<Insert, u64> for Add {
    ghost use Rattle.gq_store.specs.Histories.{Adds};

    ghost then = { Adds };
}

impl Plain<Insert, Insert, u64> for Add {
    ghost use Rattle.std.specs.Prelude.{None};

    ghost ask = { λ row. row };

    ghost state = { λ row. None };
}

/// Which store it is: what it held when it was shared, the catalog of that, and its history. The name is a type, so that what
/// was made for one store can't be given to another. No value of it is made.
pub trait StoreName {
    ghost use Rattle.gq_graph.specs.Catalog.{Schema};
    ghost use Rattle.gq_index.specs.declared.store.Store.{Store};
    ghost use Rattle.logbook.specs.Pages.{Book};

    ghost base: { Store };

    ghost schema: { Schema };

    ghost book: { Book };
}

impl StoreName for Brand {
    ghost use Rattle.std.specs.Prelude.{[]};

    ghost base = { record { vertices = []; edges = record { rows = []; namings = [] } } };

    ghost schema = { record { vertex_types = []; edge_types = []; graphs = [] } };

    ghost book = { record { number = 0; log_name = 0; cells_name = 0 } };
}

/// An empty history, which has no name yet. It has no bytes but a count.
#[derive(Drop)]
pub struct Opened {
    head: Word<Insert, u64, Law>,
    seen: Seen<Insert, u64, Law>,
    pub ghost empty: { seen.log ≡ [] },
    pub ghost head_is: { head ≡ head_of seen.book },
}

impl Opened {
    /// Begins a history.
    pub fn new() -> Opened {
        let (seen, mut first, _second) = Seen::open(Start::alone(), 0, 0);
        Opened {
            head: Word::tracked(0, &mut first),
            seen,
        }
    }

    /// The history under a name: the word that counts it, and the token of none of its inserts.
    pub(crate) fn named<N: StoreName>(self) -> (Book<N>, News<N>)
        requires { self.seen.book ≡ N.book }
        ensures { result.1 ≡ [] }
    {
        let Opened { head, seen } = self;
        (
            Book {
                head,
                of: PhantomData,
            },
            News {
                count: 0,
                seen,
                of: PhantomData,
            },
        )
    }
}

/// The word that counts the history. Who has it adds to it.
#[derive(Drop)]
pub struct Book<N: StoreName> {
    head: Word<Insert, u64, Law>,
    of: PhantomData<N>,
    ghost head_is: { head ≡ head_of N.book },
}

/// A beginning of the list of a store's inserts, as its number of them: news of what was published, or was seen. It can be
/// copied, and sent to other threads. Contracts see the inserts.
#[derive(Drop)]
pub struct News<N: StoreName> {
    count: u64,
    seen: Seen<Insert, u64, Law>,
    of: PhantomData<N>,
}

impl<N: StoreName> Model for News<N> {
    ghost use Rattle.std.specs.Prelude.{◌≡◌, List, length};
    ghost use Rattle.std.specs.Coded.{codes};
    ghost use Rattle.gq_value.specs.contracts.value.Value as value;
    ghost use Rattle.gq_load_check.specs.declared.insert.Insert.{Insert};

    ghost Value = { List Insert };

    ghost coded = { Prim.hlevel (codes, value.the_row.coded) };

    ghost view = { λ f. f.seen.log };

    ghost invariant = { λ f. (f.count ≡ length f.seen.log) × (f.seen.book ≡ N.book) };
}

impl<N: StoreName> News<N> {
    /// How many inserts it has.
    pub fn len(&self) -> u64
        ensures { result ≡ length self.now }
    {
        self.count
    }

    /// A copy. It takes no memory.
    pub fn again(&self) -> News<N>
        ensures { result ≡ self.now }
    {
        News {
            count: self.count,
            seen: self.seen.again(),
            of: PhantomData,
        }
    }

    /// The longer of two beginnings, which the other begins.
    pub(crate) fn longer(&self, other: &News<N>) -> News<N>
        ensures this { IsPrefix self.now result }
        ensures that { IsPrefix other.now result }
    {
        let mut both = self.seen.again();
        both.learn(&other.seen);
        if self.count < other.count {
            other.again()
        } else {
            self.again()
        }
    }

    /// Whether it begins with the other list, which it does if it is as long.
    pub(crate) fn begins_with(&self, other: &News<N>) -> bool
        ensures { result ≡ true → IsPrefix other.now self.now }
    {
        let mut both = self.seen.again();
        both.learn(&other.seen);
        self.count >= other.count
    }

    /// Whether it is the other with one insert more.
    pub(crate) fn is_next(&self, other: &News<N>) -> bool
        ensures { result ≡ true → IsOneLonger other.now self.now }
    {
        if !self.begins_with(other) {
            return false;
        }
        self.count.saturating_sub(other.count) == 1
    }

    /// Adds an insert to the history if this is all of it, and returns whether it did.
    pub(crate) fn add(&mut self, book: &Book<N>, row: &Insert) -> bool
        requires room { length self.old < 2 ^ 62 }
        ensures { result ≡ true → self.new ≡ self.old ++ row.now ∷ [] }
    {
        let mut offer: Offer<Insert, u64, Law, Nothing> = self
            .seen
            .plain::<Nothing, Insert, Add>(row);
        let mut pen = self.seen.no_pen();
        let count = self.count;
        let found = book
            .head
            .compare_exchange::<Add, Nothing>(
                count,
                count + 1,
                &mut self.seen,
                &mut offer,
                &mut pen,
            );
        self.count = if found == count { count + 1 } else { found };
        found == count
    }
}
