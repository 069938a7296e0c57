// The entries of a map one by one, and the keys of a set.
ghost use Rattle.std.specs.Prelude.{◌≡◌, length};
ghost use Rattle.std.specs.Iterator.{at_most};
ghost use Rattle.std.specs.Map.{keys_of};
ghost use Rattle.std.specs.Map.Iter.{TakesFirst, deref, deref_pair};

use std::collections::btree_map;
use std::iter::Iterator;
use std::marker::Model;

/// The entries of a map that are left to come, in order.
#[derive(Drop)]
pub struct Iter<'a, K, V> {
    walk: Walk<'a, K, V>,
}

#[derive(Drop)]
enum Walk<'a, K, V> {
    Few(&'a [(K, V)]),
    Many(btree_map::Iter<'a, K, V>),
}

impl<'a, K, V> Model for Iter<'a, K, V> {
    ghost use Rattle.std.specs.Prelude.{List};

    ghost Value = { List (K × V) };

    ghost use Rattle.gq_nest.specs.Walks.{left_in};

    ghost view = { λ a. left_in a.walk };
}

impl<'a, K, V> Iter<'a, K, V> {
    /// Those of a vector.
    pub(crate) fn few(entries: &'a [(K, V)]) -> Iter<'a, K, V>
        ensures { result ≡ entries.now }
    {
        Iter {
            walk: Walk::Few(entries),
        }
    }

    /// Those of a tree.
    pub(crate) fn many(tree: btree_map::Iter<'a, K, V>) -> Iter<'a, K, V>
        ensures { result ≡ tree.entry }
    {
        Iter {
            walk: Walk::Many(tree),
        }
    }
}

impl<'a, K, V> Iterator for Iter<'a, K, V> {
    type Item = (&'a K, &'a V);

    ghost next_gives = { TakesFirst deref_pair };

    ghost remaining = { λ s. at_most (length s) };

    fn next(&mut self) -> Option<(&'a K, &'a V)> {
        match &mut self.walk {
            Walk::Few(rest) => match rest.split_first() {
                Some((first, others)) => {
                    *rest = others;
                    Some((&first.0, &first.1))
                }
                None => None,
            },
            Walk::Many(tree) => tree.next(),
        }
    }
}

/// The keys of a set that are left to come, in order.
#[derive(Drop)]
pub struct Keys<'a, K> {
    inner: Iter<'a, K, ()>,
}

impl<'a, K> Model for Keys<'a, K> {
    ghost use Rattle.std.specs.Prelude.{List};
    ghost use Rattle.std.specs.Map.{keys_of};

    ghost Value = { List K };

    ghost view = { λ a. keys_of a.inner };
}

impl<'a, K> Keys<'a, K> {
    /// Those of a map.
    pub(crate) fn of(inner: Iter<'a, K, ()>) -> Keys<'a, K>
        ensures { result ≡ keys_of inner.entry }
    {
        Keys { inner }
    }
}

impl<'a, K> Iterator for Keys<'a, K> {
    type Item = &'a K;

    ghost next_gives = { TakesFirst deref };

    ghost remaining = { λ s. at_most (length s) };

    fn next(&mut self) -> Option<&'a K> {
        match self.inner.next() {
            Some((key, _)) => Some(key),
            None => None,
        }
    }
}
