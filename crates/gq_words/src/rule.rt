// The rule of the table below, and what each kind of step shows.
ghost use Rattle.gq_words.specs.Rule.{IsKept, first, Feeds, Counts, Looks, handed, fresh, joined, spent};

use crate::view::{Opening, View};
use atomic_table::{Join, Play, Split, TableRule};

/// Each word is the fold of everything that was fed to it.
pub(crate) struct Folds;

impl TableRule<(), View, Opening> for Folds {
    ghost holds = { IsKept };

    ghost first = { first };
}

pub(crate) struct Feed;

impl Play<(), View> for Feed {
    ghost then = { Feeds };
}

pub(crate) struct Count;

impl Play<(), View> for Count {
    ghost then = { Counts };
}

pub(crate) struct Look;

impl Play<(), View> for Look {
    ghost then = { Looks };
}

pub(crate) struct Cut;

impl Split<View> for Cut {
    ghost left = { handed };

    ghost right = { fresh };
}

pub(crate) struct Merge;

impl Join<View> for Merge {
    ghost both = { joined };

    ghost spent = { spent };
}
