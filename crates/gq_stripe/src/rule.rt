// The rule of the table below, and what each kind of step shows.
ghost use Rattle.std.specs.Prelude.{ℕ, List, []};
ghost use Rattle.gq_value.specs.declared.kind.Input.{Input};
ghost use Rattle.gq_stripe.specs.Rule.{IsKept, first, spent, joined, handed, fresh};
ghost use Rattle.gq_stripe.specs.Steps.{Draws, Queues, Looks, Leaves, Counts};

use crate::stripe::Stripe;
use crate::view::{Plan, View};
use atomic_table::{Join, Play, Split, TableRule};
use std::marker::{Brand, PhantomData};

/// The table shows a core that meets the accounts, and each stripe holds what was put there.
pub(crate) struct Shows;

impl TableRule<Option<Stripe>, View, Plan> for Shows {
    ghost holds = { IsKept };

    ghost first = { first };
}

pub(crate) struct Draw;

impl Play<Option<Stripe>, View> for Draw {
    ghost then = { Draws };
}

/// Names the current batch. Each call of `ticket` chooses it.
pub(crate) trait InHand {
    ghost batch: { List (ℕ × Input) };
}

impl InHand for Brand {
    ghost batch = { [] };
}

pub(crate) struct Ticket<B> {
    batch: PhantomData<B>,
}

impl<B: InHand> Play<Option<Stripe>, View> for Ticket<B> {
    ghost then = { Queues B.batch };
}

/// A look at the ticket that is served. If it is the seat's own, the seat takes the stripe away.
pub(crate) struct Look;

impl Play<Option<Stripe>, View> for Look {
    ghost then = { Looks };
}

/// The stripe comes back, and the next ticket is served.
pub(crate) struct Leave;

impl Play<Option<Stripe>, View> for Leave {
    ghost then = { Leaves };
}

pub(crate) struct Count;

impl Play<Option<Stripe>, View> for Count {
    ghost then = { Counts };
}

pub(crate) struct Cut;

impl Split<View> for Cut {
    ghost left = { handed };

    ghost right = { fresh };
}

pub(crate) struct Merge;

impl Join<View> for Merge {
    ghost both = { joined };

    ghost spent = { spent };
}
