// Values as keys of sets and maps: in the strict order, in which only the same value is equal.
ghost use Rattle.std.specs.Prelude.{◌≡◌};
ghost use Rattle.std.proofs.Common.{rules};
ghost use Rattle.std.specs.Ordering.{on, as_partial_cmp, eq_by_cmp};
ghost use Rattle.std.specs.Cmp.{on_total, eq_by_cmp_equiv, partial_equiv_from_equiv, partial_order_from_own_ties};
ghost use Rattle.std.specs.Cmp.Rules.{comparing};
ghost use Rattle.gq_value.specs.Views.{val};
ghost use Rattle.gq_value.specs.Order.{place};
ghost use Rattle.gq_value.specs.OrderLaws.{place_total};

use crate::order::order;
use crate::value::Value;
use std::cmp::Ordering;

impl PartialEq for Value {
    ghost eq = { eq_by_cmp (on val place) };

    ghost laws = { partial_equiv_from_equiv (eq_by_cmp_equiv (on_total val place_total)) };

    fn eq(&self, other: &Value) -> bool {
        order(true, self, other) == Ordering::Equal
    }
}

impl Eq for Value {
    ghost laws = { eq_by_cmp_equiv (on_total val place_total) };
}

impl PartialOrd for Value {
    ghost partial_cmp = { as_partial_cmp (on val place) };

    ghost laws = { partial_order_from_own_ties (Prim.search (comparing, rules, place_total)) (Prim.search (comparing, rules)) };

    fn partial_cmp(&self, other: &Value) -> Option<Ordering> {
        Some(self.cmp(other))
    }
}

impl Ord for Value {
    ghost cmp = { on val place };

    ghost total = { on_total val place_total };

    ghost matches_partial_cmp = { Prim.search (comparing, rules) };

    ghost matches_eq = { Prim.search (comparing, rules) };

    fn cmp(&self, other: &Value) -> Ordering {
        order(true, self, other)
    }
}
