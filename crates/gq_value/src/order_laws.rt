// Laws of the order of values, as contracts of functions that do nothing.
ghost use Rattle.std.specs.Prelude.{◌≡◌};
ghost use Rattle.std.specs.declared.cmp.Ordering.TheVariants.{Equal};
ghost use Rattle.std.specs.Cmp.{IsTotalOrder};
ghost use Rattle.gq_value.specs.Val.{Val};
ghost use Rattle.gq_value.specs.Order.{Alike, compare, place};

/// The order of values is total: comparing in the other direction gives the reverse order, and the order is transitive.
/// Values that are equal compare alike with every value.
pub fn order_is_total()
    ensures { IsTotalOrder compare }
{}

/// The strict order, in which values are stored in sets and maps, is total, and only the same value is equal in it.
pub fn places_are_apart()
    ensures total { IsTotalOrder place }
    ensures same { (a : Val) → (b : Val) → place a b ≡ Equal → a ≡ b }
{}

/// Among values of one type the two orders are the same.
pub fn orders_agree()
    ensures { (a : Val) → (b : Val) → Alike a b → place a b ≡ compare a b }
{}
