// Methods, by name.
ghost use Rattle.std.specs.Prelude.{◌≡◌};
ghost use Rattle.std.specs.Option.{option_map};
ghost use Rattle.gq_plan_expr.specs.Known.{method_at};
ghost use Rattle.gq_plan_expr.specs.Called.{called_is};

use gq_plan_ir::Method;

/// A method of collections and sets, or `outdegree`.
#[derive(Clone, Copy)]
pub(crate) enum Called {
    Method(Method),
    Outdegree,
}

/// Returns the method with a name.
#[tactic(auto, unfolding(crate::specs::Known::method_at))]
pub(crate) fn method_named(name: &str) -> Option<Called>
    ensures { option_map called_is result ≡ method_at name.now }
{
    if "size" == name {
        Some(Called::Method(Method::Size))
    } else if "contains" == name {
        Some(Called::Method(Method::Contains))
    } else if "containsKey" == name {
        Some(Called::Method(Method::ContainsKey))
    } else if "get" == name {
        Some(Called::Method(Method::Get))
    } else if "outdegree" == name {
        Some(Called::Outdegree)
    } else {
        None
    }
}
