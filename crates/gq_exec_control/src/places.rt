// The variables in view.
ghost use Rattle.std.specs.Prelude.{◌≡◌, IfNone, IfSome, false};
ghost use Rattle.gq_value.specs.AccumViews.{base_of};
ghost use Rattle.gq_frame.specs.Names.{thing_in};
ghost use Rattle.gq_exec_control.specs.Places.{IsVariable, is_variable};

use gq_frame::Thing;
use gq_value::BaseType;

/// Returns the type of the variable at a place, if one is in view.
pub fn variable_in_view(things: &[Option<Thing>], place: u32) -> Option<&BaseType>
    ensures there { IfSome result (λ base. IsVariable (base_of base.now) (thing_in things.entry.now place)) }
    ensures none { IfNone result (is_variable (thing_in things.entry.now place) ≡ false) }
{
    match things.get(place as usize) {
        Some(Some(Thing::Value(base, _))) => Some(base),
        Some(Some(Thing::Set(_, _))) | Some(None) | None => None,
    }
}
