// New names.
ghost use Rattle.std.specs.Prelude.{◌≡◌, ◌≢◌, IfOk, IfErr, None, is_some, true};
ghost use Rattle.gq_scope.specs.Named.{seen_at, with_name};
ghost use Rattle.gq_plan_expr.specs.declared.fault.PlanFault.TheVariants as fault;

use gq_plan_expr::PlanFault;
use gq_scope::Places;

/// Declares an accumulator, if its name is new, and returns its slot.
pub(crate) fn add_slot(slots: &mut Places, name: &str, attached: bool) -> Result<u32, PlanFault>
    ensures new { IfOk result (λ _. seen_at slots.old name.now ≡ None) }
    ensures slot { IfOk result (λ slot. slot ≡ slots.old.next) }
    ensures added { IfOk result (λ _. slots.new ≡ with_name slots.old name.now attached) }
    ensures unknown { IfErr result (λ e. e ≢ fault.OutOfMemory → is_some (seen_at slots.old name.now) ≡ true) }
{
    match slots.find(name) {
        Some(_) => Err(PlanFault::Unknown),
        None => {
            let slot = slots.add(name, attached)?;
            Ok(slot)
        }
    }
}
