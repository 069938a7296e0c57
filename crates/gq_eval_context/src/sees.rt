// The look-ups of expressions.
ghost use Rattle.std.specs.Prelude.{refl};
ghost use Rattle.gq_rules_calendar.specs.Gregorian.{gregorian};
ghost use Rattle.gq_eval_context.specs.Looks.{look_of};
ghost use Rattle.gq_eval_context.specs.LookLaws.{own_calls};
ghost use Rattle.gq_eval_context.specs.Times.{is_calendar};

use crate::degrees::{degree, degree_under};
use crate::eval_context::EvalContext;
use crate::fields::{field_seen, tuple_type};
use gq_eval_operand::{Halt, Seen, Sees};
use gq_frame::{named, read_target};
use gq_plan_ir::Field;
use gq_value::BaseType;
use std::alloc::Global;

#[tactic(auto, using(crate::proofs::SeesLemmas::sees_laws))]
impl<'a> Sees for EvalContext<'a> {
    ghost look = { look_of gregorian };

    fn named(&self, place: u32) -> Result<Seen<'_>, Halt> {
        named(self.aliases, self.things, place)
    }

    fn global(&self, slot: u32) -> Result<Seen<'_>, Halt> {
        read_target(self.accums, slot, 0)
    }

    fn attached(&self, slot: u32, vertex: u32) -> Result<Seen<'_>, Halt> {
        read_target(self.accums, slot, vertex)
    }

    fn before(&self, slot: u32, vertex: u32) -> Result<Seen<'_>, Halt> {
        read_target(self.before, slot, vertex)
    }

    fn field<'v>(
        &'v self,
        alloc: Global,
        of: Seen<'v>,
        field: &'v Field,
    ) -> Result<Seen<'v>, Halt> {
        field_seen(alloc, self.graph, self.tuples, of, field)
    }

    fn tuple(&self, number: u32) -> Option<&[BaseType]> {
        match tuple_type(self.tuples, number) {
            Some(of) => Some(of.types.as_slice()),
            None => None,
        }
    }

    fn degree(&self, vertex: u32) -> i64 {
        degree(self.graph, self.plan.edges.as_slice(), vertex)
    }

    fn degree_under(&self, vertex: u32, edge: &str, _kinds: &[u32]) -> Option<i64> {
        degree_under(self.graph, self.plan.edges.as_slice(), vertex, edge)
    }

    ghost calls = { λ v f own. own_calls gregorian v f own };

    ghost does = { λ v m. refl };

    ghost calendar = { λ v. is_calendar };
}
