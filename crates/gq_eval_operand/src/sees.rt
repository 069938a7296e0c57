// The context of an expression.
ghost use Rattle.std.specs.Prelude.{◌≡◌, ℕ, IfOk, map, Some, pos};
ghost use Rattle.std.specs.Option.{option_map};
ghost use Rattle.gq_value.specs.AccumViews.{base_of};
ghost use Rattle.gq_plan_ir.specs.Words.{Function, Method, Makes, function_named, edge_quoted};
ghost use Rattle.gq_plan_ir.specs.Calendars.{IsCalendar};
ghost use Rattle.gq_plan_ir.specs.Calls.{sum, degree_of};
ghost use Rattle.gq_plan_ir.specs.Expressions.{Look, setting};
ghost use Rattle.gq_plan_ir.specs.Reference.{Reference, Place, Slot, TupleType, Calls, Does};
ghost use Rattle.gq_plan_ir.specs.ExprView.{field_of};
ghost use Rattle.gq_eval_operand.specs.Meant.{meant, Tells};
ghost use Rattle.gq_eval_operand.specs.Sound.{Sound, IsOwn};

use crate::halt::Halt;
use crate::seen::Seen;
use gq_plan_ir::Field;
use gq_value::BaseType;
use std::alloc::Global;

/// The context in which an expression of a plan is evaluated: a graph, and the contents of names and accumulators.
pub trait Sees {
    /// The context, as the definitions have it.
    ghost look: { Self → Look Reference };

    /// The value of the name at a place of the frame.
    fn named(&self, place: u32) -> Result<Seen<'_>, Halt>
        ensures seen { Tells meant ((look self.now).named (Place place)) result }
        ensures sound { IfOk result Sound };

    /// The value of a global accumulator.
    fn global(&self, slot: u32) -> Result<Seen<'_>, Halt>
        ensures seen { Tells meant ((look self.now).global (Slot slot)) result }
        ensures sound { IfOk result Sound };

    /// The value of a vertex's accumulator.
    fn attached(&self, slot: u32, vertex: u32) -> Result<Seen<'_>, Halt>
        ensures seen { Tells meant ((look self.now).attached (Slot slot) vertex) result }
        ensures sound { IfOk result Sound };

    /// The value of a vertex's accumulator before the block.
    fn before(&self, slot: u32, vertex: u32) -> Result<Seen<'_>, Halt>
        ensures seen { Tells meant ((look self.now).before (Slot slot) vertex) result }
        ensures sound { IfOk result Sound };

    /// The field of the value before a dot.
    fn field<'v>(&'v self, alloc: Global, of: Seen<'v>, field: &'v Field) -> Result<Seen<'v>, Halt>
        requires { Sound of }
        ensures seen { Tells meant ((look self.now).field (meant of.entry) (field_of field.now)) result }
        ensures sound { IfOk result Sound };

    /// The types of the fields of a tuple type.
    fn tuple(&self, number: u32) -> Option<&[BaseType]>
        ensures { function_named (setting (look self.now).world) (TupleType number) ≡ option_map (λ types. Makes number (map base_of types.now)) result };

    /// How many edges can be walked from a vertex.
    fn degree(&self, vertex: u32) -> i64
        ensures { result ≡ pos (sum (map (degree_of (look self.now).world.graph vertex) (look self.now).world.graph.sorts.own_edges)) };

    /// The number of edges of the type of this name that can be walked from a vertex, if there is such a type in the
    /// graph. `kinds` are the types that the plan found for the name.
    fn degree_under(&self, vertex: u32, edge: &str, kinds: &[u32]) -> Option<i64>
        ensures { option_map pos (option_map (degree_of (look self.now).world.graph vertex) (edge_quoted (look self.now).world.graph.sorts edge.now)) ≡ result };

    // Words denote themselves, and the calendar is one.
    ghost calls: { (s : Self) (f : Function) → IsOwn f → function_named (setting (look s).world) (Calls f) ≡ Some f };

    ghost does: { (s : Self) (m : Method) → (look s).world.words.method (Does m) ≡ Some m };

    ghost calendar: { (s : Self) → IsCalendar (look s).world.calendar };
}
