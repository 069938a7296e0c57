// Parameters.
ghost use Rattle.std.specs.Prelude.{◌≡◌, IfErr, IfOk, OnOk, [], length};
ghost use Rattle.gq_exec_vars.specs.Begun.{BindHalts, Binds, BoundHalts, IsBound, no_accums};

use crate::fields::declared_base;
use gq_base::List;
use gq_eval_operand::Halt;
use gq_frame::{Accums, Frame, Live, Pages, Slots, Thing};
use gq_index::Graph;
use gq_plan_ir::{Parameter, Plan};
use gq_value::{Row, Value};
use std::alloc::Global;

/// The parameters of a plan with their arguments, and no accumulator. They come into view from the last one on, so that the first one is
/// in front. If they don't have so many arguments, or a type isn't one of the graph, that is `Stuck`.
#[tactic(auto, using(crate::proofs::NameLemmas::bound_laws))]
pub(crate) fn bound(
    alloc: Global,
    graph: Graph<'_>,
    plan: &Plan,
    arguments: &Row,
) -> Result<Live, Halt>
    ensures bound { IfOk result (IsBound plan.now arguments.now) }
    ensures halts { IfErr result (BoundHalts plan.now arguments.now) }
    ensures accums { IfOk result (λ live. live.frame.accums ≡ no_accums (length graph.entry.store.now.vertices)) }
{
    let count = plan.parameters.len();
    if arguments.len() != count {
        return Err(Halt::Stuck);
    }
    let mut live = nothing(alloc, graph);
    for turn in 0..count {
        let at = count - turn - 1;
        bind(
            alloc,
            plan,
            plan.parameters.at(at),
            arguments.at(at),
            &mut live,
        )?;
    }
    Ok(live)
}

/// A parameter with its argument, in front of all names.
#[tactic(auto, using(crate::proofs::NameLemmas::binds))]
fn bind(
    alloc: Global,
    plan: &Plan,
    parameter: &Parameter,
    argument: &Value,
    live: &mut Live,
) -> Result<(), Halt>
    ensures binds { OnOk result (Binds plan.now parameter.now argument.now live.old live.new) }
    ensures halts { IfErr result (BindHalts plan.now parameter.now) }
    ensures accums { live.new.frame.accums ≡ live.old.frame.accums }
{
    match declared_base(parameter.base, plan.vertices.as_slice()) {
        None => Err(Halt::Stuck),
        Some(base) => {
            let value = argument.duplicate(alloc)?;
            Ok(live.declare(parameter.place, Thing::Value(base, value))?)
        }
    }
}

/// No name is in view, and there are no accumulators.
fn nothing(alloc: Global, graph: Graph<'_>) -> Live
    ensures undo { result.undo.items ≡ [] }
    ensures things { result.frame.things ≡ [] }
    ensures accums { result.frame.accums ≡ no_accums (length graph.entry.store.now.vertices) }
{
    let slots = Slots {
        declared: List::new(alloc),
        vertices: graph.store.vertices.len(),
    };
    let accums = Accums {
        slots,
        contents: Pages::new(alloc),
    };
    Live {
        frame: Frame {
            things: List::new(alloc),
            accums,
        },
        undo: Vec::new(alloc),
    }
}
