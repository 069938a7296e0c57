// An id that is shown as an attribute.
ghost use Rattle.std.specs.Prelude.{◌≡◌, IfOk};
ghost use Rattle.gq_index.specs.Rows.{IsId};
ghost use Rattle.gq_output.specs.Vertices.{id_shown};

use gq_base::OutOfMemory;
use gq_eval_attributes::{integer_in, number_in};
use gq_graph::IdKind;
use gq_json::Out;
use gq_value::Txt;
use std::alloc::Global;

/// Prints an id of a kind, which is stored as its text; as a number if the kind is a number.
#[tactic(auto, using(gq_eval_attributes::proofs::IdLemmas::id_laws))]
pub(crate) fn shown_id(alloc: Global, kind: IdKind, id: &str) -> Result<Out, OutOfMemory>
    requires { IsId kind id.now }
    ensures { IfOk result (λ out. out ≡ id_shown kind id.now) }
{
    match kind {
        IdKind::Text => Ok(Out::Text(Txt::of(alloc, id)?)),
        IdKind::Int => match integer_in(id.as_bytes()) {
            Some(x) => Ok(Out::Int(x)),
            None => unreachable!(),
        },
        IdKind::UInt => match number_in(id.as_bytes()) {
            Some(n) => Ok(Out::UInt(n)),
            None => unreachable!(),
        },
    }
}
