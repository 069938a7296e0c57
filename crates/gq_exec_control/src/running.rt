// A run, and why it ends.
ghost use Rattle.std.specs.Prelude.{◌≡◌, IfOk, pos, slice_get};
ghost use Rattle.std.specs.Option.{option_map};
ghost use Rattle.gq_value.specs.AccumViews.{base_of};
ghost use Rattle.gq_value.specs.Views.{val};
ghost use Rattle.gq_value.specs.declared.kind.Number.TheVariants as number;
ghost use Rattle.gq_rules_meaning.specs.Statements.{numbers_between};
ghost use Rattle.gq_exec_control.specs.Values.{base_in, values_of};

use gq_base::{List, OutOfMemory};
use gq_frame::Live;
use gq_json::Printed;
use gq_value::{BaseType, Row, Value, Wrong};
use std::alloc::Global;

/// The live data of a run, the iterations left, and what was printed, an object for each PRINT.
#[derive(Drop)]
pub struct Running {
    pub live: Live,
    pub turns: u64,
    pub printed: List<Printed>,
}

/// Why a run ends before its last statement.
#[derive(Clone, Copy, Debug, PartialEq, Eq)]
pub enum RunFault {
    /// An expression's fault.
    Eval(Wrong),

    /// A sum in the accumulator of this slot is out of range.
    SumRange(usize),

    /// No iteration is left for a body.
    LoopBound,

    /// A path with too many bindings.
    PathBound,

    /// The run's meaning is stuck; never so for a plan of a well typed query.
    Stuck,
    OutOfMemory,
}

impl From<OutOfMemory> for RunFault {
    ghost use Rattle.std.specs.Prelude.{◌≡◌};
    ghost use Rattle.gq_exec_control.specs.declared.running.RunFault.TheVariants.{OutOfMemory};

    ghost from_gives = { λ _ e. e ≡ OutOfMemory };

    fn from(_: OutOfMemory) -> Self {
        RunFault::OutOfMemory
    }
}

/// What FOREACH iterates over: values of a type, or numbers including both ends.
#[derive(Drop)]
pub enum Rounds {
    Elements(BaseType, Row),
    Ints(i64, i64),
    UInts(u64, u64),
}

impl Rounds {
    /// Returns the value of an iteration, counted from 0, if there is one.
    pub fn at(&self, alloc: Global, round: u64) -> Result<Option<Value>, OutOfMemory>
        ensures { IfOk result (λ value. slice_get (values_of self.now) round ≡ option_map val value) }
    {
        match self {
            Rounds::Elements(_, row) => match row.as_slice().get(round as usize) {
                Some(value) => Ok(Some(value.duplicate(alloc)?)),
                None => Ok(None),
            },
            Rounds::Ints(first, last) => Ok(int_at(*first, *last, round)),
            Rounds::UInts(first, last) => Ok(uint_at(*first, *last, round)),
        }
    }

    /// Returns the type of the values.
    #[tactic(auto, using(gq_eval_operand::proofs::ConvertLemmas::base_laws))]
    pub fn base(&self, alloc: Global) -> Result<BaseType, OutOfMemory>
        ensures { IfOk result (λ base. base_of base ≡ base_in self.now) }
    {
        match self {
            Rounds::Elements(base, _) => Ok(base.duplicate(alloc)?),
            Rounds::Ints(_, _) => Ok(BaseType::Int),
            Rounds::UInts(_, _) => Ok(BaseType::UInt),
        }
    }
}

/// Returns a number counted from the first one, if it isn't past the last.
fn int_at(first: i64, last: i64, round: u64) -> Option<Value>
    ensures { slice_get (numbers_between number.Int first last) round ≡ option_map val result }
{
    let x = i128::from(first) + i128::from(round);
    if x <= i128::from(last) {
        Some(Value::Int(x as i64))
    } else {
        None
    }
}

fn uint_at(first: u64, last: u64, round: u64) -> Option<Value>
    ensures { slice_get (numbers_between number.UInt (pos first) (pos last)) round ≡ option_map val result }
{
    if first > last {
        return None;
    }
    let span = last - first;
    if round > span {
        return None;
    }
    Some(Value::UInt(first + round))
}
