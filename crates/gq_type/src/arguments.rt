// Calls of functions and methods, given the types of their arguments, and parts after a dot.
ghost use Rattle.std.specs.Prelude.{◌≡◌, ◌≢◌, map, Ok, Err, MatchResult};
ghost use Rattle.std.specs.Option.{option_map};
ghost use Rattle.gq_tree.specs.View.{views};
ghost use Rattle.gq_rules_typing.specs.FieldTypes as dots;
ghost use Rattle.gq_scope.specs.Held.{names_in};
ghost use Rattle.gq_scope.specs.Views.{base_is, typed_is, fault_is, Judges};
ghost use Rattle.gq_type.specs.Arguments as spec;
ghost use Rattle.gq_type.specs.Calls.{function_is, method_is};

use crate::calls::{CheckedFunction, CheckedMethod, function_named, method_named, method_type};
use crate::fields::behind_dot;
use crate::functions::function_type;
use crate::names::{attached, before};
use crate::rules::{as_base, has_accums};
use gq_scope::{Base, Scope, TypeFault, Typed, allowed, read_type, unknown};
use gq_tree::Node;
use std::alloc::Global;

/// The types of arguments, each of which must be a value.
#[tactic(auto, using(crate::proofs::ArgumentLemmas::all_laws))]
fn bases<'s>(alloc: Global, typed: &[Typed<'s>]) -> Result<Vec<Base<'s>>, TypeFault>
    ensures { MatchResult result
        (λ bases. spec.all_bases (map typed_is typed.now) ≡ Ok (map base_is bases.items))
        (λ e. e ≢ TypeFault.OutOfMemory → spec.all_bases (map typed_is typed.now) ≡ Err (fault_is e)) }
{
    let mut bases = Vec::new(alloc);
    for x in typed {
        let base = as_base(*x)?;
        bases.push(base)?;
    }
    Ok(bases)
}

/// Types a call of a function.
#[tactic(auto, using(crate::proofs::ScopeLemmas::call_laws))]
pub(crate) fn called<'s>(
    alloc: Global,
    scope: &'s Scope<'_>,
    name: &str,
    arguments: &[Node],
    typed: &[Typed<'s>],
) -> Result<Typed<'s>, TypeFault>
    ensures { Judges typed_is (spec.called (names_in scope.now) name.now (views arguments.now) (map typed_is typed.now)) result }
{
    let function = known_function(alloc, name, function_named(scope, name))?;
    let types = bases(alloc, typed)?;
    function_type(alloc, function, arguments, &types)
}

fn known_function<'s>(
    alloc: Global,
    name: &str,
    found: Option<CheckedFunction<'s>>,
) -> Result<CheckedFunction<'s>, TypeFault>
    ensures { Judges function_is (spec.known name.now (option_map function_is found.entry)) result }
{
    match found {
        None => Err(unknown(alloc, name)),
        Some(function) => Ok(function),
    }
}

fn known_method(
    alloc: Global,
    name: &str,
    found: Option<CheckedMethod>,
) -> Result<CheckedMethod, TypeFault>
    ensures { Judges method_is (spec.known name.now (option_map method_is found)) result }
{
    match found {
        None => Err(unknown(alloc, name)),
        Some(method) => Ok(method),
    }
}

/// Types a call of a method of x.
#[tactic(auto, using(crate::proofs::ScopeLemmas::call_laws))]
pub(crate) fn method_called<'s>(
    alloc: Global,
    scope: &'s Scope<'_>,
    name: &str,
    x: Typed<'s>,
    arguments: &[Node],
    typed: &[Typed<'s>],
) -> Result<Typed<'s>, TypeFault>
    ensures { Judges typed_is
        (spec.method_called (names_in scope.now) name.now (typed_is x.entry) (views arguments.now) (map typed_is typed.now)) result }
{
    let method = known_method(alloc, name, method_named(name))?;
    let types = bases(alloc, typed)?;
    method_type(alloc, scope, method, x, arguments, &types)
}

/// Types `x.f` and `x.type`.
#[tactic(auto, using(crate::proofs::ScopeLemmas::call_laws))]
pub(crate) fn field<'s>(
    alloc: Global,
    scope: &'s Scope<'_>,
    x: Typed<'s>,
    name: &str,
) -> Result<Typed<'s>, TypeFault>
    ensures { Judges typed_is (dots.behind_dot (names_in scope.now).setting (typed_is x.entry) name.now) result }
{
    behind_dot(alloc, scope, x, name)
}

/// Types `x.@a`.
pub(crate) fn read_attached<'s>(
    alloc: Global,
    scope: &'s Scope<'_>,
    x: Typed<'s>,
    name: &str,
) -> Result<Typed<'s>, TypeFault>
    ensures { Judges typed_is (spec.read_attached (names_in scope.now) (typed_is x.entry) name.now) result }
{
    allowed(has_accums(x))?;
    let kind = attached(alloc, scope, name)?;
    Ok(read_type(kind))
}

/// Types `x.@a'`.
pub(crate) fn read_before<'s>(
    alloc: Global,
    scope: &'s Scope<'_>,
    x: Typed<'s>,
    name: &str,
) -> Result<Typed<'s>, TypeFault>
    ensures { Judges typed_is (spec.read_before (names_in scope.now) (typed_is x.entry) name.now) result }
{
    allowed(has_accums(x))?;
    let kind = before(alloc, scope, name)?;
    Ok(read_type(kind))
}
