// The types of expressions, a function for each list of operands. A rule is checked at the end of its form, after its
// operands, from left to right; in a chain each operation is checked after its right operand.
ghost use Rattle.std.specs.Prelude.{◌≡◌, ◌≢◌, true, map, Ok, Err, MatchResult};
ghost use Rattle.std.specs.Option.{option_map};
ghost use Rattle.gq_tree.specs.View.{view, views, view_part, view_parts, view_factors, view_terms};
ghost use Rattle.gq_rules_typing.specs.ExpressionTypes.{literal_type, typing, typing_all, typing_parts, typing_part};
ghost use Rattle.gq_rules_typing.specs.ExpressionTypes.{typing_factors, typing_terms, typing_bools};
ghost use Rattle.gq_scope.specs.Held.{names_in};
ghost use Rattle.gq_scope.specs.Views.{base_is, typed_is, fault_is, Judges};
ghost use Rattle.gq_type.specs.Arguments.{is_operation};

use crate::arguments::{called, field, method_called, read_attached, read_before};
use crate::names::{global, named};
use crate::operators::{compared, joined, multiplied, negated, summed, truth};
use crate::rules::alone;
use gq_scope::{Base, Scope, TypeFault, Typed, name_of, read_type};
use gq_tree::{AddSign, MulSign, Node, Part};
use std::alloc::Global;

/// Returns the type of an expression at the scope's place, or the fault of the first rule that fails in the order of
/// the text. May return OutOfMemory at any time.
pub fn type_of<'s>(alloc: Global, scope: &'s Scope<'_>, node: &Node) -> Result<Typed<'s>, TypeFault>
    ensures { Judges typed_is (typing (names_in scope.now) (view node.now)) result }
{
    typed(node, alloc, scope)
}

/// The type of a number: INT up to 9223372036854775807, and UINT above.
fn literal<'s>(n: u64) -> Base<'s>
    ensures { base_is result ≡ literal_type n }
{
    if n < 9_223_372_036_854_775_808 {
        Base::Int
    } else {
        Base::UInt
    }
}

#[cycle(typing)]
#[tactic(auto, using(gq_tree::proofs::ViewLemmas::view_laws, crate::proofs::ArgumentLemmas::dot_laws))]
fn typed<'s>(node: &Node, alloc: Global, scope: &'s Scope<'_>) -> Result<Typed<'s>, TypeFault>
    ensures { Judges typed_is (typing (names_in scope.now) (view node.now)) result }
{
    match node {
        Node::Number(n) => Ok(Typed::Of(literal(*n))),
        Node::Text(_) => Ok(Typed::Of(Base::Text)),
        Node::Truth(_) => Ok(Typed::Of(Base::Bool)),
        Node::Global(name) => {
            let kind = global(alloc, scope, name.as_str())?;
            Ok(read_type(kind))
        }
        Node::Name(name) => {
            let x = named(alloc, scope, name.as_str())?;
            alone(x)
        }
        Node::Call(name, nodes) => {
            let types = typed_all(nodes.as_slice(), alloc, scope)?;
            called(alloc, scope, name.as_str(), nodes.as_slice(), &types)
        }
        Node::Post(first, parts) => match name_of(first.get()) {
            Some(name) => {
                let x = named(alloc, scope, name)?;
                typed_parts(parts.as_slice(), alloc, scope, x)
            }
            None => {
                let x = typed(first.get(), alloc, scope)?;
                typed_parts(parts.as_slice(), alloc, scope, x)
            }
        },
        Node::Neg(_, _) | Node::Mul(_, _) | Node::Sum(_, _) => operated(node, alloc, scope),
        Node::Cmp(_, _, _) | Node::Not(_, _) => operated(node, alloc, scope),
        Node::And(_, _) | Node::Or(_, _) => operated(node, alloc, scope),
    }
}

/// The type of an operation on operands.
#[cycle(typing)]
#[tactic(auto, using(gq_tree::proofs::ViewLemmas::view_laws))]
fn operated<'s>(node: &Node, alloc: Global, scope: &'s Scope<'_>) -> Result<Typed<'s>, TypeFault>
    requires { is_operation (view node.now) ≡ true }
    ensures { Judges typed_is (typing (names_in scope.now) (view node.now)) result }
{
    match node {
        Node::Neg(minuses, operand) => {
            let x = typed(operand.get(), alloc, scope)?;
            negated(*minuses, x)
        }
        Node::Mul(first, factors) => {
            let x = typed(first.get(), alloc, scope)?;
            typed_factors(factors.as_slice(), alloc, scope, x)
        }
        Node::Sum(first, terms) => {
            let x = typed(first.get(), alloc, scope)?;
            typed_terms(terms.as_slice(), alloc, scope, x)
        }
        Node::Cmp(left, sign, right) => {
            let x = typed(left.get(), alloc, scope)?;
            let y = typed(right.get(), alloc, scope)?;
            compared(*sign, x, y)
        }
        Node::Not(_, operand) => {
            let x = typed(operand.get(), alloc, scope)?;
            truth(x)
        }
        Node::And(first, others) | Node::Or(first, others) => {
            let x = typed(first.get(), alloc, scope)?;
            typed_bools(others.as_slice(), alloc, scope, x)
        }
        Node::Number(_) | Node::Text(_) | Node::Truth(_) => unreachable!(),
        Node::Global(_) | Node::Name(_) => unreachable!(),
        Node::Call(_, _) | Node::Post(_, _) => unreachable!(),
    }
}

/// The types of arguments, from left to right.
#[cycle(typing)]
#[tactic(auto, using(crate::proofs::ArgumentLemmas::all_laws))]
fn typed_all<'s>(
    nodes: &[Node],
    alloc: Global,
    scope: &'s Scope<'_>,
) -> Result<Vec<Typed<'s>>, TypeFault>
    ensures { MatchResult result
        (λ types. typing_all (names_in scope.now) (views nodes.now) ≡ Ok (map typed_is types.items))
        (λ e. e ≢ TypeFault.OutOfMemory → typing_all (names_in scope.now) (views nodes.now) ≡ Err (fault_is e)) }
{
    let mut types = Vec::new(alloc);
    for node in nodes {
        let x = typed(node, alloc, scope)?;
        types.push(x)?;
    }
    Ok(types)
}

/// The type of the operand before the first dot, with the parts after each dot.
#[cycle(typing)]
fn typed_parts<'s>(
    parts: &[Part],
    alloc: Global,
    scope: &'s Scope<'_>,
    first: Typed<'s>,
) -> Result<Typed<'s>, TypeFault>
    ensures { Judges typed_is (typing_parts (names_in scope.now) (typed_is first.entry) (view_parts parts.now)) result }
{
    let mut x = first;
    for part in parts {
        x = typed_part(part, alloc, scope, x)?;
    }
    alone(x)
}

#[cycle(typing)]
#[tactic(auto, using(gq_tree::proofs::ViewLemmas::view_laws))]
fn typed_part<'s>(
    part: &Part,
    alloc: Global,
    scope: &'s Scope<'_>,
    x: Typed<'s>,
) -> Result<Typed<'s>, TypeFault>
    ensures { Judges typed_is (typing_part (names_in scope.now) (typed_is x.entry) (view_part part.now)) result }
{
    match part {
        Part::Field(name) => field(alloc, scope, x, name.as_str()),
        Part::Method(name, nodes) => {
            let types = typed_all(nodes.as_slice(), alloc, scope)?;
            method_called(alloc, scope, name.as_str(), x, nodes.as_slice(), &types)
        }
        Part::Attached(name) => read_attached(alloc, scope, x, name.as_str()),
        Part::Before(name) => read_before(alloc, scope, x, name.as_str()),
    }
}

/// The type of a product, given the type of the operand before.
#[cycle(typing)]
fn typed_factors<'s>(
    factors: &[(MulSign, Node)],
    alloc: Global,
    scope: &'s Scope<'_>,
    first: Typed<'s>,
) -> Result<Typed<'s>, TypeFault>
    ensures { Judges typed_is (typing_factors (names_in scope.now) (typed_is first.entry) (view_factors factors.now)) result }
{
    let mut x = first;
    for factor in factors {
        let y = typed(&factor.1, alloc, scope)?;
        x = multiplied(x, y)?;
    }
    Ok(x)
}

/// The type of a sum, likewise.
#[cycle(typing)]
fn typed_terms<'s>(
    terms: &[(AddSign, Node)],
    alloc: Global,
    scope: &'s Scope<'_>,
    first: Typed<'s>,
) -> Result<Typed<'s>, TypeFault>
    ensures { Judges typed_is (typing_terms (names_in scope.now) (typed_is first.entry) (view_terms terms.now)) result }
{
    let mut x = first;
    for term in terms {
        let y = typed(&term.1, alloc, scope)?;
        x = summed(term.0, x, y)?;
    }
    Ok(x)
}

/// The type of a chain of AND, or of OR.
#[cycle(typing)]
fn typed_bools<'s>(
    others: &[Node],
    alloc: Global,
    scope: &'s Scope<'_>,
    first: Typed<'s>,
) -> Result<Typed<'s>, TypeFault>
    ensures { Judges typed_is (typing_bools (names_in scope.now) (typed_is first.entry) (views others.now)) result }
{
    let mut x = first;
    for other in others {
        let y = typed(other, alloc, scope)?;
        x = joined(x, y)?;
    }
    truth(x)
}
