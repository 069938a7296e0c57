// Expressions, a function for each variant that holds expressions.
ghost use Rattle.std.specs.Prelude.{◌≡◌, Some};
ghost use Rattle.std.specs.Option.{option_copied};
ghost use Rattle.gq_tree.specs.Tree as plain;
ghost use Rattle.gq_tree.specs.View.{view, views, view_part, view_parts, view_factors, view_terms};
ghost use Rattle.gq_plan_expr.specs.Resolved.{Answers, degree, posted, multiplied, added, compared, all_of, any_of};
ghost use Rattle.gq_plan_expr.specs.Names.{known_of};
ghost use Rattle.gq_plan_expr.specs.Resolved as spec;
ghost use Rattle.gq_plan_expr.specs.Resolved.{resolved, resolved_all, resolved_part, resolved_parts, resolved_factors, resolved_terms};

use crate::fault::PlanFault;
use crate::methods::{Called, method_named};
use crate::names::NameResolver;
use gq_base::{Boxed, List};
use gq_plan_ir::{Behind, Expr, Method};
use gq_scope::text_of;
use gq_tree::{AddSign, CmpSign, MulSign, Node, Part};
use gq_value::Txt;
use std::alloc::Global;

/// Plans an expression, given its tree; `names` resolves its names. It takes some stack frames for each level of the
/// tree, and none for the length of a chain.
///
/// Returns `Unknown` if something isn't found, which doesn't happen in a well typed query. `OutOfMemory` may occur at
/// any time.
pub fn plan_expr(alloc: Global, names: &NameResolver<'_>, node: &Node) -> Result<Expr, PlanFault>
    ensures { Answers (resolved (known_of names.now) (view node.now)) result }
{
    expr(node, alloc, names)
}

#[cycle(plans)]
#[tactic(auto, using(gq_tree::proofs::ViewLemmas::view_laws))]
fn expr(node: &Node, alloc: Global, names: &NameResolver<'_>) -> Result<Expr, PlanFault>
    ensures { Answers (resolved (known_of names.now) (view node.now)) result }
{
    match node {
        Node::Number(number) => Ok(Expr::Number(*number)),
        Node::Text(said) => Ok(Expr::Text(copied(alloc, said)?)),
        Node::Truth(truth) => Ok(Expr::Truth(*truth)),
        Node::Global(name) => global(names, name.as_str()),
        Node::Name(name) => variable(names, name.as_str()),
        Node::Call(name, arguments) => call(arguments.as_slice(), alloc, names, name.as_str()),
        Node::Post(first, parts) => {
            let first = boxed(first.get(), alloc, names)?;
            post(parts.as_slice(), alloc, names, first)
        }
        Node::Neg(signs, operand) => {
            let operand = boxed(operand.get(), alloc, names)?;
            Ok(Expr::Neg(*signs, operand))
        }
        Node::Mul(first, others) => {
            let first = boxed(first.get(), alloc, names)?;
            mul(others.as_slice(), alloc, names, first)
        }
        Node::Sum(first, others) => {
            let first = boxed(first.get(), alloc, names)?;
            sum(others.as_slice(), alloc, names, first)
        }
        Node::Cmp(left, sign, right) => {
            let left = boxed(left.get(), alloc, names)?;
            cmp(right.get(), alloc, names, left, *sign)
        }
        Node::Not(words, operand) => {
            let operand = boxed(operand.get(), alloc, names)?;
            Ok(Expr::Not(*words, operand))
        }
        Node::And(first, others) => {
            let first = boxed(first.get(), alloc, names)?;
            and(others.as_slice(), alloc, names, first)
        }
        Node::Or(first, others) => {
            let first = boxed(first.get(), alloc, names)?;
            or(others.as_slice(), alloc, names, first)
        }
    }
}

fn copied(alloc: Global, text: &Txt) -> Result<Txt, PlanFault>
    ensures { Answers (Some text.now) result }
{
    Ok(Txt::of(alloc, text.as_str())?)
}

fn global(names: &NameResolver<'_>, name: &str) -> Result<Expr, PlanFault>
    ensures { Answers (resolved (known_of names.now) (plain.Global name.now)) result }
{
    match names.slot(name) {
        None => Err(PlanFault::Unknown),
        Some(slot) => Ok(Expr::Global(slot)),
    }
}

fn variable(names: &NameResolver<'_>, name: &str) -> Result<Expr, PlanFault>
    ensures { Answers (resolved (known_of names.now) (plain.Name name.now)) result }
{
    match names.place(name) {
        None => Err(PlanFault::Unknown),
        Some(place) => Ok(Expr::Name(place)),
    }
}

#[cycle(plans)]
fn boxed(node: &Node, alloc: Global, names: &NameResolver<'_>) -> Result<Boxed<Expr>, PlanFault>
    ensures { Answers (resolved (known_of names.now) (view node.now)) result }
{
    let planned = expr(node, alloc, names)?;
    Ok(Boxed::new(alloc, planned)?)
}

#[cycle(plans)]
fn call(
    arguments: &[Node],
    alloc: Global,
    names: &NameResolver<'_>,
    name: &str,
) -> Result<Expr, PlanFault>
    ensures { Answers (resolved (known_of names.now) (plain.Call name.now (views arguments.now))) result }
{
    match names.function(alloc, name)? {
        None => Err(PlanFault::Unknown),
        Some(function) => {
            let planned = exprs(arguments, alloc, names)?;
            Ok(Expr::Call(function, planned))
        }
    }
}

#[cycle(plans)]
fn post(
    parts: &[Part],
    alloc: Global,
    names: &NameResolver<'_>,
    first: Boxed<Expr>,
) -> Result<Expr, PlanFault>
    ensures { Answers (posted first (resolved_parts (known_of names.now) (view_parts parts.now))) result }
{
    let planned = behinds(parts, alloc, names)?;
    Ok(Expr::Post(first, planned))
}

#[cycle(plans)]
fn mul(
    others: &[(MulSign, Node)],
    alloc: Global,
    names: &NameResolver<'_>,
    first: Boxed<Expr>,
) -> Result<Expr, PlanFault>
    ensures { Answers (multiplied first (resolved_factors (known_of names.now) (view_factors others.now))) result }
{
    let planned = factors(others, alloc, names)?;
    Ok(Expr::Mul(first, planned))
}

#[cycle(plans)]
fn sum(
    others: &[(AddSign, Node)],
    alloc: Global,
    names: &NameResolver<'_>,
    first: Boxed<Expr>,
) -> Result<Expr, PlanFault>
    ensures { Answers (added first (resolved_terms (known_of names.now) (view_terms others.now))) result }
{
    let planned = terms(others, alloc, names)?;
    Ok(Expr::Sum(first, planned))
}

#[cycle(plans)]
fn cmp(
    right: &Node,
    alloc: Global,
    names: &NameResolver<'_>,
    left: Boxed<Expr>,
    sign: CmpSign,
) -> Result<Expr, PlanFault>
    ensures { Answers (compared left sign (resolved (known_of names.now) (view right.now))) result }
{
    let planned = boxed(right, alloc, names)?;
    Ok(Expr::Cmp(left, sign, planned))
}

#[cycle(plans)]
fn and(
    others: &[Node],
    alloc: Global,
    names: &NameResolver<'_>,
    first: Boxed<Expr>,
) -> Result<Expr, PlanFault>
    ensures { Answers (all_of first (resolved_all (known_of names.now) (views others.now))) result }
{
    let planned = exprs(others, alloc, names)?;
    Ok(Expr::And(first, planned))
}

#[cycle(plans)]
fn or(
    others: &[Node],
    alloc: Global,
    names: &NameResolver<'_>,
    first: Boxed<Expr>,
) -> Result<Expr, PlanFault>
    ensures { Answers (any_of first (resolved_all (known_of names.now) (views others.now))) result }
{
    let planned = exprs(others, alloc, names)?;
    Ok(Expr::Or(first, planned))
}

#[cycle(plans)]
#[tactic(auto, using(gq_tree::proofs::ViewLemmas::view_laws))]
fn behind(part: &Part, alloc: Global, names: &NameResolver<'_>) -> Result<Behind, PlanFault>
    ensures { Answers (resolved_part (known_of names.now) (view_part part.now)) result }
{
    match part {
        Part::Field(name) => Ok(Behind::Field(names.field(alloc, name.as_str())?)),
        Part::Method(name, arguments) => {
            method(arguments.as_slice(), alloc, names, name.as_str())
        }
        Part::Attached(name) => match names.slot(name.as_str()) {
            None => Err(PlanFault::Unknown),
            Some(slot) => Ok(Behind::Attached(slot)),
        },
        Part::Before(name) => match names.slot(name.as_str()) {
            None => Err(PlanFault::Unknown),
            Some(slot) => Ok(Behind::Before(slot)),
        },
    }
}

#[cycle(plans)]
#[tactic(auto, using(crate::proofs::MethodLemmas::method_laws))]
fn method(
    arguments: &[Node],
    alloc: Global,
    names: &NameResolver<'_>,
    name: &str,
) -> Result<Behind, PlanFault>
    ensures { Answers (resolved_part (known_of names.now) (plain.Method name.now (views arguments.now))) result }
{
    match method_named(name) {
        None => Err(PlanFault::Unknown),
        Some(Called::Method(method)) => {
            let planned = exprs(arguments, alloc, names)?;
            Ok(Behind::Method(method, planned))
        }
        Some(Called::Outdegree) => outdegree(alloc, names, arguments),
    }
}

/// Plans `outdegree()`, or `outdegree` of an edge type that a text names.
fn outdegree(
    alloc: Global,
    names: &NameResolver<'_>,
    arguments: &[Node],
) -> Result<Behind, PlanFault>
    ensures { Answers (degree (known_of names.now) (views arguments.now)) result }
{
    if arguments.is_empty() {
        return degree_of_all(alloc, names);
    }
    if arguments.len() > 1 {
        return Err(PlanFault::Unknown);
    }
    degree_of(alloc, names, text_of(&arguments[0]))
}

fn degree_of_all(alloc: Global, names: &NameResolver<'_>) -> Result<Behind, PlanFault>
    ensures { Answers (spec.degree_of_all (known_of names.now)) result }
{
    match names.counted(alloc, None)? {
        None => Err(PlanFault::Unknown),
        Some(types) => Ok(Behind::Degree(None, types)),
    }
}

fn degree_of(
    alloc: Global,
    names: &NameResolver<'_>,
    edge: Option<&str>,
) -> Result<Behind, PlanFault>
    ensures { Answers (spec.degree_of (known_of names.now) (option_copied edge.entry)) result }
{
    match edge {
        None => Err(PlanFault::Unknown),
        Some(edge) => degree_under(alloc, names, edge),
    }
}

fn degree_under(alloc: Global, names: &NameResolver<'_>, edge: &str) -> Result<Behind, PlanFault>
    ensures { Answers (spec.degree_of (known_of names.now) (Some edge.now)) result }
{
    match names.counted(alloc, Some(edge))? {
        None => Err(PlanFault::Unknown),
        Some(types) => {
            let name = Txt::of(alloc, edge)?;
            Ok(Behind::Degree(Some(name), types))
        }
    }
}

#[cycle(plans)]
#[tactic(auto, using(crate::proofs::ListLemmas::list_laws))]
fn exprs(nodes: &[Node], alloc: Global, names: &NameResolver<'_>) -> Result<List<Expr>, PlanFault>
    ensures { Answers (resolved_all (known_of names.now) (views nodes.now)) result }
{
    let mut planned = List::new(alloc);
    for node in nodes {
        let one = expr(node, alloc, names)?;
        planned.push(one)?;
    }
    Ok(planned)
}

#[cycle(plans)]
#[tactic(auto, using(crate::proofs::ListLemmas::list_laws))]
fn behinds(
    parts: &[Part],
    alloc: Global,
    names: &NameResolver<'_>,
) -> Result<List<Behind>, PlanFault>
    ensures { Answers (resolved_parts (known_of names.now) (view_parts parts.now)) result }
{
    let mut planned = List::new(alloc);
    for part in parts {
        let one = behind(part, alloc, names)?;
        planned.push(one)?;
    }
    Ok(planned)
}

#[cycle(plans)]
#[tactic(auto, using(crate::proofs::ListLemmas::list_laws))]
fn factors(
    factors: &[(MulSign, Node)],
    alloc: Global,
    names: &NameResolver<'_>,
) -> Result<List<(MulSign, Expr)>, PlanFault>
    ensures { Answers (resolved_factors (known_of names.now) (view_factors factors.now)) result }
{
    let mut planned = List::new(alloc);
    for factor in factors {
        let one = expr(&factor.1, alloc, names)?;
        planned.push((factor.0, one))?;
    }
    Ok(planned)
}

#[cycle(plans)]
#[tactic(auto, using(crate::proofs::ListLemmas::list_laws))]
fn terms(
    terms: &[(AddSign, Node)],
    alloc: Global,
    names: &NameResolver<'_>,
) -> Result<List<(AddSign, Expr)>, PlanFault>
    ensures { Answers (resolved_terms (known_of names.now) (view_terms terms.now)) result }
{
    let mut planned = List::new(alloc);
    for term in terms {
        let one = expr(&term.1, alloc, names)?;
        planned.push((term.0, one))?;
    }
    Ok(planned)
}
