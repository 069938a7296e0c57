// Copies of trees, a function for each variant that holds trees.
ghost use Rattle.std.specs.Prelude.{◌≡◌, IfOk};

use crate::expr::{AddSign, CmpSign, MulSign, Node, Part};
use gq_base::{Boxed, List, OutOfMemory};
use gq_value::Txt;
use std::alloc::Global;

impl Node {
    /// An equal tree. It takes a few frames of the stack for each level of the tree.
    pub fn duplicate(&self, alloc: Global) -> Result<Node, OutOfMemory>
        ensures { IfOk result (λ copy. copy ≡ self.now) }
    {
        node(alloc, self)
    }
}

#[cycle(copies)]
fn node(alloc: Global, tree: &Node) -> Result<Node, OutOfMemory>
    ensures { IfOk result (λ copy. copy ≡ tree.now) }
{
    match tree {
        Node::Number(number) => Ok(Node::Number(*number)),
        Node::Text(said) => text(alloc, said),
        Node::Truth(truth) => Ok(Node::Truth(*truth)),
        Node::Global(at) => global(alloc, at),
        Node::Name(at) => name(alloc, at),
        Node::Call(function, arguments) => call(alloc, function, arguments.as_slice()),
        Node::Post(first, behind) => {
            let first = boxed(alloc, first.get())?;
            post(alloc, behind.as_slice(), first)
        }
        Node::Neg(signs, operand) => neg(alloc, *signs, operand.get()),
        Node::Mul(first, others) => {
            let first = boxed(alloc, first.get())?;
            mul(alloc, others.as_slice(), first)
        }
        Node::Sum(first, others) => {
            let first = boxed(alloc, first.get())?;
            sum(alloc, others.as_slice(), first)
        }
        Node::Cmp(left, sign, right) => {
            let left = boxed(alloc, left.get())?;
            cmp(alloc, right.get(), left, *sign)
        }
        Node::Not(words, operand) => not(alloc, *words, operand.get()),
        Node::And(first, others) => {
            let first = boxed(alloc, first.get())?;
            and(alloc, others.as_slice(), first)
        }
        Node::Or(first, others) => {
            let first = boxed(alloc, first.get())?;
            or(alloc, others.as_slice(), first)
        }
    }
}

fn copied(alloc: Global, text: &Txt) -> Result<Txt, OutOfMemory>
    ensures { IfOk result (λ copy. copy ≡ text.now) }
{
    Txt::of(alloc, text.as_str())
}

fn text(alloc: Global, said: &Txt) -> Result<Node, OutOfMemory>
    ensures { IfOk result (λ copy. copy ≡ Node.Text said.now) }
{
    Ok(Node::Text(copied(alloc, said)?))
}

fn global(alloc: Global, name: &Txt) -> Result<Node, OutOfMemory>
    ensures { IfOk result (λ copy. copy ≡ Node.Global name.now) }
{
    Ok(Node::Global(copied(alloc, name)?))
}

fn name(alloc: Global, name: &Txt) -> Result<Node, OutOfMemory>
    ensures { IfOk result (λ copy. copy ≡ Node.Name name.now) }
{
    Ok(Node::Name(copied(alloc, name)?))
}

#[cycle(copies)]
fn boxed(alloc: Global, tree: &Node) -> Result<Boxed<Node>, OutOfMemory>
    ensures { IfOk result (λ copy. copy ≡ tree.now) }
{
    let copy = node(alloc, tree)?;
    Boxed::new(alloc, copy)
}

#[cycle(copies)]
fn call(alloc: Global, name: &Txt, arguments: &[Node]) -> Result<Node, OutOfMemory>
    ensures { IfOk result (λ copy. copy ≡ Node.Call name.now arguments.now) }
{
    let name = copied(alloc, name)?;
    Ok(Node::Call(name, nodes(alloc, arguments)?))
}

#[cycle(copies)]
fn post(alloc: Global, behind: &[Part], first: Boxed<Node>) -> Result<Node, OutOfMemory>
    ensures { IfOk result (λ copy. copy ≡ Node.Post first behind.now) }
{
    Ok(Node::Post(first, parts(alloc, behind)?))
}

#[cycle(copies)]
fn neg(alloc: Global, signs: usize, operand: &Node) -> Result<Node, OutOfMemory>
    ensures { IfOk result (λ copy. copy ≡ Node.Neg signs operand.now) }
{
    Ok(Node::Neg(signs, boxed(alloc, operand)?))
}

#[cycle(copies)]
fn mul(alloc: Global, others: &[(MulSign, Node)], first: Boxed<Node>) -> Result<Node, OutOfMemory>
    ensures { IfOk result (λ copy. copy ≡ Node.Mul first others.now) }
{
    Ok(Node::Mul(first, factors(alloc, others)?))
}

#[cycle(copies)]
fn sum(alloc: Global, others: &[(AddSign, Node)], first: Boxed<Node>) -> Result<Node, OutOfMemory>
    ensures { IfOk result (λ copy. copy ≡ Node.Sum first others.now) }
{
    Ok(Node::Sum(first, terms(alloc, others)?))
}

#[cycle(copies)]
fn cmp(alloc: Global, right: &Node, left: Boxed<Node>, sign: CmpSign) -> Result<Node, OutOfMemory>
    ensures { IfOk result (λ copy. copy ≡ Node.Cmp left sign right.now) }
{
    Ok(Node::Cmp(left, sign, boxed(alloc, right)?))
}

#[cycle(copies)]
fn not(alloc: Global, words: usize, operand: &Node) -> Result<Node, OutOfMemory>
    ensures { IfOk result (λ copy. copy ≡ Node.Not words operand.now) }
{
    Ok(Node::Not(words, boxed(alloc, operand)?))
}

#[cycle(copies)]
fn and(alloc: Global, others: &[Node], first: Boxed<Node>) -> Result<Node, OutOfMemory>
    ensures { IfOk result (λ copy. copy ≡ Node.And first others.now) }
{
    Ok(Node::And(first, nodes(alloc, others)?))
}

#[cycle(copies)]
fn or(alloc: Global, others: &[Node], first: Boxed<Node>) -> Result<Node, OutOfMemory>
    ensures { IfOk result (λ copy. copy ≡ Node.Or first others.now) }
{
    Ok(Node::Or(first, nodes(alloc, others)?))
}

#[cycle(copies)]
fn part(alloc: Global, part: &Part) -> Result<Part, OutOfMemory>
    ensures { IfOk result (λ copy. copy ≡ part.now) }
{
    match part {
        Part::Field(name) => Ok(Part::Field(copied(alloc, name)?)),
        Part::Method(name, arguments) => method(alloc, name, arguments.as_slice()),
        Part::Attached(name) => Ok(Part::Attached(copied(alloc, name)?)),
        Part::Before(name) => Ok(Part::Before(copied(alloc, name)?)),
    }
}

#[cycle(copies)]
fn method(alloc: Global, name: &Txt, arguments: &[Node]) -> Result<Part, OutOfMemory>
    ensures { IfOk result (λ copy. copy ≡ Part.Method name.now arguments.now) }
{
    let name = copied(alloc, name)?;
    Ok(Part::Method(name, nodes(alloc, arguments)?))
}

#[cycle(copies)]
fn nodes(alloc: Global, nodes: &[Node]) -> Result<List<Node>, OutOfMemory>
    ensures { IfOk result (λ copies. copies ≡ nodes.now) }
{
    let mut copies = List::new(alloc);
    for tree in nodes {
        let copy = node(alloc, tree)?;
        copies.push(copy)?;
    }
    Ok(copies)
}

#[cycle(copies)]
fn parts(alloc: Global, parts: &[Part]) -> Result<List<Part>, OutOfMemory>
    ensures { IfOk result (λ copies. copies ≡ parts.now) }
{
    let mut copies = List::new(alloc);
    for behind in parts {
        let copy = part(alloc, behind)?;
        copies.push(copy)?;
    }
    Ok(copies)
}

#[cycle(copies)]
fn factors(alloc: Global, factors: &[(MulSign, Node)]) -> Result<List<(MulSign, Node)>, OutOfMemory>
    ensures { IfOk result (λ copies. copies ≡ factors.now) }
{
    let mut copies = List::new(alloc);
    for factor in factors {
        let operand = node(alloc, &factor.1)?;
        copies.push((factor.0, operand))?;
    }
    Ok(copies)
}

#[cycle(copies)]
fn terms(alloc: Global, terms: &[(AddSign, Node)]) -> Result<List<(AddSign, Node)>, OutOfMemory>
    ensures { IfOk result (λ copies. copies ≡ terms.now) }
{
    let mut copies = List::new(alloc);
    for term in terms {
        let operand = node(alloc, &term.1)?;
        copies.push((term.0, operand))?;
    }
    Ok(copies)
}
