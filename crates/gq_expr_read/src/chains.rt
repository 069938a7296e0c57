// The tree that each production builds from its parts. A chain of one item is that item.
ghost use Rattle.std.specs.Prelude.{◌≡◌, IfOk};
ghost use Rattle.gq_grammar.specs.Shapes as shapes;

use gq_base::{Boxed, List, OutOfMemory};
use gq_tree::{AddSign, CmpSign, MulSign, Node, Part};
use gq_value::Txt;
use std::alloc::Global;

pub fn named(name: Txt, arguments: Option<List<Node>>) -> Node
    ensures { result ≡ shapes.named_at name arguments }
{
    match arguments {
        None => Node::Name(name),
        Some(arguments) => Node::Call(name, arguments),
    }
}

pub fn part(name: Txt, arguments: Option<List<Node>>) -> Part
    ensures { result ≡ shapes.part_at name arguments }
{
    match arguments {
        None => Part::Field(name),
        Some(arguments) => Part::Method(name, arguments),
    }
}

#[tactic(auto, using(crate::proofs::ChainLemmas::chains))]
pub fn post(alloc: Global, first: Node, parts: List<Part>) -> Result<Node, OutOfMemory>
    ensures { IfOk result (λ tree. tree ≡ shapes.post_at first parts) }
{
    if parts.len() == 0 {
        Ok(first)
    } else {
        Ok(Node::Post(Boxed::new(alloc, first)?, parts))
    }
}

#[tactic(auto, using(crate::proofs::ChainLemmas::chains))]
pub fn neg(alloc: Global, signs: usize, operand: Node) -> Result<Node, OutOfMemory>
    ensures { IfOk result (λ tree. tree ≡ shapes.neg_at signs operand) }
{
    if signs == 0 {
        Ok(operand)
    } else {
        Ok(Node::Neg(signs, Boxed::new(alloc, operand)?))
    }
}

#[tactic(auto, using(crate::proofs::ChainLemmas::chains))]
pub fn mul(alloc: Global, first: Node, factors: List<(MulSign, Node)>) -> Result<Node, OutOfMemory>
    ensures { IfOk result (λ tree. tree ≡ shapes.mul_at first factors) }
{
    if factors.len() == 0 {
        Ok(first)
    } else {
        Ok(Node::Mul(Boxed::new(alloc, first)?, factors))
    }
}

#[tactic(auto, using(crate::proofs::ChainLemmas::chains))]
pub fn sum(alloc: Global, first: Node, terms: List<(AddSign, Node)>) -> Result<Node, OutOfMemory>
    ensures { IfOk result (λ tree. tree ≡ shapes.sum_at first terms) }
{
    if terms.len() == 0 {
        Ok(first)
    } else {
        Ok(Node::Sum(Boxed::new(alloc, first)?, terms))
    }
}

pub fn cmp(alloc: Global, left: Node, sign: CmpSign, right: Node) -> Result<Node, OutOfMemory>
    ensures { IfOk result (λ tree. tree ≡ Node.Cmp left sign right) }
{
    let left = Boxed::new(alloc, left)?;
    Ok(Node::Cmp(left, sign, Boxed::new(alloc, right)?))
}

#[tactic(auto, using(crate::proofs::ChainLemmas::chains))]
pub fn not(alloc: Global, words: usize, operand: Node) -> Result<Node, OutOfMemory>
    ensures { IfOk result (λ tree. tree ≡ shapes.not_at words operand) }
{
    if words == 0 {
        Ok(operand)
    } else {
        Ok(Node::Not(words, Boxed::new(alloc, operand)?))
    }
}

#[tactic(auto, using(crate::proofs::ChainLemmas::chains))]
pub fn and(alloc: Global, first: Node, others: List<Node>) -> Result<Node, OutOfMemory>
    ensures { IfOk result (λ tree. tree ≡ shapes.and_at first others) }
{
    if others.len() == 0 {
        Ok(first)
    } else {
        Ok(Node::And(Boxed::new(alloc, first)?, others))
    }
}

#[tactic(auto, using(crate::proofs::ChainLemmas::chains))]
pub fn or(alloc: Global, first: Node, others: List<Node>) -> Result<Node, OutOfMemory>
    ensures { IfOk result (λ tree. tree ≡ shapes.or_at first others) }
{
    if others.len() == 0 {
        Ok(first)
    } else {
        Ok(Node::Or(Boxed::new(alloc, first)?, others))
    }
}
