// What no contract states, and the program doesn't reach: that a tree is copied if there is memory.
use gq_base::{Boxed, List};
use gq_tree::{CmpSign, Node, Part};
use gq_value::Txt;
use std::alloc::Global;
use std::test::Fail;

fn name(alloc: Global, text: &str) -> Result<Node, Fail> {
    Ok(Node::Name(Txt::of(alloc, text)?))
}

// `NOT a.f(1) == -b`, built by hand.
fn sample(alloc: Global) -> Result<Node, Fail> {
    let mut arguments = List::new(alloc);
    arguments.push(Node::Number(1))?;
    let mut parts = List::new(alloc);
    parts.push(Part::Method(Txt::of(alloc, "f")?, arguments))?;
    let left = Node::Post(Boxed::new(alloc, name(alloc, "a")?)?, parts);
    let right = Node::Neg(1, Boxed::new(alloc, name(alloc, "b")?)?);
    let left = Boxed::new(alloc, left)?;
    let same = Node::Cmp(left, CmpSign::Equal, Boxed::new(alloc, right)?);
    Ok(Node::Not(1, Boxed::new(alloc, same)?))
}

fn operand(tree: &Node) -> &Node {
    match tree {
        Node::Not(_, operand) => operand.get(),
        Node::Neg(_, operand) => operand.get(),
        Node::Cmp(_, _, right) => right.get(),
        _ => tree,
    }
}

#[test]
fn a_tree_is_copied_whole(rt: HostRuntime) -> Result<(), Fail> {
    let tree = sample(rt.alloc())?;
    let copy = tree.duplicate(rt.alloc())?;
    let same = operand(&copy);
    assert!(rt; matches!(same, Node::Cmp(_, CmpSign::Equal, _)));
    assert!(rt; matches!(operand(operand(same)), Node::Name(name) if name.as_str() == "b"));
    assert!(rt; matches!(operand(&tree), Node::Cmp(_, _, _)));
    Ok(())
}
