// Whether a statement names an alias, also within its expressions. A name after a dot isn't that of an alias.
ghost use Rattle.std.specs.Prelude.{◌≡◌};
ghost use Rattle.std.specs.Str.{bytes_eq};
ghost use Rattle.std.specs.Option.{option_copied};
ghost use Rattle.gq_tree.specs.View.{view, views, view_part, view_parts, view_factors, view_terms};
ghost use Rattle.gq_rules_typing.specs.SelectViews.{view_input, view_change, view_act, view_acts};
ghost use Rattle.gq_rules_typing.specs.Patterns as patterns;
ghost use Rattle.gq_rules_typing.specs.Mentions as spec;
ghost use Rattle.gq_check_select.specs.Trees.{view_inputs};

use gq_tree::{ActTree, AddSign, ChangeTree, InputTree, MulSign, Node, Part};

/// Whether a name is the alias, if there is one.
fn is_alias(alias: Option<&str>, name: &str) -> bool
    ensures { result ≡ patterns.is_alias bytes_eq (option_copied alias.entry) name.now }
{
    match alias {
        None => false,
        Some(alias) => alias == name,
    }
}

// ---- expressions

#[cycle(mentions)]
#[tactic(auto, using(gq_tree::proofs::ViewLemmas::view_laws))]
fn in_node(node: &Node, alias: Option<&str>) -> bool
    ensures { result ≡ spec.in_tree (patterns.is_alias bytes_eq (option_copied alias.entry)) (view node.now) }
{
    match node {
        Node::Number(_) | Node::Text(_) | Node::Truth(_) | Node::Global(_) => false,
        Node::Name(name) => is_alias(alias, name.as_str()),
        Node::Call(_, nodes) => in_nodes(nodes.as_slice(), alias),
        Node::Post(first, parts) => {
            in_node(first.get(), alias) || in_parts(parts.as_slice(), alias)
        }
        Node::Neg(_, operand) | Node::Not(_, operand) => in_node(operand.get(), alias),
        Node::Mul(first, factors) => {
            in_node(first.get(), alias) || in_factors(factors.as_slice(), alias)
        }
        Node::Sum(first, terms) => in_node(first.get(), alias) || in_terms(terms.as_slice(), alias),
        Node::Cmp(left, _, right) => in_node(left.get(), alias) || in_node(right.get(), alias),
        Node::And(first, others) | Node::Or(first, others) => {
            in_node(first.get(), alias) || in_nodes(others.as_slice(), alias)
        }
    }
}

#[cycle(mentions)]
fn in_nodes(nodes: &[Node], alias: Option<&str>) -> bool
    ensures { result ≡ spec.in_trees (patterns.is_alias bytes_eq (option_copied alias.entry)) (views nodes.now) }
{
    for node in nodes {
        if in_node(node, alias) {
            return true;
        }
    }
    false
}

#[cycle(mentions)]
fn in_parts(parts: &[Part], alias: Option<&str>) -> bool
    ensures { result ≡ spec.in_parts (patterns.is_alias bytes_eq (option_copied alias.entry)) (view_parts parts.now) }
{
    for part in parts {
        if in_part(part, alias) {
            return true;
        }
    }
    false
}

#[cycle(mentions)]
#[tactic(auto, using(gq_tree::proofs::ViewLemmas::view_laws))]
fn in_part(part: &Part, alias: Option<&str>) -> bool
    ensures { result ≡ spec.in_part (patterns.is_alias bytes_eq (option_copied alias.entry)) (view_part part.now) }
{
    match part {
        Part::Method(_, nodes) => in_nodes(nodes.as_slice(), alias),
        Part::Field(_) | Part::Attached(_) | Part::Before(_) => false,
    }
}

#[cycle(mentions)]
fn in_factors(factors: &[(MulSign, Node)], alias: Option<&str>) -> bool
    ensures { result ≡ spec.in_factors (patterns.is_alias bytes_eq (option_copied alias.entry)) (view_factors factors.now) }
{
    for factor in factors {
        if in_node(&factor.1, alias) {
            return true;
        }
    }
    false
}

#[cycle(mentions)]
fn in_terms(terms: &[(AddSign, Node)], alias: Option<&str>) -> bool
    ensures { result ≡ spec.in_terms (patterns.is_alias bytes_eq (option_copied alias.entry)) (view_terms terms.now) }
{
    for term in terms {
        if in_node(&term.1, alias) {
            return true;
        }
    }
    false
}

// ---- inputs and changes

#[cycle(input_mentions)]
#[tactic(auto, using(crate::proofs::TreeLemmas::input_laws))]
fn in_input(tree: &InputTree, alias: Option<&str>) -> bool
    ensures { result ≡ spec.in_input (patterns.is_alias bytes_eq (option_copied alias.entry)) (view_input tree.now) }
{
    match tree {
        InputTree::One(node) => in_node(node, alias),
        InputTree::Keyed(keys, inputs) => {
            in_nodes(keys.as_slice(), alias) || in_inputs(inputs.as_slice(), alias)
        }
    }
}

#[cycle(input_mentions)]
fn in_inputs(inputs: &[InputTree], alias: Option<&str>) -> bool
    ensures { result ≡ spec.in_inputs (patterns.is_alias bytes_eq (option_copied alias.entry)) (view_inputs inputs.now) }
{
    for input in inputs {
        if in_input(input, alias) {
            return true;
        }
    }
    false
}

fn in_change(change: &ChangeTree, alias: Option<&str>) -> bool
    ensures { result ≡ spec.in_change (patterns.is_alias bytes_eq (option_copied alias.entry)) (view_change change.now) }
{
    match change {
        ChangeTree::Feed(tree) => in_input(tree, alias),
        ChangeTree::Set(node) => in_node(node, alias),
    }
}

// ---- statements

/// Whether a statement of POST-ACCUM, or one that is nested in it, names the alias, if there is one.
pub(crate) fn in_act(act: &ActTree, alias: Option<&str>) -> bool
    ensures { result ≡ spec.in_act (patterns.is_alias bytes_eq (option_copied alias.entry)) (view_act act.now) }
{
    in_any_act(act, alias)
}

#[cycle(act_mentions)]
#[tactic(auto, using(crate::proofs::TreeLemmas::act_laws))]
fn in_any_act(act: &ActTree, alias: Option<&str>) -> bool
    ensures { result ≡ spec.in_act (patterns.is_alias bytes_eq (option_copied alias.entry)) (view_act act.now) }
{
    match act {
        ActTree::Attached(name, _, change) => is_alias(alias, name.as_str())
            || in_change(change, alias),
        ActTree::Global(_, change) => in_change(change, alias),
        ActTree::If(branches, others) => {
            for branch in branches.as_slice() {
                if in_node(&branch.0, alias) || in_acts(branch.1.as_slice(), alias) {
                    return true;
                }
            }
            match others {
                None => false,
                Some(acts) => in_acts(acts.as_slice(), alias),
            }
        }
    }
}

#[cycle(act_mentions)]
fn in_acts(acts: &[ActTree], alias: Option<&str>) -> bool
    ensures { result ≡ spec.in_acts (patterns.is_alias bytes_eq (option_copied alias.entry)) (view_acts acts.now) }
{
    for act in acts {
        if in_any_act(act, alias) {
            return true;
        }
    }
    false
}
