// What rules inspect of the form of a tree.
ghost use Rattle.std.specs.Prelude.{◌≡◌, IfOk};
ghost use Rattle.std.specs.List.{list_any};
ghost use Rattle.std.specs.Option.{option_copied};
ghost use Rattle.gq_tree.specs.View.{view};
ghost use Rattle.gq_rules_typing.specs.StatementViews.{is_v2, key_of};
ghost use Rattle.gq_scope.specs.Parts.{text_in, name_in};

use gq_base::OutOfMemory;
use gq_tree::{Label, Mode, Node};

/// The value of a text literal.
#[tactic(auto, using(gq_tree::proofs::ViewLemmas::view_laws))]
pub fn text_of(node: &Node) -> Option<&str>
    ensures { option_copied result ≡ text_in (view node.now) }
{
    match node {
        Node::Text(said) => Some(said.as_str()),
        Node::Number(_) | Node::Truth(_) | Node::Global(_) | Node::Name(_) => None,
        Node::Call(_, _) | Node::Post(_, _) | Node::Neg(_, _) | Node::Mul(_, _) => None,
        Node::Sum(_, _) | Node::Cmp(_, _, _) | Node::Not(_, _) => None,
        Node::And(_, _) | Node::Or(_, _) => None,
    }
}

/// The name, if the tree is a name alone.
#[tactic(auto, using(gq_tree::proofs::ViewLemmas::view_laws))]
pub fn name_of(node: &Node) -> Option<&str>
    ensures { option_copied result ≡ name_in (view node.now) }
{
    match node {
        Node::Name(name) => Some(name.as_str()),
        Node::Number(_) | Node::Truth(_) | Node::Global(_) | Node::Text(_) => None,
        Node::Call(_, _) | Node::Post(_, _) | Node::Neg(_, _) | Node::Mul(_, _) => None,
        Node::Sum(_, _) | Node::Cmp(_, _, _) | Node::Not(_, _) => None,
        Node::And(_, _) | Node::Or(_, _) => None,
    }
}

/// The key of a label. Also returns `OutOfMemory` if a spelling isn't UTF-8; tokens of a script always are.
pub fn key_text(label: &Label) -> Result<&str, OutOfMemory>
    ensures { IfOk result (λ key. key.now ≡ key_of label.now) }
{
    match label {
        Label::Named(name) => Ok(name.as_str()),
        Label::Spelled(spelling) => match std::str::from_utf8(spelling.as_slice()) {
            Ok(key) => Ok(key),
            Err(_) => Err(OutOfMemory),
        },
    }
}

/// Whether these modes select SYNTAX v2, in which patterns may be paths.
pub fn allows_paths(modes: &[Mode]) -> bool
    ensures { result ≡ list_any is_v2 modes.now }
{
    for mode in modes {
        if is_second(mode) {
            return true;
        }
    }
    false
}

fn is_second(mode: &Mode) -> bool
    ensures { result ≡ is_v2 mode.now }
{
    match mode {
        Mode::Api(_) => false,
        Mode::Syntax(name) => name.as_str().eq_ignore_ascii_case("v2"),
    }
}
