// The items of PRINT, each under its own key.
ghost use Rattle.std.specs.Prelude.{◌≡◌, true, IfOk, map};
ghost use Rattle.std.specs.Option.{option_map, option_copied};
ghost use Rattle.gq_tree.specs.Tree.{Name};
ghost use Rattle.gq_tree.specs.View.{view};
ghost use Rattle.gq_rules_typing.specs.Statements.{Print};
ghost use Rattle.gq_rules_typing.specs.Scopes as typing;
ghost use Rattle.gq_rules_typing.specs.SetTypes as sets;
ghost use Rattle.gq_rules_typing.specs.StatementTypes as rules;
ghost use Rattle.gq_rules_typing.specs.StatementViews.{view_item, view_labelled};
ghost use Rattle.gq_scope.specs.Held.{entry_of, scope_in, names_in};
ghost use Rattle.gq_scope.specs.Views.{typed_is};
ghost use Rattle.gq_check_from.specs.Faults.{Judges};
ghost use Rattle.gq_check.specs.Rules as spec;

use crate::keys::PrintKeys;
use gq_check_from::CheckFault;
use gq_check_select::set_types;
use gq_scope::{Entry, Place, Scope, Typed, key_text};
use gq_tree::{ItemTree, Label, Node};
use gq_type::{printable, type_of};
use gq_value::Txt;
use std::alloc::Global;

/// Checks all items of a PRINT. Leaves the scope unchanged.
pub(crate) fn printed<'q>(
    alloc: Global,
    scope: &mut Scope<'q>,
    items: &'q [ItemTree],
) -> Result<(), CheckFault>
    requires { scope.old.place ≡ typing.InStatement }
    ensures judged { Judges (λ _. scope_in scope.old) (rules.typing_stmt (scope_in scope.old) (Print (map view_item items.now))) result }
    ensures same { IfOk result (λ _. scope.new ≡ scope.old) }
{
    let mut keys = PrintKeys::new(alloc);
    for item in items {
        one_item(alloc, scope, &mut keys, item)?;
    }
    Ok(())
}

fn one_item<'q>(
    alloc: Global,
    scope: &mut Scope<'q>,
    keys: &mut PrintKeys<'q>,
    item: &'q ItemTree,
) -> Result<(), CheckFault>
    requires { scope.old.place ≡ typing.InStatement }
    ensures judged { Judges (λ _. keys.new) (rules.typing_printed (scope_in scope.old) keys.old (view_item item.now)) result }
    ensures same { IfOk result (λ _. scope.new ≡ scope.old) }
{
    match item {
        ItemTree::Value(node, label) => {
            whole(alloc, scope, node)?;
            keys.give(alloc, key_text(label)?)
        }
        ItemTree::Columns(set, columns, name) => {
            selection(alloc, scope, set.as_str(), columns.as_slice())?;
            keys.give(alloc, selection_key(set, name))
        }
    }
}

/// The key of a selection: without AS, its set's name.
fn selection_key<'q>(set: &'q Txt, name: &'q Option<Txt>) -> &'q str
    ensures { result.now ≡ spec.selection_key set.now name.now }
{
    match name {
        None => set.as_str(),
        Some(name) => name.as_str(),
    }
}

/// The type of a whole item, which may be just a set's name.
#[tactic(auto, using(gq_tree::proofs::ViewLemmas::view_laws, crate::proofs::PlaceLemmas::here_laws))]
fn whole<'s>(alloc: Global, scope: &'s Scope<'_>, node: &Node) -> Result<Typed<'s>, CheckFault>
    requires { scope.now.place ≡ typing.InStatement }
    ensures { Judges typed_is (rules.typing_whole (scope_in scope.now) (view node.now)) result }
{
    match node {
        Node::Name(name) => whole_name(alloc, scope, node, name.as_str()),
        Node::Number(_) | Node::Text(_) | Node::Truth(_) | Node::Global(_) => {
            whole_value(alloc, scope, node)
        }
        Node::Call(_, _) | Node::Post(_, _) | Node::Neg(_, _) | Node::Mul(_, _) => {
            whole_value(alloc, scope, node)
        }
        Node::Sum(_, _) | Node::Cmp(_, _, _) | Node::Not(_, _) => whole_value(alloc, scope, node),
        Node::And(_, _) | Node::Or(_, _) => whole_value(alloc, scope, node),
    }
}

#[tactic(auto, using(crate::proofs::PlaceLemmas::here_laws))]
fn whole_name<'s>(
    alloc: Global,
    scope: &'s Scope<'_>,
    node: &Node,
    name: &str,
) -> Result<Typed<'s>, CheckFault>
    requires place { scope.now.place ≡ typing.InStatement }
    requires named { view node.now ≡ Name name.now }
    ensures { Judges typed_is (spec.whole_name (scope_in scope.now) name.now) result }
{
    if is_set(scope.find(name)) {
        return Ok(Typed::SetOf(&[]));
    }
    let x = type_of(alloc, scope, node)?;
    Ok(x)
}

fn is_set(found: Option<&Entry>) -> bool
    ensures { result ≡ sets.is_set (option_map entry_of (option_copied found.entry)) }
{
    match found {
        None => false,
        Some(entry) => match entry {
            Entry::SetVariable(_) => true,
            Entry::Variable(_) | Entry::Alias(_) | Entry::EdgeAlias(_) => false,
            Entry::Accumulator(_, _) | Entry::TupleType(_) => false,
        },
    }
}

/// The type of a printed expression, which can't be the row of a group.
fn whole_value<'s>(
    alloc: Global,
    scope: &'s Scope<'_>,
    node: &Node,
) -> Result<Typed<'s>, CheckFault>
    ensures { Judges typed_is (spec.whole_value (names_in scope.now) (view node.now)) result }
{
    let x = type_of(alloc, scope, node)?;
    let printed = printable(x)?;
    Ok(printed)
}

// ---- selections

/// Checks `S[..]`, whose columns are typed for each vertex of the set. Returns their keys.
#[tactic(auto, using(gq_check_decls::proofs::HeadLemmas::place_laws))]
fn selection<'q>(
    alloc: Global,
    scope: &mut Scope<'q>,
    set: &'q str,
    columns: &'q [(Node, Label)],
) -> Result<PrintKeys<'q>, CheckFault>
    requires { scope.old.place ≡ typing.InStatement }
    ensures judged { Judges (λ keys. keys) (spec.selection (scope_in scope.old) set.now (map view_labelled columns.now)) result }
    ensures same { IfOk result (λ _. scope.new ≡ scope.old) }
{
    set_types(alloc, scope, set)?;
    scope.put_at(Place::Selection(set));
    let keys = all_columns(alloc, scope, columns)?;
    scope.put_at(Place::Statement);
    Ok(keys)
}

fn all_columns<'k>(
    alloc: Global,
    scope: &Scope<'_>,
    columns: &'k [(Node, Label)],
) -> Result<PrintKeys<'k>, CheckFault>
    ensures { Judges (λ keys. keys) (spec.columns (names_in scope.now) (map view_labelled columns.now)) result }
{
    let mut keys = PrintKeys::new(alloc);
    for column in columns {
        one_column(alloc, scope, &mut keys, column)?;
    }
    Ok(keys)
}

fn one_column<'k>(
    alloc: Global,
    scope: &Scope<'_>,
    keys: &mut PrintKeys<'k>,
    column: &'k (Node, Label),
) -> Result<(), CheckFault>
    ensures { Judges (λ _. keys.new) (rules.typing_item (names_in scope.now) keys.old (view_labelled column.now)) result }
{
    whole_value(alloc, scope, &column.0)?;
    keys.give(alloc, key_text(&column.1)?)
}
