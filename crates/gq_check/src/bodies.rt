// Sequences of statements. The declarations of a body end with it.
ghost use Rattle.std.specs.Prelude.{◌≡◌, IfOk};
ghost use Rattle.gq_rules_typing.specs.Scopes as typing;
ghost use Rattle.gq_rules_typing.specs.StatementTypes as rules;
ghost use Rattle.gq_rules_typing.specs.StatementViews.{view_stmt, view_stmts};
ghost use Rattle.gq_scope.specs.Held.{scope_in};
ghost use Rattle.gq_check_from.specs.Faults.{Judges, Grows};

use crate::locals::{change_global, locals};
use crate::looping::{limited, loop_variable, tested};
use crate::printing::printed;
use gq_check_from::CheckFault;
use gq_check_select::assignment;
use gq_scope::Scope;
use gq_tree::Stmt;
use std::alloc::Global;

/// Checks statements in order; what they declare stays visible.
#[cycle(statements)]
#[tactic(auto, using(gq_rules_typing::proofs::ViewLaws::statement_laws, gq_check_from::proofs::GrowLemmas::grow_laws))]
pub(crate) fn statements<'q>(
    trees: &'q [Stmt],
    alloc: Global,
    scope: &mut Scope<'q>,
) -> Result<(), CheckFault>
    requires { scope.old.place ≡ typing.InStatement }
    ensures judged { Judges (λ _. scope_in scope.new) (rules.typing_stmts (scope_in scope.old) (view_stmts trees.now)) result }
    ensures grows { IfOk result (λ _. Grows scope.old scope.new) }
{
    for tree in trees {
        statement(tree, alloc, scope)?;
    }
    Ok(())
}

/// Checks a statement. Removes the declarations of each of its bodies at the body's end.
#[cycle(statements)]
#[tactic(auto, using(gq_rules_typing::proofs::ViewLaws::statement_laws, gq_check_from::proofs::GrowLemmas::grow_laws, crate::proofs::RuleLemmas::foreach_laws))]
fn statement<'q>(tree: &'q Stmt, alloc: Global, scope: &mut Scope<'q>) -> Result<(), CheckFault>
    requires { scope.old.place ≡ typing.InStatement }
    ensures judged { Judges (λ _. scope_in scope.new) (rules.typing_stmt (scope_in scope.old) (view_stmt tree.now)) result }
    ensures grows { IfOk result (λ _. Grows scope.old scope.new) }
{
    let before = scope.len();
    match tree {
        Stmt::Local(base, trees) => locals(alloc, scope, base, trees.as_slice()),
        Stmt::Assign(name, types, right) => {
            assignment(alloc, scope, name.as_str(), types.as_ref(), right)
        }
        Stmt::Global(name, change) => change_global(alloc, scope, name.as_str(), change),
        Stmt::If(branches, others) => {
            for branch in branches.as_slice() {
                tested(alloc, scope, &branch.0)?;
                statements(branch.1.as_slice(), alloc, scope)?;
                scope.cut(before);
            }
            match others {
                None => Ok(()),
                Some(body) => {
                    statements(body.as_slice(), alloc, scope)?;
                    scope.cut(before);
                    Ok(())
                }
            }
        }
        Stmt::While(test, limit, body) => {
            tested(alloc, scope, test)?;
            limited(alloc, scope, limit.as_ref())?;
            statements(body.as_slice(), alloc, scope)?;
            scope.cut(before);
            Ok(())
        }
        Stmt::Foreach(name, over, body) => {
            loop_variable(alloc, scope, name.as_str(), over)?;
            statements(body.as_slice(), alloc, scope)?;
            scope.cut(before);
            Ok(())
        }
        Stmt::Print(items) => printed(alloc, scope, items.as_slice()),
    }
}
