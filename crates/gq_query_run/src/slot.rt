// Accumulators by number.
ghost use Rattle.std.specs.Prelude.{◌≡◌, map};
ghost use Rattle.gq_tree.specs.declared.kind.AccumTree.{AccumTree as DeclaredAccum};
ghost use Rattle.gq_rules_typing.specs.StatementViews.{view_definition};
ghost use Rattle.gq_rules_meaning.specs.Messages.{accum_names, name_at, slot_names};

use gq_tree::{AccumTree, DefinitionTree};

/// Returns the name of the accumulator with a number, in order of declaration, or the empty text.
pub(crate) fn slot_name(definitions: &[DefinitionTree], slot: usize) -> &str
    ensures { result.now ≡ name_at (slot_names (map view_definition definitions.now)) slot }
{
    let mut left = slot;
    for definition in definitions {
        let accums = accums_of(definition);
        if left < accums.len() {
            return accums[left].name.as_str();
        }
        left -= accums.len();
    }
    ""
}

// Returns the accumulators of a declaration; a tuple type has none.
fn accums_of(definition: &DefinitionTree) -> &[AccumTree]
    ensures { map (λ (a : DeclaredAccum). a.name) result.now ≡ accum_names (view_definition definition.now) }
{
    match definition {
        DefinitionTree::Accums(_, accums) => accums.as_slice(),
        DefinitionTree::Tuple(_, _) => &[],
    }
}
