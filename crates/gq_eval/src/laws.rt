// Laws of well typed expressions. Nothing here runs.
ghost use Rattle.std.specs.Prelude.{◌≡◌};
ghost use Rattle.gq_value.specs.Accums.{Accum};
ghost use Rattle.gq_tree.specs.Tree.{Tree};
ghost use Rattle.gq_plan_ir.specs.Reference.{Reference};
ghost use Rattle.gq_rules_meaning.specs.Answers.{Stuck};
ghost use Rattle.gq_rules_meaning.specs.Expressions.{Look, meaning, value_of};
ghost use Rattle.gq_rules_typing.specs.Judging.{Whole};
ghost use Rattle.gq_eval.specs.Typed.{IsTyped, IsOfValues};

/// Does nothing. Its contract is a law: an expression of a base type or an average has a value, or a fault.
pub fn no_typed_value_is_stuck()
    ensures { (look : Look Reference) (t : Tree Reference) (known : IsTyped look t) → IsOfValues known.type → value_of look t ≡ Stuck → ⊥ }
{}

/// Does nothing. Its contract is a law: an expression of the type of a whole collection is one, or has a fault.
pub fn no_typed_collection_is_stuck()
    ensures { (look : Look Reference) (t : Tree Reference) (k : Accum) (known : IsTyped look t) → known.type ≡ Whole k → meaning look t ≡ Stuck → ⊥ }
{}
