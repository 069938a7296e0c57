// Laws about words.
ghost use Rattle.std.specs.Prelude.{◌≡◌, ◌↔◌, ℕ, List, ◌∷◌, All, Any, Contains};
ghost use Rattle.gq_words.specs.declared.fold.Op.{Op};
ghost use Rattle.gq_words.specs.Fold.{Feed, inputs_to, folded, IsGreatest, IsLeast, HasBit};

/// Does nothing. Its contract is a law: the value of a word depends only on which feeds there are, not on their
/// order or on how often each of them occurs.
pub fn one_fold()
    ensures { (op : Op) (opening i : ℕ) (fs gs : List Feed) → ((f : Feed) → Contains fs f ↔ Contains gs f) → folded op opening i fs ≡ folded op opening i gs }
{}

/// Does nothing. Its contract is a law: a word is the maximum, minimum, or, or and of its initial value and all its
/// inputs.
pub fn four_folds()
    ensures max { (opening i : ℕ) (fs : List Feed) → IsGreatest (folded Op.Max opening i fs) (opening ∷ inputs_to i fs) }
    ensures min { (opening i : ℕ) (fs : List Feed) → IsLeast (folded Op.Min opening i fs) (opening ∷ inputs_to i fs) }
    ensures or { (opening i k : ℕ) (fs : List Feed) → HasBit k (folded Op.Or opening i fs) ↔ Any (HasBit k) (opening ∷ inputs_to i fs) }
    ensures and { (opening i k : ℕ) (fs : List Feed) → HasBit k (folded Op.And opening i fs) ↔ All (HasBit k) (opening ∷ inputs_to i fs) }
{}
