// What is true of every script.
ghost use Rattle.std.specs.Prelude.{◌≡◌, ℕ, List};
ghost use Rattle.gq_token.specs.declared.token.Token.{Token};
ghost use Rattle.gq_token.specs.declared.fault.LexFault.{LexFault};
ghost use Rattle.gq_token.specs.Cut.{HasTokens};
ghost use Rattle.gq_token.specs.Faults.{HasFault};

/// Does nothing. Its contract is a law: a script has at most one list of tokens or one fault, and never both.
pub fn one_fault()
    ensures one { (bytes : List ℕ) (e f : LexFault) → HasFault bytes e → HasFault bytes f → e ≡ f }
    ensures apart { (bytes : List ℕ) (e : LexFault) (tokens : List Token) → HasFault bytes e → HasTokens bytes tokens → ⊥ }
    ensures one_cut { (bytes : List ℕ) (a b : List Token) → HasTokens bytes a → HasTokens bytes b → a ≡ b }
{}
