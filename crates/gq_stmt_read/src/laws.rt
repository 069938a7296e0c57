// Laws of scripts and of what is read.
ghost use Rattle.std.specs.Prelude.{◌≡◌, ℕ, List};
ghost use Rattle.gq_token.specs.declared.token.Token.{Token};
ghost use Rattle.gq_tree.specs.declared.statement.Placed.{Placed};
ghost use Rattle.gq_grammar.specs.Scripts.{StatementOf};
ghost use Rattle.gq_grammar.specs.Cutting.{IsScript, FailsAt};
ghost use Rattle.gq_grammar.specs.Reading.{HasOneTree};
ghost use Rattle.gq_parse_common.specs.Exact.{IsExact};
ghost use Rattle.gq_stmt_read.specs.Statements.{statement_parser};

/// Does nothing. Its contract is a law: what `statement` finds is the longest prefix that the grammar derives, and it finds nothing
/// only if it derives none. A list of lexemes spells at most one statement.
pub fn statements_are_exact()
    ensures exact { IsExact StatementOf statement_parser }
    ensures one_tree { HasOneTree StatementOf }
{}

/// Does nothing. Its contract is a law: a script consists of at most one list of statements; one that fails at a
/// statement fails at no other statement and at no other place, and isn't a script.
pub fn one_script()
    ensures one { (bytes : List ℕ) (tokens : List Token) (statements others : List Placed) → IsScript bytes tokens statements → IsScript bytes tokens others → statements ≡ others }
    ensures one_fault { (bytes : List ℕ) (tokens : List Token) (number at other place : ℕ) → FailsAt bytes tokens number at → FailsAt bytes tokens other place → (number ≡ other) × (at ≡ place) }
    ensures apart { (bytes : List ℕ) (tokens : List Token) (statements : List Placed) (number at : ℕ) → IsScript bytes tokens statements → FailsAt bytes tokens number at → ⊥ }
{}
