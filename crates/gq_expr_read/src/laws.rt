// Laws of the grammar of expressions.
ghost use Rattle.gq_grammar.specs.Lexemes.{Lexemes};
ghost use Rattle.gq_grammar.specs.Reading.{HasOneTree};
ghost use Rattle.gq_tree.specs.declared.expr.Node.{Node};
ghost use Rattle.gq_grammar.specs.Expressions.{Derives, Expr};

/// Does nothing. Its contract is a law: a list of tokens is at most one expression.
pub fn one_tree()
    ensures { HasOneTree Derives }
{}

/// Does nothing. Its contract is a law: the bound on levels in the grammar can be dropped.
pub fn levels_drop_out()
    ensures out { (t : Node) (x : Lexemes) → Derives t x → Expr Derives t x }
    ensures back { (t : Node) (x : Lexemes) → Expr Derives t x → Derives t x }
{}
