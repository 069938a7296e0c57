// Laws of what is read.
ghost use Rattle.gq_grammar.specs.Bodies.{StmtOf, BodyOf};
ghost use Rattle.gq_parse_common.specs.Exact.{IsExact};
ghost use Rattle.gq_parse_select.specs.Bodies.{statement_parser, body_parser};

/// Does nothing. Its contract is a law: what `statement` and `body` find is the longest prefix that the grammar derives, and they
/// find nothing only if it derives none.
pub fn bodies_are_exact()
    ensures statement { IsExact StmtOf statement_parser }
    ensures body { IsExact BodyOf body_parser }
{}
