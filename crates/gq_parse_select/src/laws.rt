// Laws of what is read.
ghost use Rattle.gq_grammar.specs.Acts.{ChangeOf, Acts};
ghost use Rattle.gq_grammar.specs.Selects.{SelectOf};
ghost use Rattle.gq_parse_common.specs.Exact.{IsExact};
ghost use Rattle.gq_parse_select.specs.Acts.{change_parser, acts_parser};
ghost use Rattle.gq_parse_select.specs.Selects.{select_parser};

/// Does nothing. Its contract is a law: what the functions of this crate find is the longest prefix that the grammar derives, and
/// they find nothing only if it derives none.
pub fn blocks_are_exact()
    ensures change { IsExact ChangeOf change_parser }
    ensures acts { IsExact Acts acts_parser }
    ensures select { IsExact SelectOf select_parser }
{}
