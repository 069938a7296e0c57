// Laws of what is read.
ghost use Rattle.std.specs.Prelude.{ℕ};
ghost use Rattle.gq_grammar.specs.Kinds.{BaseOf, Kind, Value, DefinitionOf};
ghost use Rattle.gq_parse_common.specs.Exact.{IsExact};
ghost use Rattle.gq_parse_common.specs.Kinds.{base_parser, kind_parser, value_parser, definition_parser};

/// Does nothing. Its contract is a law: what the functions of this crate find is the longest prefix that the grammar
/// derives, and they find nothing only if it derives none. Kinds are those with a bounded number of levels.
pub fn kinds_are_exact()
    ensures base { IsExact BaseOf base_parser }
    ensures kind { (levels : ℕ) → IsExact (Kind levels) (kind_parser levels) }
    ensures value { IsExact Value value_parser }
    ensures definition { IsExact DefinitionOf definition_parser }
{}
