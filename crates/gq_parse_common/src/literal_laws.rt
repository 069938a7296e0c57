// Laws of what is read.
ghost use Rattle.gq_grammar.specs.Literals.{LiteralOf, Names, OfGraph};
ghost use Rattle.gq_parse_common.specs.Exact.{IsExact};
ghost use Rattle.gq_parse_common.specs.Literals.{literal_parser, names_parser, of_graph_parser};

/// Does nothing. Its contract is a law: what `literal`, `names` and `of_graph` find is the longest prefix that the grammar derives,
/// and they find nothing only if it derives none.
pub fn literals_are_exact()
    ensures literal { IsExact LiteralOf literal_parser }
    ensures names { IsExact Names names_parser }
    ensures of_graph { IsExact OfGraph of_graph_parser }
{}
