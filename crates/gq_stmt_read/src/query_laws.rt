// Laws of what is read.
ghost use Rattle.gq_grammar.specs.Queries.{CreatedQuery, InterpretOf, InstallOf, RunOf};
ghost use Rattle.gq_parse_common.specs.Exact.{IsExact};
ghost use Rattle.gq_stmt_read.specs.Queries.{created_query_parser, interpret_parser, install_parser, run_parser};

/// Does nothing. Its contract is a law: what the functions of this crate find is the longest prefix that the grammar derives, and
/// they find nothing only if it derives none.
pub fn queries_are_exact()
    ensures created { IsExact CreatedQuery created_query_parser }
    ensures interpret { IsExact InterpretOf interpret_parser }
    ensures install { IsExact InstallOf install_parser }
    ensures run { IsExact RunOf run_parser }
{}
