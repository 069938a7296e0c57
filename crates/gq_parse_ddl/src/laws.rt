// Laws of what is read.
ghost use Rattle.gq_grammar.specs.Jobs.{JobOf, RunJobOf};
ghost use Rattle.gq_grammar.specs.Schema.{VertexOf, EdgeOf, GraphOf, InsertOf};
ghost use Rattle.gq_parse_common.specs.Exact.{IsExact};
ghost use Rattle.gq_parse_ddl.specs.Jobs.{job_parser, run_job_parser};
ghost use Rattle.gq_parse_ddl.specs.Schema.{vertex_parser, edge_parser, graph_parser, insert_parser};

/// Does nothing. Its contract is a law: what the functions of this crate find is the longest prefix that the grammar derives, and
/// they find nothing only if it derives none.
pub fn declarations_are_exact()
    ensures vertex { IsExact VertexOf vertex_parser }
    ensures edge { IsExact EdgeOf edge_parser }
    ensures graph { IsExact GraphOf graph_parser }
    ensures insert { IsExact InsertOf insert_parser }
    ensures job { IsExact JobOf job_parser }
    ensures run_job { IsExact RunJobOf run_job_parser }
{}
