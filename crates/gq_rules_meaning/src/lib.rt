//! The semantics of GSQL: what expressions, SELECT blocks, statements, queries and scripts mean, and laws
//! about them.
//!
//! The definitions are functions over trees as plain data. A query prints something, ends with a fault, or is
//! stuck if a name denotes nothing or something of a wrong type; typed queries are never stuck.
//!
//! Read `specs/Answers.antt` and `specs/Expressions.antt` first, then `specs/States.antt`,
//! `specs/Sources.antt`, `specs/Blocks.antt`, `specs/Posts.antt` and `specs/Tails.antt` (SELECT),
//! `specs/Statements.antt`, `specs/Runs.antt` and `specs/Queries.antt`. `specs/Laws.antt` has the laws.
//! Nothing here runs: each function states a law in its contract.
#![tactic(auto)]

ghost use Rattle.gq_rules_typing.specs.Statements.{Bytes};
ghost use Rattle.gq_rules_meaning.specs.Laws.{ExpressionLaw, LookLaw, InputLaw, ContentLaw, ContributionLaw};
ghost use Rattle.gq_rules_meaning.specs.Built.{LineLaw};

/// A typed expression is never stuck, and its value has its type.
#[tactic(auto, using(crate::proofs::NeverStuck::expression_law_by_name))]
pub fn no_expression_is_stuck()
    ensures { ExpressionLaw Bytes }
{}

/// In a state that fits its scope, the names that may be used have values of their types.
pub fn a_fitting_state_is_seen_as_typed()
    ensures { LookLaw Bytes }
{}

/// A typed input is never stuck, and is one that its kind takes.
pub fn no_input_is_stuck()
    ensures { InputLaw Bytes }
{}

/// The contributions of a typed ACCUM are never stuck, and each input is one that its accumulator takes.
pub fn no_contribution_is_stuck()
    ensures { ContributionLaw Bytes }
{}

/// Contents keep to values of their types, for all inputs of their kind.
#[tactic(auto, using(crate::proofs::AfterLaws::content_law_by_name))]
pub fn contents_keep_their_types()
    ensures { ContentLaw Bytes }
{}

/// The line that a query prints is the one that gq_json writes.
#[tactic(auto, using(crate::proofs::LineLaws::line_law))]
pub fn one_line()
    ensures { LineLaw }
{}
