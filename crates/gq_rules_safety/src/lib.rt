//! Type safety: a typed expression, SELECT, statement or query is never stuck, and stays so while the catalog grows.
//!
//! A state matches a scope if each name of the scope has a value of its type, and the state has no other
//! names. Typed statements over such a state give one that matches the scope after them.
//!
//! A query is checked once, when it is created. Declarations only add to the catalog, so its graph and its
//! types stay the same, and what it relies on still holds when it runs.
//!
//! Read `specs/Matching.antt` first (when a state matches a scope), then `specs/Laws.antt`, `specs/Growing.antt`
//! (what is preserved of typing while the catalog grows) and `specs/Safety.antt` (what a checked query may rely
//! on). The laws are about the definitions of `gq_rules_typing` and `gq_rules_meaning`. Nothing here runs: each
//! function in `src/lib.rt` states a law in its contract.
#![tactic(auto)]

ghost use Rattle.gq_rules_typing.specs.Statements.{Bytes};
ghost use Rattle.gq_rules_safety.specs.Laws.{SelectLaw, StatementLaw, PlanLaw, QueryLaw};
ghost use Rattle.gq_rules_safety.specs.Growing.{GrowthLaw, GraphLaw};
ghost use Rattle.gq_rules_safety.specs.Safety.{SafetyLaw, GoesOnLaw};

/// A typed SELECT is never stuck, its accumulators fit, and it gives vertices of the types that typing gives, each once.
pub fn no_select_is_stuck()
    ensures { SelectLaw Bytes }
{}

/// Typed statements are never stuck, and the state that they give matches the scope after them.
#[tactic(auto, using(crate::proofs::SelectLaws::statement_law_by_name))]
pub fn no_statement_is_stuck()
    ensures { StatementLaw Bytes }
{}

/// A typed plan, which has its kinds already, is never stuck over arguments of its parameters' types.
#[tactic(auto, using(crate::proofs::KindLaws::plan_law_by_name))]
pub fn no_plan_is_stuck()
    ensures { PlanLaw Bytes }
{}

/// A typed query as written is never stuck over arguments of its parameters' types.
#[tactic(auto, using(crate::proofs::KindLaws::query_law))]
pub fn no_query_is_stuck()
    ensures { QueryLaw }
{}

/// A query that is typed over a catalog is typed over each catalog that has grown out of it, with the same names and types.
#[tactic(auto, using(crate::proofs::WordGrowth::growth_law))]
pub fn queries_stay_typed()
    ensures { GrowthLaw }
{}

/// An existing graph stays as it is, by its number.
#[tactic(auto, using(crate::proofs::SafetyLaws::graph_law))]
pub fn graphs_stay()
    ensures { GraphLaw }
{}

/// A typed query is never stuck, in any store of its catalog or of one that has grown out of it, over arguments of its parameters'
/// types.
#[tactic(auto, using(crate::proofs::SafetyLaws::safety_law))]
pub fn queries_stay_safe()
    ensures { SafetyLaw }
{}

/// A query that is safe in a catalog stays safe while the catalog grows.
pub fn safety_goes_on()
    ensures { GoesOnLaw }
{}
