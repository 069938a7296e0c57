//! The contents of accumulators, and the laws that let inputs be fed one by one and parts be merged.
//!
//! The content after a list of inputs is defined for each kind of accumulator. The laws say when inputs may
//! be fed in any order, and that merging the contents of two parts gives the content after all their inputs.
//!
//! Read `specs/Holds.antt` first (the type of a content), then `specs/After.antt` (the content after a list of
//! inputs), `specs/Fits.antt` (when it is in range) and `specs/Laws.antt`. `specs/Targets.antt` has the
//! contents of all accumulators of a query. Nothing here runs: each function in `src/lib.rt` states a law in
//! its contract.
#![tactic(auto)]

ghost use Rattle.gq_accum_laws.specs.Laws.{OrderLaw, CutLaw, MergeLaw, ProperLaw, FedLaw, TargetLaw, OneTypeLaw};

/// A content is the same for every order of its inputs, if no ListAccum is in it.
#[tactic(auto, using(crate::proofs::KindLaws::order_law))]
pub fn one_order()
    ensures { OrderLaw }
{}

/// A content is the same however its inputs are cut into parts that are merged.
#[tactic(auto, using(crate::proofs::ProperLaws::cut_law))]
pub fn one_cut()
    ensures { CutLaw }
{}

/// Contents merge in either order and any grouping; the opening changes nothing, and one input is merged as its own content.
#[tactic(auto, using(crate::proofs::ProperLaws::merge_law))]
pub fn one_merge()
    ensures { MergeLaw }
{}

/// Contents that inputs lead to keep their form: lists in order, openings at keys that aren't held.
#[tactic(auto, using(crate::proofs::ProperLaws::proper_law))]
pub fn one_form()
    ensures { ProperLaw }
{}

/// The size of a content is bounded by its inputs.
#[tactic(auto, using(crate::proofs::FedLaws::fed_law))]
pub fn one_reach()
    ensures { FedLaw }
{}

/// The number of a target is its place among all targets.
#[tactic(auto, using(crate::proofs::TargetLaws::target_law))]
pub fn one_number()
    ensures { TargetLaw }
{}

/// Values of one type are ordered in contents as by GSQL's comparisons.
#[tactic(auto, using(crate::proofs::OneTypeLaws::one_type_law))]
pub fn one_comparison()
    ensures { OneTypeLaw }
{}
