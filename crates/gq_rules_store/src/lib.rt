//! Well-typed stores: when a catalog is consistent, when the rows of a store have their types, and what
//! preserves that.
//!
//! A checked query relies on these properties. Declarations preserve the consistency of a catalog, and
//! upserts preserve the types of rows.
//!
//! Read `specs/Stores.antt` first, then `specs/Upserts.antt` and `specs/Catalogs.antt` (what is preserved)
//! `specs/Records.antt` (what LOAD and INSERT put)
//! and `specs/Values.antt` (arguments are values of their parameters' types). Nothing here runs: each
//! function in `src/lib.rt` states a law in its contract.
#![tactic(auto)]

ghost use Rattle.gq_rules_store.specs.Stores.{StoreLaw, CalendarLaw};
ghost use Rattle.gq_rules_store.specs.Values.{OrderLaw, MemberLaw};
ghost use Rattle.gq_rules_store.specs.Upserts.{EmptyLaw, UpsertLaw, RowGrowthLaw};
ghost use Rattle.gq_rules_store.specs.Records.{RecordLaw, InsertLaw, PutLaw};
ghost use Rattle.gq_rules_store.specs.Catalogs.{NoTypesLaw, VertexTypeLaw, EdgeTypeLaw, GraphTypeLaw, SeesLaw};

/// Arguments of a script, in parentheses or as members of its file, are values of the parameters' types, if none of
/// them is bad.
#[tactic(auto, using(crate::proofs::ValueFits::order_law, crate::proofs::ValueFits::member_law))]
pub fn arguments_fit()
    ensures in_order { OrderLaw }
    ensures by_members { MemberLaw }
{}

/// The data that a query reads from a store whose rows are of their types are of the catalog's types.
pub fn stores_fit()
    ensures { StoreLaw }
{}

/// Rows stay of their types: there are none at first, upserts of rows of their types leave them so, and so does a catalog that
/// grows.
#[tactic(auto, using(crate::proofs::UpsertFits::empty_law, crate::proofs::UpsertFits::row_growth_law))]
pub fn rows_stay_fit()
    ensures empty { EmptyLaw }
    ensures by_upserts { UpsertLaw }
    ensures by_growth { RowGrowthLaw }
{}

/// What the records of a LOAD and an INSERT put are rows of their types, whatever the records and the values are. So the
/// rows of the store that they leave are of their types too.
pub fn puts_fit()
    ensures by_records { RecordLaw }
    ensures by_insert { InsertLaw }
    ensures stored { PutLaw }
{}

/// A catalog is whole at first, and each declaration that isn't refused leaves it so.
#[tactic(auto, using(crate::proofs::CatalogFits::no_types_law))]
pub fn catalogs_stay_whole()
    ensures empty { NoTypesLaw }
    ensures by_vertex_type { VertexTypeLaw }
    ensures by_edge_type { EdgeTypeLaw }
    ensures by_graph { GraphTypeLaw }
{}

/// The graphs of a whole catalog have only types of the catalog.
#[tactic(auto, using(crate::proofs::CatalogFits::sees_law))]
pub fn graphs_see_types()
    ensures { SeesLaw }
{}

/// The results of reading and adding in a calendar are times.
pub fn calendars_stay_in_range()
    ensures { CalendarLaw }
{}
