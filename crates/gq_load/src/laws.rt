// Laws about stores while upserts are put and their catalog grows.
ghost use Rattle.std.specs.Prelude.{◌≡◌, List, [], Some, None};
ghost use Rattle.gq_graph.specs.Catalog.{Schema};
ghost use Rattle.gq_index.specs.declared.store.Store.{Store};
ghost use Rattle.gq_load_check.specs.Fits.{HasGrown};
ghost use Rattle.gq_index.specs.Rows.{HaveAttributes, HaveEnds};
ghost use Rattle.gq_index.specs.Steps.{Step, Done, Refused, Begun};
ghost use Rattle.gq_load.specs.Puts.{put_all};
ghost use Rattle.gq_load.specs.Keeping.{StoreFits, UpsertsFit, no_rows};

/// The function of upserts gives the store after upserts that all succeeded, and None if one was refused.
pub fn upserts_are_decided()
    ensures taken { (before later : Store) (steps : List Step) → Done before steps later → put_all before steps ≡ Some later }
    ensures refused { (before later : Store) (steps : List Step) → Refused before steps later → put_all before steps ≡ None }
{}

/// A store without rows fits every catalog; upserts of a catalog's types that put each edge after its ends keep a store
/// within the catalog; and a store that fits a catalog fits every extension of it.
pub fn stores_stay_fit()
    ensures empty { (schema : Schema) → StoreFits schema no_rows }
    ensures by_upserts { (schema : Schema) (before later : Store) (steps : List Step) → UpsertsFit schema steps → Begun before steps later
        → StoreFits schema before → StoreFits schema later }
    ensures by_growth { (before after : Schema) (store : Store) → HasGrown before after → StoreFits before store → StoreFits after store }
{}

/// In a store of a catalog each vertex has a value for each attribute of its type and an id in stored form, and the ends of
/// each edge are vertices.
pub fn rows_are_whole()
    ensures attributes { (schema : Schema) (store : Store) → StoreFits schema store → HaveAttributes schema store.vertices }
    ensures ends { (schema : Schema) (store : Store) → StoreFits schema store → HaveEnds store.vertices store.edges.rows }
{}
