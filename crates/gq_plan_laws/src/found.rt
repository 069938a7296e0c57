// The references found for the names of a query, and the law that they denote what the names denote.
ghost use Rattle.gq_plan_laws.specs.FoundLaws.{FoundLaw};

/// The references found for names denote what the names denote: fields, functions, tuple types and types of the graph.
pub fn what_is_found_is_what_names_are()
    ensures { FoundLaw }
{}
