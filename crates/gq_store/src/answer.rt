// Answers of queries.
use gq_base::List;
use gq_json::Printed;
use gq_query_run::QueryFault;

/// The answer to a reader's query.
#[derive(Drop)]
pub struct Answer {
    /// How many of the published inserts, from the first one on, the store had.
    pub upto: u64,
    /// What the query prints over that store, or its fault.
    pub run: Result<List<Printed>, QueryFault>,
}
