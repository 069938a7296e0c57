// Readers.
ghost use Rattle.std.specs.Prelude.{◌≡◌, ◌≤◌, true, length, map, IfOk, IfErr};
ghost use mathlib.Core.List.{IsPrefix};
ghost use Rattle.left_right.specs.Sides as sides;
ghost use Rattle.gq_value.specs.Views.{val};
ghost use Rattle.gq_graph.specs.Catalog.{most_types};
ghost use Rattle.gq_load_check.specs.Fits.{HasGrown};
ghost use Rattle.gq_plan_ir.specs.Numbered.{AreNumbered};
ghost use Rattle.gq_store.specs.Answering.{IsAnswered, RanOver};

use crate::answer::Answer;
use crate::book::{News, StoreName};
use crate::rule::{ReadSide, Sees};
use crate::store_copy::StoreCopy;
use gq_base::OutOfMemory;
use gq_flow::Workers;
use gq_plan_ir::Plan;
use gq_schema::Catalog;
use gq_value::Row;
use std::alloc::Global;
use std::marker::Model;
use std::thread::Threads;

/// A query for a reader: a plan for this catalog, a value of each parameter, and the largest number of loop iterations.
#[derive(Drop)]
struct Question<'q, R> {
    workers: &'q Workers<'q, R>,
    alloc: Global,
    catalog: &'q Catalog,
    plan: &'q Plan,
    arguments: &'q Row,
    turns: u64,
}

/// A reader of a shared store. Contracts see the list of inserts that it has seen, and the longest list that it was told of, which
/// all others of these begin.
#[derive(Drop)]
pub struct SharedReader<N: StoreName> {
    pub(crate) side: ReadSide<N>,
    pub(crate) seen: News<N>,
    pub(crate) told: News<N>,
    pub(crate) vertices: u32,
}

impl<N: StoreName> Model for SharedReader<N> {
    ghost use Rattle.std.specs.Prelude.{◌≡◌, length};
    ghost use Rattle.std.specs.Coded.{codes};
    ghost use mathlib.Core.List.{IsPrefix};
    ghost use Rattle.left_right.specs.Sides as sides;
    ghost use Rattle.gq_value.specs.contracts.value.Value as value;
    ghost use Rattle.gq_store.specs.Lists.{Known};

    ghost Value = { Known };

    ghost coded = { Prim.hlevel (codes, value.the_row.coded) };

    ghost view = { λ r. record { seen = r.seen; told = r.told } };

    ghost invariant = { λ r. IsPrefix r.seen (sides.view r.side.place).seen × (r.vertices ≡ length N.base.vertices) };
}

/// Runs a plan over a copy, if the copy has all that the reader was told of.
fn answered<N: StoreName, R: Threads + Sync>(
    copy: &StoreCopy<N>,
    told: &News<N>,
    q: &Question<'_, R>,
) -> Result<(Answer, News<N>), OutOfMemory>
    requires sealed { copy.now.sealed ≡ true }
    requires grown { HasGrown N.schema q.now.catalog.now }
    requires few { length q.now.plan.now.edges ≤ most_types }
    requires numbered { AreNumbered q.now.plan.now.definitions }
    ensures { IfOk result (IsAnswered N.base q.now.catalog.now q.now.plan.now (map val q.now.arguments.now) q.now.turns told.now copy.now.rows) }
{
    let rows = copy.news();
    if !rows.begins_with(told) {
        return Err(OutOfMemory);
    }
    let run = copy.run(q.workers, q.alloc, q.catalog, q.plan, q.arguments, q.turns);
    let upto = rows.len();
    Ok((Answer { upto, run }, rows))
}

/// Takes the copy that was published last, and runs a plan over it.
fn asked<N: StoreName, R: Threads + Sync>(
    side: ReadSide<N>,
    told: &News<N>,
    q: &Question<'_, R>,
) -> (ReadSide<N>, Result<(Answer, News<N>), OutOfMemory>)
    requires grown { HasGrown N.schema q.now.catalog.now }
    requires few { length q.now.plan.now.edges ≤ most_types }
    requires numbered { AreNumbered q.now.plan.now.definitions }
    ensures later { IsPrefix (sides.view side.place).seen (sides.view result.0.place).seen }
    ensures answered { IfOk result.1 (IsAnswered N.base q.now.catalog.now q.now.plan.now (map val q.now.arguments.now) q.now.turns told.now (sides.view result.0.place).seen) }
{
    match side.enter_as::<Sees>() {
        Err(side) => (side, Err(OutOfMemory)),
        Ok(reading) => {
            let answer = answered(reading.get(), told, q);
            (reading.leave(), answer)
        }
    }
}

impl<N: StoreName> SharedReader<N> {
    /// How many vertices the store had when it was shared.
    pub fn base_vertices(&self) -> u32
        ensures { result ≡ length N.base.vertices }
    {
        self.vertices
    }

    /// How many inserts this reader has seen.
    pub fn seen(&self) -> u64
        ensures { result ≡ length self.now.seen }
    {
        self.seen.len()
    }

    /// News of what this reader has seen, for another one to learn. It takes no memory.
    pub fn news(&self) -> News<N>
        ensures { result ≡ self.now.seen }
    {
        self.seen.again()
    }

    /// From now on its queries run over no less than the news tell. It takes no memory.
    pub fn learn(&mut self, news: &News<N>)
        ensures told { IsPrefix news.now self.new.told }
        ensures told_stays { IsPrefix self.old.told self.new.told }
        ensures seen { self.new.seen ≡ self.old.seen }
    {
        self.told = self.told.longer(news);
    }

    /// Runs a plan over the store after the published inserts, or after some of them from the first one on, with these workers. These
    /// begin with all that it saw before and all that it was told of, and it has seen them then. It gives the reader back.
    ///
    /// The plan's catalog is that of the store when it was shared, or has grown out of it; if it has more edge types, an index is
    /// built for it. The plan's tuple types and slots are numbered in order, as those of each plan of a query are. `run` says if the run itself found no memory; `OutOfMemory` is returned after the writer's end, too.
    pub fn query<R: Threads + Sync>(
        self,
        workers: &Workers<'_, R>,
        alloc: Global,
        catalog: &Catalog,
        plan: &Plan,
        arguments: &Row,
        turns: u64,
    ) -> (SharedReader<N>, Result<Answer, OutOfMemory>)
        requires grown { HasGrown N.schema catalog.now }
        requires few { length plan.now.edges ≤ most_types }
        requires numbered { AreNumbered plan.now.definitions }
        ensures upto { IfOk result.1 (λ answer. answer.upto ≡ length result.0.seen) }
        ensures begins { IsPrefix self.seen result.0.seen }
        ensures told { IfOk result.1 (λ _. IsPrefix self.told result.0.seen) }
        ensures run { IfOk result.1 (λ answer. RanOver N.base catalog.now plan.now (map val arguments.now) turns result.0.seen answer.run) }
        ensures as_before { IfErr result.1 (λ _. result.0.seen ≡ self.seen) }
        ensures told_stays { result.0.told ≡ self.told }
    {
        let question = Question {
            workers,
            alloc,
            catalog,
            plan,
            arguments,
            turns,
        };
        let SharedReader {
            side,
            seen,
            told,
            vertices,
        } = self;
        let (side, answer) = asked(side, &told, &question);
        match answer {
            Ok((answer, seen)) => (
                SharedReader {
                    side,
                    seen,
                    told,
                    vertices,
                },
                Ok(answer),
            ),
            Err(OutOfMemory) => (
                SharedReader {
                    side,
                    seen,
                    told,
                    vertices,
                },
                Err(OutOfMemory),
            ),
        }
    }
}
