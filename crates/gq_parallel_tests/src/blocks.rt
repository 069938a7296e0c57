// A block whose candidates two threads try, through one book of stripes and one table of words.
//
// `SumAccum<INT> @n = 1; S = {person.*}; T = SELECT t FROM S:s -(knows:e)-> person:t ACCUM t.@n += s.@n + 1;` over three
// persons: the first one knows both others, and the second one the third.
ghost use Rattle.std.specs.Prelude.{◌≡◌, ◌≢◌, ◌≤◌, ◌<◌, [], ◌∷◌, true, All, IfOk, OnOk, Some, length};
ghost use Rattle.gq_value.specs.Accums.{SumAccum};
ghost use Rattle.gq_value.specs.declared.kind.Number.TheVariants.{Int};
ghost use Rattle.gq_graph.specs.Catalog.{most_types};
ghost use Rattle.gq_graph.specs.Defaults.{is_plain};
ghost use Rattle.gq_graph.specs.Edges.{Agrees, naming_with};
ghost use Rattle.gq_index.specs.Rows.{HaveEnds};
ghost use Rattle.gq_rules_typing.specs.Patterns.{edge_alias};
ghost use Rattle.gq_plan_ir.specs.BlockView.{view_walk};
ghost use Rattle.gq_plan_ir.specs.Reference.{Place};
ghost use Rattle.gq_eval_operand.specs.Sound.{IsSound};
ghost use Rattle.gq_frame.specs.Slots.{AreSound};
ghost use Rattle.gq_exec_source.specs.Ends.{HasEnds};
ghost use Rattle.gq_exec_source.specs.Starts.{AreCandidates};
ghost use Rattle.gq_stripe.specs.Seats as stripes;
ghost use Rattle.gq_words.specs.Seats as marked;
ghost use Rattle.gq_parallel_tests.specs.Blocks.{AreSums, CanWork, HasSums, IsAmong, IsBare, IsPart, IsPerson};

use crate::threads::three_sums;
use gq_accum::{Scalar, Sum};
use gq_base::{Boxed, List, OutOfMemory};
use gq_edge::Edges;
use gq_eval_context::BlockContext;
use gq_exec_source::{Ends, candidates_of, ends_of};
use gq_frame::{Accums, Frame, Pages, Slots, Thing};
use gq_graph::{Attributes, IdKind, IdShape, StoreFault};
use gq_index::{Candidates, Graph, Index, Store, VertexList};
use gq_io::{OpenGate, Shape};
use gq_nest::Content;
use gq_plan_ir::{Act, Behind, Block, Change, Expr, Feed, Hop, Plan, SelectSource, Types, Walk};
use gq_schema::Catalog;
use gq_stripe::{Book, CloseFault, Seat};
use gq_tree::AddSign;
use gq_value::{Kind, Number, Slot, Txt};
use gq_vertex::Vertices;
use gq_words::{WordSeat, Words};
use gq_workers::{Tables, open_tables, work};
use std::alloc::Global;
use std::sync::Wait;
use std::test::Fail;
use std::thread::{Threads, join_mut};

const SHAPE: Shape = Shape {
    workers: 2,
    chunk: 1,
    stripes: 2,
};

// The places of S, s, e and t.
const SET: u32 = 0;

const SOURCE: u32 = 1;

const EDGE: u32 = 2;

const TARGET: u32 = 3;

fn one<T: Drop>(alloc: Global, item: T) -> Result<List<T>, OutOfMemory>
    ensures { IfOk result (λ items. items ≡ item ∷ []) }
{
    let mut items = List::new(alloc);
    items.push(item)?;
    Ok(items)
}

fn no_attributes(alloc: Global) -> Attributes
    ensures none { result ≡ [] }
    ensures plain { All (λ a. is_plain a ≡ true) result }
{
    List::new(alloc)
}

// Persons, and edges from one to another.
fn types(alloc: Global) -> Result<Catalog, Fail>
    ensures { IfOk result (λ catalog. All IsBare catalog.vertex_types) }
{
    let mut catalog = Catalog::new(alloc);
    let id = IdShape {
        name: Txt::of(alloc, "id")?,
        kind: IdKind::Text,
        shown: false,
    };
    let none = no_attributes(alloc);
    let back = Some("known_by");
    catalog.add_vertex_type("person", &id, &none)?;
    catalog.add_edge_type("knows", true, "person", "person", back, &none, &none)?;
    Ok(catalog)
}

fn add(vertices: &mut Vertices, alloc: Global, id: &str) -> Result<(), StoreFault>
    requires id { id.now ≢ [] }
    requires persons { All IsPerson vertices.old }
    ensures { All IsPerson vertices.new }
{
    match vertices.upsert(0, id, &mut List::new(alloc)) {
        Ok(_) => Ok(()),
        Err(fault) => Err(fault),
    }
}

fn persons(alloc: Global) -> Result<Vertices, StoreFault>
    ensures { IfOk result (All IsPerson) }
{
    let mut vertices = Vertices::new(alloc);
    add(&mut vertices, alloc, "a")?;
    add(&mut vertices, alloc, "b")?;
    add(&mut vertices, alloc, "c")?;
    Ok(vertices)
}

fn relate(edges: &mut Edges, alloc: Global, from: u32, to: u32) -> Result<(), StoreFault>
    requires from { from < 3 }
    requires to { to < 3 }
    requires agrees { Agrees edges.old.namings (naming_with 0 true 0) }
    requires within { All (IsAmong 3) edges.old.rows }
    ensures agrees { Agrees edges.new.namings (naming_with 0 true 0) }
    ensures within { All (IsAmong 3) edges.new.rows }
{
    match edges.upsert(0, true, from, to, 0, &mut List::new(alloc)) {
        Ok(_) => Ok(()),
        Err(fault) => Err(fault),
    }
}

fn knows(alloc: Global) -> Result<Edges, StoreFault>
    ensures { IfOk result (λ edges. All (IsAmong 3) edges.rows) }
{
    let mut edges = Edges::new(alloc);
    relate(&mut edges, alloc, 0, 1)?;
    relate(&mut edges, alloc, 0, 2)?;
    relate(&mut edges, alloc, 1, 2)?;
    Ok(edges)
}

fn store(alloc: Global) -> Result<Store, Fail>
    ensures persons { IfOk result (λ store. All IsPerson store.vertices) }
    ensures ends { IfOk result (λ store. HaveEnds store.vertices store.edges.rows) }
{
    let vertices = persons(alloc)?;
    if vertices.len() < 3 {
        return Err(Fail::new("a person is missing"));
    }
    let edges = knows(alloc)?;
    Ok(Store { vertices, edges })
}

// A plan of no statement, over a graph of these types. `knows` is edge type 0, its reverse type is edge type 1.
fn plan(alloc: Global) -> Result<Plan, OutOfMemory>
    ensures { IfOk result (λ plan. length plan.edges ≤ most_types) }
{
    let vertices = one(alloc, 0u32)?;
    let mut edges = one(alloc, 0u32)?;
    edges.push(1)?;
    Ok(Plan {
        parameters: List::new(alloc),
        with_paths: false,
        definitions: List::new(alloc),
        steps: List::new(alloc),
        vertices,
        edges,
    })
}

// Appends a sum of 1.
fn push_one(alloc: Global, sums: &mut Pages) -> Result<(), OutOfMemory>
    requires { All (IsSound (SumAccum Int)) sums.old }
    ensures { All (IsSound (SumAccum Int)) sums.new }
{
    sums.push(alloc, Content::Scalar(Scalar::SumInt(Sum::of(1))))
}

fn three_ones(alloc: Global) -> Result<Pages, OutOfMemory>
    ensures { IfOk result (All (IsSound (SumAccum Int))) }
{
    let mut sums = Pages::new(alloc);
    push_one(alloc, &mut sums)?;
    push_one(alloc, &mut sums)?;
    push_one(alloc, &mut sums)?;
    Ok(sums)
}

// `SumAccum<INT> @n = 1;`
fn accums(alloc: Global) -> Result<Accums, OutOfMemory>
    ensures slots { IfOk result (λ accums. AreSums accums.slots) }
    ensures sound { IfOk result AreSound }
{
    let contents = three_ones(alloc)?;
    let declared = one(
        alloc,
        Slot {
            kind: Kind::Sum(Number::Int),
            attached: true,
        },
    )?;
    let slots = Slots {
        declared,
        vertices: 3,
    };
    Ok(Accums { slots, contents })
}

// `s.@n + 1`
fn one_more(alloc: Global) -> Result<Expr, OutOfMemory> {
    let behind = one(alloc, Behind::Attached(0))?;
    let first = Expr::Post(Boxed::new(alloc, Expr::Name(SOURCE))?, behind);
    let others = one(alloc, (AddSign::Plus, Expr::Number(1)))?;
    Ok(Expr::Sum(Boxed::new(alloc, first)?, others))
}

// `-(knows:e)-> person:t`
fn hop(alloc: Global) -> Result<Walk, OutOfMemory>
    ensures { IfOk result (λ walk. edge_alias (view_walk walk) ≡ Some (Place 2)) }
{
    let edges = one(alloc, 0u32)?;
    let targets = one(alloc, 0u32)?;
    Ok(Walk::Hop(Hop {
        edges: Types::These(edges),
        edge_alias: Some(EDGE),
        targets: Types::These(targets),
        target_alias: Some(TARGET),
    }))
}

// `SELECT t FROM S:s -(knows:e)-> person:t ACCUM t.@n += s.@n + 1`
fn block(alloc: Global) -> Result<Block, OutOfMemory>
    ensures { IfOk result (λ block. edge_alias (view_walk block.walk) ≡ Some (Place 2)) }
{
    let walk = hop(alloc)?;
    let change = Change::Feed(Feed::One(one_more(alloc)?));
    let accum = one(alloc, Act::Attached(TARGET, 0, change))?;
    Ok(Block {
        selected: TARGET,
        source: SelectSource::Set(SET),
        alias: Some(SOURCE),
        walk,
        filter: None,
        accum,
        post: List::new(alloc),
        having: None,
        order: List::new(alloc),
        limit: None,
    })
}

// `{person.*}`
fn everyone(alloc: Global) -> Result<VertexList, OutOfMemory> {
    let mut all = VertexList::new(alloc);
    for vertex in 0..3 {
        if !all.contains(vertex) {
            all.push(vertex)?;
        }
    }
    Ok(all)
}

// `S = {person.*};`
fn frame(alloc: Global) -> Result<Frame, OutOfMemory>
    ensures slots { IfOk result (λ frame. AreSums frame.accums.slots) }
    ensures sound { IfOk result (λ frame. AreSound frame.accums) }
{
    let accums = accums(alloc)?;
    let types = one(alloc, 0u32)?;
    let all = everyone(alloc)?;
    let things = one(alloc, Some(Thing::Set(types, all)))?;
    Ok(Frame { things, accums })
}

// What both threads work with, beside what the block reads.
#[derive(Drop)]
struct Task<'a> {
    block: &'a Block,
    ends: &'a Ends,
    candidates: &'a Candidates<'a>,
    shape: Shape,
}

// One thread's part: does the chunks that it draws.
fn part<R: Wait>(
    rt: &R,
    alloc: Global,
    task: &Task<'_>,
    over: &BlockContext<'_>,
    worker: u32,
    book: &Book,
    seat: &mut Seat,
    words: &Words,
    word_seat: &mut WordSeat,
) -> Result<(), OutOfMemory>
    requires worker { worker < 64 }
    requires task { CanWork over.now task.now.block.now task.now.ends.now task.now.candidates.now task.now.shape book.now words.now }
    requires seat { stripes.IsIdle book.now seat.old }
    requires word_seat { marked.IsSeatOf words.now word_seat.old }
    ensures { OnOk result (IsPart over.now task.now.block.now task.now.ends.now task.now.candidates.now task.now.shape book.now words.now seat.old word_seat.old seat.new word_seat.new) }
{
    work(
        rt,
        alloc,
        task.block,
        over,
        task.ends,
        task.candidates,
        &task.shape,
        worker,
        book,
        seat,
        words,
        word_seat,
        &OpenGate,
    )
}

fn by_two<R: Threads + Wait + Sync>(
    rt: &R,
    alloc: Global,
    task: &Task<'_>,
    over: &BlockContext<'_>,
    book: &Book,
    words: &Words,
    one: &mut Seat,
    one_word: &mut WordSeat,
    other: &mut Seat,
    other_word: &mut WordSeat,
) -> (Result<(), OutOfMemory>, Result<(), OutOfMemory>)
    requires task { CanWork over.now task.now.block.now task.now.ends.now task.now.candidates.now task.now.shape book.now words.now }
    requires one { stripes.IsIdle book.now one.old × marked.IsSeatOf words.now one_word.old }
    requires other { stripes.IsIdle book.now other.old × marked.IsSeatOf words.now other_word.old }
    ensures one { OnOk result.0 (IsPart over.now task.now.block.now task.now.ends.now task.now.candidates.now task.now.shape book.now words.now one.old one_word.old one.new one_word.new) }
    ensures other { OnOk result.1 (IsPart over.now task.now.block.now task.now.ends.now task.now.candidates.now task.now.shape book.now words.now other.old other_word.old other.new other_word.new) }
{
    let mut first = || -> Result<(), OutOfMemory>
        requires { CanWork over.now task.now.block.now task.now.ends.now task.now.candidates.now task.now.shape book.now words.now × stripes.IsIdle book.now one.now × marked.IsSeatOf words.now one_word.now }
        ensures { OnOk result (IsPart over.entry.now task.entry.now.block.now task.entry.now.ends.now task.entry.now.candidates.now task.entry.now.shape book.entry.now words.entry.now one.entry.now one_word.entry.now one.exit.now one_word.exit.now) }
    { part(rt, alloc, task, over, 0, book, one, words, one_word) };
    let mut second = || -> Result<(), OutOfMemory>
        requires { CanWork over.now task.now.block.now task.now.ends.now task.now.candidates.now task.now.shape book.now words.now × stripes.IsIdle book.now other.now × marked.IsSeatOf words.now other_word.now }
        ensures { OnOk result (IsPart over.entry.now task.entry.now.block.now task.entry.now.ends.now task.entry.now.candidates.now task.entry.now.shape book.entry.now words.entry.now other.entry.now other_word.entry.now other.exit.now other_word.exit.now) }
    { part(rt, alloc, task, over, 1, book, other, words, other_word) };
    join_mut(rt, &mut first, &mut second)
}

// What the tables hold at the end: the sum at each target, and the words.
#[derive(Drop)]
struct Totals {
    sums: [Option<i128>; 3],
    words: Vec<u64>,
}

fn sums_in(book: Book, seat: Seat) -> Result<[Option<i128>; 3], CloseFault>
    requires own { stripes.IsSeatOf book seat }
    requires sums { HasSums (stripes.plan_of book) }
{
    let partials = book.close(seat)?;
    Ok(three_sums(&partials))
}

// Two threads do the block's work through these tables, which are closed then.
fn closed<R: Threads + Wait + Sync>(
    rt: &R,
    alloc: Global,
    task: &Task<'_>,
    over: &BlockContext<'_>,
    tables: Tables,
) -> Result<Totals, Fail>
    requires task { CanWork over.now task.now.block.now task.now.ends.now task.now.candidates.now task.now.shape tables.book tables.words }
    requires sums { HasSums (stripes.plan_of tables.book) }
    requires seat { stripes.IsIdle tables.book tables.seat }
    requires spare { 1 ≤ (stripes.view_of tables.seat).spare }
    requires word_seat { marked.IsSeatOf tables.words tables.word_seat }
    requires word_spare { 1 ≤ (marked.view_of tables.word_seat).spare }
{
    let Tables {
        book,
        mut seat,
        words,
        mut word_seat,
    } = tables;
    let mut other = book.split(&mut seat);
    let mut other_word = words.split(&mut word_seat);
    let (one, two) = by_two(
        rt,
        alloc,
        task,
        over,
        &book,
        &words,
        &mut seat,
        &mut word_seat,
        &mut other,
        &mut other_word,
    );
    one?;
    two?;
    book.join(&mut seat, other);
    words.join(&mut word_seat, other_word);
    let sums = sums_in(book, seat)?;
    let words = words.close(word_seat)?;
    Ok(Totals { sums, words })
}

fn ends_over(alloc: Global, block: &Block, over: &BlockContext<'_>) -> Result<Ends, OutOfMemory>
    ensures { IfOk result (HasEnds over.now.schema over.now.plan over.now.frame.things block.now) }
{
    let things = over.frame.things.as_slice();
    ends_of(alloc, block, over.graph.catalog, over.plan, things)
}

// What the tables of the block hold at the end.
fn held_among<R: Threads + Wait + Sync>(
    rt: &R,
    alloc: Global,
    block: &Block,
    over: &BlockContext<'_>,
    ends: &Ends,
    candidates: &Candidates<'_>,
) -> Result<Totals, Fail>
    requires sums { AreSums over.now.frame.accums.slots }
    requires edge { edge_alias (view_walk block.now.walk) ≡ Some (Place 2) }
    requires ends { HasEnds over.now.schema over.now.plan over.now.frame.things block.now ends.now }
    requires candidates { AreCandidates over.now block.now candidates.now }
{
    let tables = open_tables(alloc, over, candidates, &SHAPE, 2)?;
    let task = Task {
        block,
        ends,
        candidates,
        shape: SHAPE,
    };
    closed(rt, alloc, &task, over, tables)
}

// What they hold, over this context.
fn held_over<R: Threads + Wait + Sync>(
    rt: &R,
    alloc: Global,
    over: &BlockContext<'_>,
) -> Result<Totals, Fail>
    requires { AreSums over.now.frame.accums.slots }
{
    let block = block(alloc)?;
    let ends = ends_over(alloc, &block, over)?;
    let candidates = candidates_of(alloc, &block, over, &ends)?;
    held_among(rt, alloc, &block, over, &ends, &candidates)
}

// What they hold, over a graph.
#[tactic(auto, using(crate::proofs::RowLemmas::persons_whole))]
fn held_in<R: Threads + Wait + Sync>(
    rt: &R,
    alloc: Global,
    catalog: &Catalog,
    store: &Store,
) -> Result<Totals, Fail>
    requires types { All IsBare catalog.now.vertex_types }
    requires persons { All IsPerson store.now.vertices }
    requires ends { HaveEnds store.now.vertices store.now.edges.rows }
{
    let index = Index::build(alloc, catalog, store)?;
    let plan = plan(alloc)?;
    let frame = frame(alloc)?;
    let over = BlockContext {
        graph: Graph {
            catalog,
            store,
            index: &index,
        },
        plan: &plan,
        tuples: &[],
        frame: &frame,
    };
    held_over(rt, alloc, &over)
}

fn held<R: Threads + Wait + Sync>(rt: &R, alloc: Global) -> Result<Totals, Fail> {
    let catalog = types(alloc)?;
    let store = store(alloc)?;
    held_in(rt, alloc, &catalog, &store)
}

#[test]
fn two_threads_do_the_work_of_a_block(rt: HostRuntime) -> Result<(), Fail> {
    let held = held(&rt, rt.alloc())?;
    assert_eq!(rt; held.sums, [Some(0), Some(2), Some(4)]);
    assert_eq!(rt; held.words.as_slice(), [u64::MAX, 3, 6].as_slice());
    Ok(())
}
