// What readers see beside the writer. No call may be refused but a publish, which is then made once more. So the
// comparison of what a reader was told with what it takes never fails here.
ghost use Rattle.std.specs.Prelude.{◌≡◌};
ghost use Rattle.std.specs.Arc.{arc_value};
ghost use Rattle.gq_insert.specs.Fits.{IsSound};
ghost use Rattle.gq_load.specs.Keeping.{StoreFits};

use crate::people::{PERSONS, count_plan, first_store, number_of, people, person};
use gq_base::{List, OutOfMemory};
use gq_flow::Workers;
use gq_index::Store;
use gq_io::{AnyGate, Shape};
use gq_plan_ir::Plan;
use gq_schema::Catalog;
use gq_store::{Answer, News, Opened, SharedReader, StoreName, Writer, open};
use std::alloc::Global;
use std::marker::Brand;
use std::sync::{Arc, Wait};
use std::test::Fail;
use std::thread::{Threads, join};

/// How many persons the writer adds and publishes, one by one.
const ROUNDS: u64 = 100;

/// How often a query looks at all persons where it is to take long.
const LOOKS: u64 = 500;

/// What readers ask, and of which catalog.
#[derive(Drop)]
struct Question<'q> {
    alloc: Global,
    catalog: &'q Catalog,
    plan: &'q Plan,
}

/// What is done with a store that is shared.
#[derive(Clone, Copy)]
enum Way {
    Told,
    Beside,
}

/// How many inserts the store had, and how many persons beyond the first ones were counted in it.
fn seen_in(answer: &Result<Answer, OutOfMemory>) -> Option<(u64, u64)> {
    let answer = answer.as_ref().ok()?;
    let printed = answer.run.as_ref().ok()?;
    let count = u64::try_from(number_of(printed.as_slice())?).ok()?;
    Some((answer.upto, count.checked_sub(PERSONS)?))
}

/// A reader counts: how many inserts it sees, and how many persons beyond the first ones. The plan defines nothing and
/// walks no edge, so its numbers are in order.
#[tactic(auto, using(crate::proofs::NumberLemmas::number_laws))]
fn count<N: StoreName, R: Threads + Sync>(
    rt: &R,
    question: &Question<'_>,
    reader: SharedReader<N>,
) -> (SharedReader<N>, Option<(u64, u64)>)
    requires { question.now.catalog.now ≡ N.schema }
{
    let workers = Workers {
        rt,
        shape: Shape {
            workers: 2,
            chunk: 16,
            stripes: 1,
        },
        gate: AnyGate::Open,
    };
    if question.plan.definitions.len() > 0 || question.plan.edges.len() > 0 {
        return (reader, None);
    }
    let arguments = List::new(question.alloc);
    let (reader, answer) = reader.query(
        &workers,
        question.alloc,
        question.catalog,
        question.plan,
        &arguments,
        LOOKS,
    );
    (reader, seen_in(&answer))
}

/// Whether a reader counts as many persons as it sees inserts, from `low` to `high`.
fn sees<N: StoreName, R: Threads + Sync>(
    rt: &R,
    question: &Question<'_>,
    reader: SharedReader<N>,
    low: u64,
    high: u64,
) -> (SharedReader<N>, bool)
    requires { question.now.catalog.now ≡ N.schema }
{
    let (reader, seen) = count(rt, question, reader);
    let whole = match seen {
        Some((upto, persons)) => low <= upto && upto <= high && persons == upto,
        None => false,
    };
    (reader, whole)
}

/// Whether a reader that learns news of so many inserts sees these.
fn learns<N: StoreName, R: Threads + Sync>(
    rt: &R,
    question: &Question<'_>,
    reader: SharedReader<N>,
    news: News<N>,
    inserts: u64,
) -> (SharedReader<N>, bool)
    requires { question.now.catalog.now ≡ N.schema }
{
    let mut reader = reader;
    reader.learn(&news);
    sees(rt, question, reader, inserts, inserts)
}

/// Whether a reader that learns news, and asks again and again, sees all that it was told of, and never less than
/// before.
fn asks_often<N: StoreName, R: Threads + Sync>(
    rt: &R,
    question: &Question<'_>,
    reader: SharedReader<N>,
    news: News<N>,
) -> bool
    requires { question.now.catalog.now ≡ N.schema }
{
    let mut reader = reader;
    reader.learn(&news);
    let (mut last, mut rise) = (news.len(), true);
    for _ in 0..ROUNDS {
        let (next, whole) = sees(rt, question, reader, last, ROUNDS);
        reader = next;
        last = reader.seen();
        rise = rise && whole;
    }
    rise
}

/// Adds a person, which isn't published. Returns whether it could.
fn add<N: StoreName, W: Wait + Drop>(
    question: &Question<'_>,
    writer: &mut Writer<N, W>,
    number: u64,
) -> bool
    requires sound { IsSound question.now.catalog.now }
    requires schema { question.now.catalog.now ≡ N.schema }
{
    match person(question.alloc, question.catalog, number) {
        Some(row) => writer.add(&row).is_ok(),
        None => false,
    }
}

/// Publishes, and once more if there was no memory for it: what the first one refused, the second one shows.
fn publish<N: StoreName, W: Wait + Drop>(writer: Writer<N, W>) -> Writer<N, W> {
    let (writer, first) = writer.publish();
    if first.is_ok() {
        return writer;
    }
    let (writer, _second) = writer.publish();
    writer
}

/// Adds the persons with these numbers, and publishes each.
fn write<N: StoreName, W: Wait + Drop>(
    question: &Question<'_>,
    writer: Writer<N, W>,
    from: u64,
    to: u64,
) -> Writer<N, W>
    requires sound { IsSound question.now.catalog.now }
    requires schema { question.now.catalog.now ≡ N.schema }
{
    let mut writer = writer;
    for number in from..to {
        let _added = add(question, &mut writer, number);
        writer = publish(writer);
    }
    writer
}

/// Whether an insert that is pending isn't seen, and one that is published is seen by who was told of it, and by who
/// learns what that one saw. Another may see it.
fn told<N: StoreName, R: Threads + Sync, W: Wait + Drop>(
    rt: &R,
    question: &Question<'_>,
    writer: Writer<N, W>,
    one: SharedReader<N>,
    other: SharedReader<N>,
) -> bool
    requires sound { IsSound question.now.catalog.now }
    requires schema { question.now.catalog.now ≡ N.schema }
{
    let mut writer = writer;
    let added = add(question, &mut writer, PERSONS);
    let (one, pending) = sees(rt, question, one, 0, 0);
    let writer = publish(writer);
    let (other, some) = sees(rt, question, other, 0, 1);
    let (one, all) = learns(rt, question, one, writer.news(), 1);
    let (_other, passed_on) = learns(rt, question, other, one.news(), 1);
    writer.finish();
    added && pending && some && all && passed_on
}

/// A reader asks in a thread of its own, where it learns news first, while the writer adds persons and publishes each.
/// Returns whether all that it saw was right.
fn ask_beside<N: StoreName + Send + Sync, R: Threads + Sync, W: Wait + Drop>(
    rt: &R,
    question: &Question<'_>,
    writer: Writer<N, W>,
    reader: SharedReader<N>,
    news: News<N>,
) -> (bool, Writer<N, W>)
    requires sound { IsSound question.now.catalog.now }
    requires schema { question.now.catalog.now ≡ N.schema }
{
    join(
        rt,
        || -> bool
            requires { question.now.catalog.now ≡ N.schema }
        { asks_often(rt, question, reader, news) },
        || -> Writer<N, W>
            requires { IsSound question.now.catalog.now × (question.now.catalog.now ≡ N.schema) }
        { write(question, writer, PERSONS + 1, PERSONS + ROUNDS) },
    )
}

/// Whether a reader in another thread, which is told of what this one saw, sees no less and never less while the writer
/// publishes; and whether this one sees all of it once it is told.
fn beside<N: StoreName + Send + Sync, R: Threads + Sync, W: Wait + Drop>(
    rt: &R,
    question: &Question<'_>,
    writer: Writer<N, W>,
    one: SharedReader<N>,
    other: SharedReader<N>,
) -> bool
    requires sound { IsSound question.now.catalog.now }
    requires schema { question.now.catalog.now ≡ N.schema }
{
    let writer = write(question, writer, PERSONS, PERSONS + 1);
    let (one, first) = learns(rt, question, one, writer.news(), 1);
    let (rise, writer) = ask_beside(rt, question, writer, other, one.news());
    let (_one, last) = learns(rt, question, one, writer.news(), ROUNDS);
    writer.finish();
    first && rise && last
}

fn two<T: Drop>(items: Vec<T>) -> Option<(T, T)> {
    let mut items = items;
    let one = items.pop()?;
    let other = items.pop()?;
    Some((one, other))
}

/// Shares a store with two readers, and goes a way.
fn shared<N: StoreName + Send + Sync, R: Threads + Wait + Sync>(
    rt: &R,
    question: &Question<'_>,
    history: Opened,
    catalog: Arc<Catalog>,
    base: Store,
    way: Way,
) -> bool
    requires history { history.seen.book ≡ N.book }
    requires base { base ≡ N.base }
    requires schema { arc_value catalog ≡ N.schema }
    requires sound { IsSound N.schema }
    requires fits { StoreFits N.schema N.base }
    requires own { question.now.catalog.now ≡ N.schema }
    requires own_sound { IsSound question.now.catalog.now }
{
    let Ok((writer, readers)) = open::<N, &R>(rt, question.alloc, history, catalog, base, 2) else {
        return false;
    };
    let Some((one, other)) = two(readers) else {
        return false;
    };
    match way {
        Way::Told => told(rt, question, writer, one, other),
        Way::Beside => beside(rt, question, writer, one, other),
    }
}

/// Shares a store of the first persons.
fn over<R: Threads + Wait + Sync>(
    rt: &R,
    question: &Question<'_>,
    catalog: Arc<Catalog>,
    way: Way,
) -> Result<bool, Fail>
    requires own { arc_value catalog ≡ question.now.catalog.now }
    requires sound { IsSound question.now.catalog.now }
{
    let base = first_store(question.alloc, question.catalog)?;
    Ok(shared::<Brand, R>(rt, question, Opened::new(), catalog, base, way))
}

/// A catalog, and readers that ask a plan of it.
fn asking<R: Threads + Wait + Sync>(
    rt: &R,
    alloc: Global,
    plan: &Plan,
    way: Way,
) -> Result<bool, Fail> {
    let catalog = Arc::new(alloc, people(alloc)?)?;
    let shown = Arc::try_clone(&catalog)?;
    let question = Question {
        alloc,
        catalog: &catalog,
        plan,
    };
    over(rt, &question, shown, way)
}

#[test]
fn who_was_told_of_an_insert_sees_it(rt: HostRuntime) -> Result<(), Fail> {
    let alloc = rt.alloc();
    let plan = count_plan(alloc, 1)?;
    assert!(rt; asking(&rt, alloc, &plan, Way::Told)?);
    Ok(())
}

#[test]
fn counts_rise_beside_a_writer(rt: HostRuntime) -> Result<(), Fail> {
    let alloc = rt.alloc();
    let plan = count_plan(alloc, LOOKS)?;
    assert!(rt; asking(&rt, alloc, &plan, Way::Beside)?);
    Ok(())
}
