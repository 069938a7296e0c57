// Persons with numbers for ids: a catalog, a store, inserts, and a plan that counts the persons.
ghost use Rattle.std.specs.Prelude.{IfOk, IfSome};
ghost use Rattle.gq_insert.specs.Fits.{InsertFits, IsSound};
ghost use Rattle.gq_load.specs.Keeping.{StoreFits};

use gq_base::{Boxed, List, OutOfMemory};
use gq_edge::Edges;
use gq_graph::{IdKind, IdShape};
use gq_index::Store;
use gq_insert::{catalogs_are_sound, check_insert, insert_row};
use gq_json::{Out, Printed};
use gq_load::stores_stay_fit;
use gq_load_check::Insert;
use gq_plan_ir::{Behind, Expr, Method, Plan, PrintItem, Right, Seed, SetTerm, Sets, Step};
use gq_schema::Catalog;
use gq_tree::{InsertTree, Literal};
use gq_value::Txt;
use gq_vertex::Vertices;
use std::alloc::Global;
use std::test::Fail;

/// How many persons the store begins with.
pub const PERSONS: u64 = 3;

/// A catalog of persons.
pub fn people(alloc: Global) -> Result<Catalog, Fail>
    ensures { IfOk result IsSound }
{
    catalogs_are_sound();
    let mut catalog = Catalog::new(alloc);
    let id = IdShape {
        name: Txt::of(alloc, "id")?,
        kind: IdKind::UInt,
        shown: false,
    };
    match catalog.add_vertex_type("person", &id, &List::new(alloc)) {
        Ok(_) => Ok(catalog),
        Err(_) => Err(Fail::new("the type is refused")),
    }
}

/// The statement that inserts a person.
fn statement(alloc: Global, number: u64) -> Result<InsertTree, OutOfMemory> {
    let name = Txt::of(alloc, "person")?;
    let values = one(alloc, Some(Literal::Number(false, number)))?;
    Ok(InsertTree { name, values })
}

/// The row of a person.
pub fn person(alloc: Global, catalog: &Catalog, number: u64) -> Option<Insert>
    requires { IsSound catalog.now }
    ensures { IfSome result (InsertFits catalog.now) }
{
    let tree = statement(alloc, number).ok()?;
    check_insert(alloc, catalog, &tree).ok()
}

/// A store with the first persons.
pub fn first_store(alloc: Global, catalog: &Catalog) -> Result<Store, Fail>
    requires { IsSound catalog.now }
    ensures { IfOk result (StoreFits catalog.now) }
{
    stores_stay_fit();
    let mut store = Store {
        vertices: Vertices::new(alloc),
        edges: Edges::new(alloc),
    };
    for number in 0..PERSONS {
        insert_row(alloc, catalog, &mut store, &statement(alloc, number)?)?;
    }
    Ok(store)
}

fn one<T: Drop>(alloc: Global, item: T) -> Result<List<T>, OutOfMemory> {
    let mut items = List::new(alloc);
    items.push(item)?;
    Ok(items)
}

/// `S = {person.*};`
fn looking(alloc: Global) -> Result<List<Step>, OutOfMemory> {
    let all = Sets {
        first: SetTerm::Seeds(one(alloc, Seed::Type(0))?),
        others: List::new(alloc),
    };
    one(alloc, Step::Assign(0, None, Right::Sets(all)))
}

/// `PRINT S.size() AS n;`
fn printing(alloc: Global) -> Result<Step, OutOfMemory> {
    let name = Txt::of(alloc, "n")?;
    let size = one(alloc, Behind::Method(Method::Size, List::new(alloc)))?;
    let count = Expr::Post(Boxed::new(alloc, Expr::Name(0))?, size);
    Ok(Step::Print(one(alloc, PrintItem::Value(count, name))?))
}

/// `S = {person.*}; WHILE true LIMIT looks DO S = {person.*}; END; PRINT S.size() AS n;`
fn steps(alloc: Global, looks: u64) -> Result<List<Step>, OutOfMemory> {
    let mut steps = looking(alloc)?;
    let again = looking(alloc)?;
    steps.push(Step::While(Expr::Truth(true), Some(Expr::Number(looks)), again))?;
    steps.push(printing(alloc)?)?;
    Ok(steps)
}

/// The plan that looks at all persons so many times and once more, and prints how many they are.
pub fn count_plan(alloc: Global, looks: u64) -> Result<Plan, OutOfMemory> {
    let vertices = one(alloc, 0u32)?;
    let steps = steps(alloc, looks)?;
    Ok(Plan {
        parameters: List::new(alloc),
        with_paths: false,
        definitions: List::new(alloc),
        steps,
        vertices,
        edges: List::new(alloc),
    })
}

/// The number that the plan printed.
pub fn number_of(printed: &[Printed]) -> Option<i64> {
    match printed {
        [first] => match first.members.as_slice() {
            [(_, Out::Int(n))] => Some(*n),
            _ => None,
        },
        _ => None,
    }
}
