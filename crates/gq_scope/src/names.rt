// Names with a value for each, with a fast lookup.
ghost use Rattle.std.specs.Prelude.{◌≡◌, ◌≤◌, ◌<◌, ◌-◌, ◌++◌, [], ◌∷◌, length, take, reverse, vec_len, vec_capacity, List, ℕ, Some, IsSome, MatchResult};
ghost use Rattle.std.specs.BTreeMap.{get_by_text};
ghost use Rattle.std.specs.Map.{update};
ghost use Rattle.std.specs.Option.{option_copied};
ghost use Rattle.std.specs.Str.{bytes_eq};
ghost use Rattle.gq_rules_typing.specs.Words.{under};
ghost use Rattle.gq_scope.specs.NameTables.{IsKept, row_of};

use gq_base::{OutOfMemory, within};
use gq_value::Txt;
use std::alloc::Global;
use std::collections::BTreeMap;
use std::marker::Model;

/// Names with their values, in the order in which they were added. A name may be added again and then hides the earlier
/// one.
///
/// A row number is stored plus one, so that 0 is none.
#[derive(Drop)]
pub(crate) struct NameTable<T> {
    rows: Vec<(Txt, T)>,

    /// For each row, the last one of its name before it.
    hidden: Vec<u32>,

    /// For each name, its last row.
    last: BTreeMap<String, u32>,
}

impl<T> Model for NameTable<T> {
    ghost use Rattle.std.specs.Prelude.{List, ℕ};
    ghost use Rattle.std.specs.Coded.{coded_list, coded×, coded_ℕ};
    ghost use Rattle.gq_scope.specs.NameTables.{IsKept};

    ghost Value = { List (List ℕ × T) };

    ghost coded = { coded_list (coded× (coded_list coded_ℕ) T.code) };

    ghost view = { λ t. t.rows.items };

    ghost invariant = { λ t. IsKept t.rows.items t.hidden.items t.last };
}

impl<T> NameTable<T> {
    pub(crate) fn new(alloc: Global) -> NameTable<T>
        ensures { result ≡ [] }
    {
        NameTable {
            rows: Vec::new(alloc),
            hidden: Vec::new(alloc),
            last: BTreeMap::new(alloc),
        }
    }

    pub(crate) fn len(&self) -> u32
        ensures { result ≡ length self.now }
    {
        self.rows.len() as u32
    }

    /// The names in order, each with its value.
    pub(crate) fn rows(&self) -> &[(Txt, T)]
        ensures { result.now ≡ self.now }
    {
        self.rows.as_slice()
    }

    /// Finds the value of the last entry of a name.
    pub(crate) fn find(&self, name: &str) -> Option<&T>
        ensures { option_copied result ≡ under bytes_eq name.now (reverse self.now) }
    {
        match last_row(&self.last, name) {
            0 => None,
            row => Some(&self.rows[row as usize - 1].1),
        }
    }
}

impl<T: Drop> NameTable<T> {
    /// Appends a name. Unchanged after `OutOfMemory`, which is also returned past the last place of 32 bits.
    pub(crate) fn push(&mut self, name: &str, what: T) -> Result<(), OutOfMemory>
        ensures added { MatchResult result (λ _. self.new ≡ self.old ++ (name.now, what) ∷ []) (λ _. self.new ≡ self.old) }
        ensures few { length self.new < 4294967296 }
    {
        within(self.rows.len(), u32::MAX as usize - 1)?;
        let alloc = *self.rows.allocator();
        let copy = Txt::of(alloc, name)?;
        let key = String::from_str(alloc, name)?;
        self.rows.reserve(1)?;
        self.hidden.reserve(1)?;
        let row = self.rows.len() as u32 + 1;
        let hidden = match self.last.insert(key, row) {
            Ok(before) => before.unwrap_or(0),
            Err(_) => return Err(OutOfMemory),
        };
        put(&mut self.rows, (copy, what));
        put(&mut self.hidden, hidden);
        Ok(())
    }

    /// Keeps only the first `len` names.
    pub(crate) fn cut(&mut self, len: u32)
        requires { len ≤ length self.old }
        ensures { self.new ≡ take len self.old }
    {
        while self.rows.len() > len as usize {
            drop_last(&mut self.rows, &mut self.hidden, &mut self.last);
        }
    }
}

/// The last row of a name.
fn last_row(last: &BTreeMap<String, u32>, name: &str) -> u32
    ensures { result ≡ row_of last.now name.now }
{
    match last.get(name) {
        Some(row) => *row,
        None => 0,
    }
}

/// Removes the last name. The entry that it hid becomes the last of its name again.
fn drop_last<T: Drop>(
    rows: &mut Vec<(Txt, T)>,
    hidden: &mut Vec<u32>,
    last: &mut BTreeMap<String, u32>,
)
    requires { IsKept rows.old.items hidden.old.items last.old }
    ensures kept { IsKept rows.new.items hidden.new.items last.new }
    ensures dropped { rows.new.items ≡ take (vec_len rows.old - 1) rows.old.items }
    ensures count { vec_len rows.new ≡ vec_len rows.old - 1 }
{
    match (rows.pop(), hidden.pop()) {
        (Some(row), Some(before)) => restore(last, row.0.as_str(), before),
        _ => {}
    }
}

/// Makes a row the last one of a name that has an entry.
fn restore(last: &mut BTreeMap<String, u32>, name: &str, row: u32)
    requires { IsSome (get_by_text last.old name.now) }
    ensures { (other : List ℕ) → get_by_text last.new other ≡ update bytes_eq (get_by_text last.old) name.now (Some row) other }
{
    if let Some(kept) = last.get_mut(name) {
        *kept = row;
    }
}

/// Appends an item if there is room for it.
fn put<T: Drop>(items: &mut Vec<T>, item: T)
    requires { vec_len items.old < vec_capacity items.old }
    ensures { items.new.items ≡ items.old.items ++ item ∷ [] }
{
    match items.push(item) {
        Ok(()) => {}
        Err(_) => unreachable!(),
    }
}
