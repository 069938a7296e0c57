// Short rows of INTs.
ghost use Rattle.std.specs.Prelude.{◌≡◌, ◌++◌, ◌∷◌, [], true};
ghost use Rattle.gq_exec_contribute.specs.Scalars.{ints_of};

/// The maximum number of INTs in a row.
const MOST: usize = 6;

/// Up to six INTs in order, stored inline.
#[derive(Clone, Copy, Debug)]
pub struct Ints {
    pub count: usize,

    /// Entries from `count` on are unused.
    pub numbers: [i64; 6],
}

impl Ints {
    /// An empty row.
    pub fn none() -> Ints
        ensures { ints_of result ≡ [] }
    {
        Ints {
            count: 0,
            numbers: [0; 6],
        }
    }

    /// Appends an INT; returns false if the row is full.
    pub(crate) fn push(&mut self, x: i64) -> bool
        ensures { result ≡ true → ints_of self.new ≡ ints_of self.old ++ x ∷ [] }
    {
        if self.count >= MOST {
            return false;
        }
        self.numbers[self.count] = x;
        self.count += 1;
        true
    }

    /// The INTs of the row.
    pub fn as_slice(&self) -> &[i64]
        ensures { result.now ≡ ints_of self.now }
    {
        &self.numbers[..self.count.min(MOST)]
    }
}
