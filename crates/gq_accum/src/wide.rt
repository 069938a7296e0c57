// Numbers of 128 bits in two words.
ghost use Rattle.std.specs.Prelude.{◌≡◌};
ghost use Rattle.gq_accum.specs.Wide.{count_of, sum_of};

/// A signed number of 128 bits. It is in two words, since an `i128` would align all that has one to 16 bytes.
#[derive(Clone, Copy, Debug)]
pub struct Sum {
    high: u64,
    low: u64,
}

impl Sum {
    /// The number in two words.
    #[inline]
    pub fn of(x: i128) -> Sum
        ensures { sum_of result ≡ x }
    {
        let bits = x.cast_unsigned();
        Sum {
            high: (bits / 18_446_744_073_709_551_616) as u64,
            low: (bits % 18_446_744_073_709_551_616) as u64,
        }
    }

    /// The number itself.
    #[inline]
    pub fn get(self) -> i128
        ensures { result ≡ sum_of self }
    {
        (u128::from(self.high) * 18_446_744_073_709_551_616 + u128::from(self.low)).cast_signed()
    }
}

/// The same for a count.
#[derive(Clone, Copy, Debug)]
pub struct Count {
    high: u64,
    low: u64,
}

impl Count {
    /// The count in two words.
    #[inline]
    pub fn of(n: u128) -> Count
        ensures { count_of result ≡ n }
    {
        Count {
            high: (n / 18_446_744_073_709_551_616) as u64,
            low: (n % 18_446_744_073_709_551_616) as u64,
        }
    }

    /// The count itself.
    #[inline]
    pub fn get(self) -> u128
        ensures { result ≡ count_of self }
    {
        u128::from(self.high) * 18_446_744_073_709_551_616 + u128::from(self.low)
    }
}
