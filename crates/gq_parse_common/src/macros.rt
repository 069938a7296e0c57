// Macros for readers.

/// Unwraps what was read, or returns from the enclosing reader: with None, or with what follows `else`.
#[macro_export]
macro_rules! need {
    ($read:expr) => {
        match $read {
            None => return Ok(None),
            Some(read) => read,
        }
    };
    ($read:expr, else $left_out:expr) => {
        match $read {
            None => return Ok($left_out),
            Some(read) => read,
        }
    };
}

/// The result of a reader: the value paired with the first of these words that is at the place, and the place after it.
#[macro_export]
macro_rules! of_words {
    ($source:expr, $at:expr; $($word:literal => $value:expr),+ $(,)?) => {{
        $(match $source.keyword($at, $word) {
            Some(next) => return Some(($value, next)),
            None => {}
        })+
        None
    }};
}

/// The first of these results that isn't None.
#[macro_export]
macro_rules! first_of {
    ($last:expr) => { Ok($last) };
    ($first:expr, $($next:expr),+) => {
        match $first {
            Some(read) => Ok(Some(read)),
            None => $crate::first_of!($($next),+),
        }
    };
}
