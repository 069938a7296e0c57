// What a byte begins, and which bytes belong to a run.
ghost use Rattle.std.specs.Prelude.{◌≡◌, slice_index};
ghost use Rattle.gq_token.specs.Bytes.{is_word_start};
ghost use Rattle.gq_token.specs.Class.{class_of, goes_on, IsRun};

// The kind of an item, by its first two bytes.
#[derive(Clone, Copy)]
pub enum Class {
    Blank,
    LineComment,
    BlockComment,
    Word,
    Sign,
    Number,
    Text,
    Other,
}

// A kind of bytes that form a run.
#[derive(Clone, Copy)]
pub enum ByteRun {
    Blank,
    Line,
    Word,
    Digit,
}

pub fn class_of(first: u8, second: u8) -> Class
    ensures { result ≡ class_of first second }
{
    match first {
        b' ' | b'\t' | b'\r' | b'\n' => Class::Blank,
        b'#' => Class::LineComment,
        b'/' => match second {
            b'/' => Class::LineComment,
            b'*' => Class::BlockComment,
            _ => Class::Other,
        },
        b'A'..=b'Z' | b'a'..=b'z' | b'_' => Class::Word,
        b'@' => Class::Sign,
        b'0'..=b'9' => Class::Number,
        b'"' => Class::Text,
        _ => Class::Other,
    }
}

pub fn goes_on(run: ByteRun, byte: u8) -> bool
    ensures { result ≡ goes_on run byte }
{
    match run {
        ByteRun::Blank => matches!(byte, b' ' | b'\t' | b'\r' | b'\n'),
        ByteRun::Line => byte != b'\n',
        ByteRun::Word => matches!(byte, b'A'..=b'Z' | b'a'..=b'z' | b'_' | b'0'..=b'9'),
        ByteRun::Digit => byte.is_ascii_digit(),
    }
}

pub fn begins_word(byte: u8) -> bool
    ensures { result ≡ is_word_start byte }
{
    matches!(byte, b'A'..=b'Z' | b'a'..=b'z' | b'_')
}

// The number of first bytes that belong to a run.
pub fn run_size(bytes: &[u8], run: ByteRun) -> usize
    ensures { IsRun (goes_on run) bytes.now result }
{
    let mut size = 0;
    while size < bytes.len() && goes_on(run, bytes[size]) {
        size += 1;
    }
    size
}

// The byte at a place, or 0 if there is none.
pub fn byte_at(bytes: &[u8], at: usize) -> u8
    ensures { result ≡ slice_index bytes.now at }
{
    if at < bytes.len() { bytes[at] } else { 0 }
}
