// Texts.
ghost use Rattle.std.specs.Prelude.{◌≡◌, List, ℕ, IfOk, string_bytes};

use gq_base::OutOfMemory;
use std::alloc::Global;
use std::marker::Model;

/// A text of UTF-8 that owns its bytes. Contracts see it as the list of its bytes.
#[derive(Debug, Drop)]
pub struct Txt {
    text: String,
}

impl Model for Txt {
    ghost Value = { List ℕ };

    ghost view = { λ t. string_bytes t.text };
}

impl Txt {
    /// A copy of `text`.
    pub fn of(alloc: Global, text: &str) -> Result<Txt, OutOfMemory>
        ensures { IfOk result (λ copy. copy ≡ text.now) }
    {
        let text = String::from_str(alloc, text)?;
        Ok(Txt { text })
    }

    /// The text of a string, without a copy.
    pub fn from_string(text: String) -> Txt
        ensures { result ≡ string_bytes text }
    {
        Txt { text }
    }

    /// The text itself, without a copy.
    pub fn as_str(&self) -> &str
        ensures { result.now ≡ self.now }
    {
        self.text.as_str()
    }
}
