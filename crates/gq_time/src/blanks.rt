// Blanks and tabs at the ends of a text.
ghost use Rattle.std.specs.Prelude.{◌≡◌, reverse};
ghost use Rattle.gq_time.specs.Reading.{trimmed, without_first_blanks};

/// A text without the blanks and tabs at its ends.
pub fn trimmed(text: &[u8]) -> &[u8]
    ensures { result.now ≡ trimmed text.now }
{
    without_last_blanks(without_first_blanks(text))
}

fn without_first_blanks(text: &[u8]) -> &[u8]
    ensures { result.now ≡ without_first_blanks text.now }
{
    let mut rest = text;
    while let [b' ' | b'\t', behind @ ..] = rest {
        rest = behind;
    }
    rest
}

fn without_last_blanks(text: &[u8]) -> &[u8]
    ensures { result.now ≡ reverse (without_first_blanks (reverse text.now)) }
{
    let mut rest = text;
    while let [before @ .., b' ' | b'\t'] = rest {
        rest = before;
    }
    rest
}
