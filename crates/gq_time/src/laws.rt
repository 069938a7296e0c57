// Laws of every DATETIME.
ghost use Rattle.std.specs.Prelude.{◌≡◌, ℕ, ℤ, List};
ghost use Rattle.std.specs.Cmp.Lexicographic.{slice_cmp};
ghost use Rattle.std.specs.Ordering.{nat_cmp, int_cmp};
ghost use Rattle.gq_time.specs.Texts.{IsWritten};
ghost use Rattle.gq_time.specs.Reading.{Reads};

/// Does nothing. Its contract is a law: a written text reads as the seconds that it was written of, and two written texts
/// compare byte by byte as their seconds do.
pub fn written_texts()
    ensures read_back { (seconds : ℤ) (text : List ℕ) → IsWritten seconds text → Reads text seconds }
    ensures ordered { (a b : ℤ) (x y : List ℕ) → IsWritten a x → IsWritten b y → slice_cmp nat_cmp x y ≡ int_cmp a b }
{}
