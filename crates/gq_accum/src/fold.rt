// Folds.
ghost use Rattle.std.specs.Prelude.{◌≡◌, ◌∷◌, [], true};
ghost use Rattle.gq_value.specs.Accums.{Accum, Given};
ghost use Rattle.gq_value.specs.Typed.{suits};
ghost use Rattle.gq_accum_laws.specs.Holds.{Holds};
ghost use Rattle.gq_accum_laws.specs.After.{fresh, after, merged};
ghost use Rattle.gq_accum_laws.specs.Fits.{HasRoom, IsProper};

/// A content that takes inputs one by one, and contents of its own kind.
pub trait Fold: Sized {
    /// The type of its inputs.
    type In;

    // the kind of a content, and its value as a content of a kind
    ghost kind: { Self → Accum };

    ghost content: { (k : Accum) → Self → Holds k };

    ghost input: { Self.In → Given };

    /// Takes one more input.
    ///
    /// The postconditions hold if the input suits the kind and the content has room. These aren't preconditions, so
    /// that recursive calls needn't prove them.
    fn feed(&mut self, x: &Self::In)
        ensures kept { kind self.new ≡ kind self.old }
        ensures fed { suits (kind self.old) (input x.now) ≡ true → HasRoom (kind self.old) (content (kind self.old) self.old)
            → content (kind self.old) self.new ≡ after (kind self.old) (content (kind self.old) self.old) (input x.now ∷ []) };

    /// Takes all that `other`, a content of the same kind, has taken. Both need room, as in `feed`.
    fn merge(&mut self, other: &Self)
        ensures kept { kind self.new ≡ kind self.old }
        ensures joined { kind other.now ≡ kind self.old → HasRoom (kind self.old) (content (kind self.old) self.old) → HasRoom (kind self.old) (content (kind self.old) other.now)
            → content (kind self.old) self.new ≡ merged (kind self.old) (content (kind self.old) self.old) (content (kind self.old) other.now) };

    // merging commutes and groups, the opening changes nothing, and an input is merged as its own content
    ghost commutes: { (s : Self) (c d : Holds (kind s)) → merged (kind s) c d ≡ merged (kind s) d c };

    ghost associates: { (s : Self) (c d e : Holds (kind s)) → merged (kind s) (merged (kind s) c d) e ≡ merged (kind s) c (merged (kind s) d e) };

    ghost neutral: { (s : Self) (c : Holds (kind s)) → IsProper (kind s) c → merged (kind s) c (fresh (kind s)) ≡ c };

    ghost one: { (s : Self) (c : Holds (kind s)) (x : Self.In) → IsProper (kind s) c → after (kind s) c (input x ∷ []) ≡ merged (kind s) c (after (kind s) (fresh (kind s)) (input x ∷ [])) };
}
