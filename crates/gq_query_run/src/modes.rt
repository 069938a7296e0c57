// The modes of a query: API and SYNTAX.
ghost use Rattle.std.specs.Prelude.{◌≡◌};
ghost use Rattle.std.specs.List.{list_any};
ghost use Rattle.gq_rules_meaning.specs.Sessions as spec;

use gq_tree::Mode;

/// Whether API is `v2`, SYNTAX is `v1` or `v2` in any case, and neither occurs twice.
pub(crate) fn are_good(modes: &[Mode]) -> bool
    ensures { result ≡ spec.good_modes modes.now }
{
    // Of three modes one occurs twice, so the recursion is at most three levels deep.
    match modes {
        [] => true,
        [mode, rest @ ..] => is_good(mode) && !stands_in(mode, rest) && are_good(rest),
    }
}

fn is_good(mode: &Mode) -> bool
    ensures { result ≡ spec.is_good_mode mode.now }
{
    match mode {
        Mode::Api(text) => text.as_str() == "v2",
        Mode::Syntax(name) => {
            let name = name.as_str();
            name.eq_ignore_ascii_case("v1") || name.eq_ignore_ascii_case("v2")
        }
    }
}

fn stands_in(mode: &Mode, modes: &[Mode]) -> bool
    ensures { result ≡ list_any (spec.same_mode mode.now) modes.now }
{
    modes.iter().any(|other| same(mode, other))
}

fn same(mode: &Mode, other: &Mode) -> bool
    ensures { result ≡ spec.same_mode mode.now other.now }
{
    match mode {
        Mode::Api(_) => match other {
            Mode::Api(_) => true,
            Mode::Syntax(_) => false,
        },
        Mode::Syntax(_) => match other {
            Mode::Api(_) => false,
            Mode::Syntax(_) => true,
        },
    }
}
