// Checks the part of a content that an input changed.
ghost use Rattle.std.specs.Prelude.{map};
ghost use Rattle.gq_value.specs.AccumViews.{given};
ghost use Rattle.gq_nest.specs.Tells.{Tells};
ghost use Rattle.gq_exec_post.specs.Judging.{EachTellsWhere, fits_where, given_at};

use gq_nest::Content;
use gq_value::Input;

/// Whether a content that fitted before it took an input fits now. Only the entries at the input's keys are checked, as
/// nothing else has changed. Allocates nothing.
#[cycle(judging)]
pub(crate) fn still_fits(input: &Input, content: &Content) -> bool
    ensures { Tells content.now result (λ k h. fits_where k h (given input.now)) }
{
    match input {
        Input::One(_) => content.fits(),
        Input::Keyed(keys, inputs) => match content {
            Content::Map(_, _) => match content.get(keys) {
                None => true,
                Some(part) => part_fits(inputs.as_slice(), 0, part),
            },
            Content::Group(_, groups) => match groups.get(keys.as_slice()) {
                None => true,
                Some(parts) => parts_fit(inputs.as_slice(), parts.as_slice()),
            },
            Content::Scalar(_) => content.fits(),
            Content::Set(_) | Content::Bag(_) | Content::List(_) => content.fits(),
            Content::Heap(_) | Content::Spoiled => content.fits(),
        },
    }
}

/// Whether each part fits after the input at its index.
#[cycle(judging)]
fn parts_fit(inputs: &[Input], parts: &[Content]) -> bool
    ensures { EachTellsWhere (map given inputs.now) parts.now result }
{
    for (place, part) in parts.iter().enumerate() {
        if !part_fits(inputs, place, part) {
            return false;
        }
    }
    true
}

/// Whether a part fits after the input at an index; without such an input all of it is checked.
#[cycle(judging)]
fn part_fits(inputs: &[Input], place: usize, part: &Content) -> bool
    ensures { Tells part.now result (λ k h. fits_where k h (given_at inputs.now place)) }
{
    match inputs.get(place) {
        None => part.fits(),
        Some(input) => still_fits(input, part),
    }
}
