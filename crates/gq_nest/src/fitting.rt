// Whether the sums and averages of contents are within their types.
ghost use Rattle.gq_accum_laws.specs.Fits.{fits as all_fit};
ghost use Rattle.gq_nest.specs.Tells.{Tells, EachTells};

use crate::content::Content;

/// Whether each sum and average in the content, to any depth, is within its type.
#[cycle(fits)]
pub(crate) fn fits(content: &Content) -> bool
    ensures { Tells content.now result all_fit }
{
    match content {
        Content::Scalar(scalar) => scalar.fits(),
        Content::Map(_, entries) => {
            for (_, part) in entries {
                if !fits(part) {
                    return false;
                }
            }
            true
        }
        Content::Group(_, groups) => {
            for (_, parts) in groups {
                if !all_fit(parts.as_slice()) {
                    return false;
                }
            }
            true
        }
        Content::Set(_) => true,
        Content::Bag(_) => true,
        Content::List(_) => true,
        Content::Heap(_) => true,
        Content::Spoiled => true,
    }
}

/// Whether each of the parts fits.
#[cycle(fits)]
fn all_fit(parts: &[Content]) -> bool
    ensures { EachTells parts.now result }
{
    for part in parts {
        if !fits(part) {
            return false;
        }
    }
    true
}
