// The result of a closed book.
ghost use Rattle.std.specs.Prelude.{◌≡◌, ◌<◌, length, Some};

use gq_base::List;
use gq_nest::Content;

/// The content of each target after all its inputs, without the initial value: by stripe, as the book stored them.
#[derive(Drop)]
pub struct Partials {
    pub(crate) stripes: Vec<List<Content>>,
}

impl Partials {
    ghost use Rattle.gq_nest.specs.declared.content.Content.{Content};
    ghost use Rattle.gq_stripe.specs.Seats.{content_at};

    /// Returns the content of a target of the book's layout after all its inputs. Allocates nothing.
    pub fn at(&self, target: u64) -> &Content
        requires { (content : Content) × (content_at self.now target ≡ Some content) }
        ensures { content_at self.now target ≡ Some result.now }
    {
        let count = self.stripes.len() as u64;
        let stripe = &self.stripes[(target % count) as usize];
        stripe.at((target / count) as usize)
    }
}
