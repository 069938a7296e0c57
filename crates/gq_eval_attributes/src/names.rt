// Places by names.
ghost use Rattle.std.specs.Prelude.{◌≡◌, ◌<◌, ℕ, Some, length};
ghost use Rattle.std.specs.List.{position};
ghost use Rattle.std.specs.Str.{bytes_eq};
ghost use Rattle.gq_rules_typing.specs.Sorts.{names_of, attribute_fields, vertex_sort};
ghost use Rattle.gq_rules_typing.specs.Words.{place_of};

use gq_graph::{Attribute, VertexType};
use gq_value::Txt;

/// The place of a name among names.
#[tactic(auto, using(crate::proofs::NameLemmas::name_laws))]
pub(crate) fn name_place(names: &[Txt], name: &str) -> Option<usize>
    ensures { result ≡ place_of names.now name.now }
{
    names.iter().position(|other| name == other.as_str())
}

/// The place of the attribute of a name.
#[tactic(auto, using(crate::proofs::NameLemmas::name_laws))]
pub(crate) fn attribute_place(attributes: &[Attribute], name: &str) -> Option<usize>
    ensures place { result ≡ place_of (names_of (attribute_fields attributes.now)) name.now }
    ensures within { (n : ℕ) → result ≡ Some n → n < length attributes.now }
{
    attribute_named(attributes, name)
}

/// The first attribute of a name.
fn attribute_named(attributes: &[Attribute], name: &str) -> Option<usize>
    ensures { result ≡ position (λ a. bytes_eq name.now a.name) attributes.now }
{
    attributes
        .iter()
        .position(|attribute| name == attribute.name.as_str())
}

/// The place of a name among the fields of a vertex type: a shown id comes first.
#[tactic(auto, using(crate::proofs::NameLemmas::vertex_laws))]
pub(crate) fn vertex_place(of: &VertexType, name: &str) -> Option<usize>
    ensures { result ≡ place_of (names_of (vertex_sort of.now).fields) name.now }
{
    if !of.id.shown {
        return attribute_place(of.attributes.as_slice(), name);
    }
    if name == of.id.name.as_str() {
        return Some(0);
    }
    match attribute_place(of.attributes.as_slice(), name) {
        Some(place) => {
            prove!(place < of.attributes.len());
            Some(place + 1)
        }
        None => None,
    }
}
