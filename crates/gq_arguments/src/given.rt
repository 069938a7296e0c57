// The argument of a parameter: from the script, from the file, or the parameter's default.
ghost use Rattle.std.specs.Prelude.{◌≡◌, ℤ, option_and_then, option_map, unsigned_abs, codes};
ghost use Rattle.serde_json.specs.View.{view};
ghost use Rattle.serde_json.specs.Find.{as_integer, as_number};
ghost use Rattle.gq_rules_typing.specs.StatementViews.{view_base, view_literal};
ghost use Rattle.gq_rules_typing.specs.Statements.{Bytes, BaseTree as PlainBase};
ghost use Rattle.gq_rules_meaning.specs.Arguments.{Nothing, NumberMember, OfLiteral, default_or, is_negative, of_member};
ghost use Rattle.gq_arguments.specs.Given.{view_argument, view_given};
ghost use Rattle.gq_arguments.specs.Members.{member_of, text_under, vertex_member};

use gq_tree::{Argument, BaseTree, Literal};
use serde_json::Value as Json;

/// The argument of a parameter.
#[derive(Clone, Copy)]
pub(crate) enum Given<'a> {
    /// Whether there is a minus sign, and the number after it.
    Number(bool, u64),
    Text(&'a str),
    Truth(bool),

    /// The id and the type of a vertex.
    Vertex(&'a str, &'a str),

    /// Nothing that a value can be made of.
    Nothing,
}

fn literal(literal: &Literal) -> Given<'_>
    ensures { view_given result ≡ OfLiteral (view_literal literal.now) }
{
    match literal {
        Literal::Number(minus, number) => Given::Number(*minus, *number),
        Literal::Text(text) => Given::Text(text.as_str()),
        Literal::Truth(truth) => Given::Truth(*truth),
    }
}

/// Returns an argument in parentheses.
pub(crate) fn listed(argument: &Argument) -> Given<'_>
    ensures { view_given result ≡ view_argument argument.now }
{
    match argument {
        Argument::Literal(value) => literal(value),
        Argument::Vertex(id, kind) => Given::Vertex(id.as_str(), kind.as_str()),
    }
}

/// Returns the default of a parameter without an argument.
pub(crate) fn default(default: &Option<Literal>) -> Given<'_>
    ensures { view_given result ≡ default_or Nothing (option_map view_literal default.now) }
{
    match default {
        Some(value) => literal(value),
        None => Given::Nothing,
    }
}

/// Returns a member of the file as an argument, for a parameter of this type.
pub(crate) fn named<'a>(base: &BaseTree, member: &'a Json) -> Given<'a>
    ensures { view_given result ≡ of_member (view_base base.now) (member_of (view member.now)) }
{
    match member.as_str() {
        Some(text) => Given::Text(text),
        None => match member.as_bool() {
            Some(truth) => Given::Truth(truth),
            None => match whole_number(member) {
                Some((minus, number)) => numbered(base, minus, number),
                None => vertex(member),
            },
        },
    }
}

// Returns a whole number of 64 bits: whether it is negative, and its absolute value.
fn whole_number(member: &Json) -> Option<(bool, u64)>
    ensures { result ≡ option_map (λ x. (is_negative x, unsigned_abs x)) (option_and_then as_integer (as_number (view member.now))) }
{
    match member.as_u64() {
        Some(number) => Some((false, number)),
        None => match member.as_i64() {
            Some(number) => Some((number < 0, number.unsigned_abs())),
            None => None,
        },
    }
}

// In the file a number isn't the id of a vertex.
fn numbered(base: &BaseTree, minus: bool, number: u64) -> Given<'static>
    ensures { (x : ℤ) → is_negative x ≡ minus → unsigned_abs x ≡ number → view_given result ≡ of_member (view_base base.now) (NumberMember x) }
{
    match base {
        BaseTree::VertexOf(_) => Given::Nothing,
        BaseTree::Int | BaseTree::UInt | BaseTree::Bool => Given::Number(minus, number),
        BaseTree::Text | BaseTree::AnyVertex => Given::Number(minus, number),
    }
}

// Returns the text under a name.
fn text_under<'a>(member: &'a Json, name: &str) -> Option<&'a str>
    ensures { option_map (λ text. text.now) result ≡ text_under name.now (view member.now) }
{
    match member.get(name) {
        Some(text) => text.as_str(),
        None => None,
    }
}

// Returns a vertex, from an object with the texts `id` and `type`.
fn vertex(member: &Json) -> Given<'_>
    ensures { (base : PlainBase Bytes) → view_given result ≡ of_member base (vertex_member (text_under (codes "id") (view member.now)) (text_under (codes "type") (view member.now))) }
{
    match text_under(member, "id") {
        Some(id) => match text_under(member, "type") {
            Some(kind) => Given::Vertex(id, kind),
            None => Given::Nothing,
        },
        None => Given::Nothing,
    }
}
