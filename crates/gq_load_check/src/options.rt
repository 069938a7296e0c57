// The options of a LOAD.
ghost use Rattle.std.specs.Prelude.{◌≡◌};
ghost use Rattle.std.specs.Option.{option_copied};
ghost use Rattle.gq_load_check.specs.Fits as bytes;
ghost use Rattle.gq_load_check.specs.Options as spec;

use gq_tree::LoadOption;
use gq_value::Txt;

fn same_option(one: LoadOption, other: LoadOption) -> bool
    ensures { result ≡ spec.same_option one other }
{
    match one {
        LoadOption::Separator => matches!(other, LoadOption::Separator),
        LoadOption::Header => matches!(other, LoadOption::Header),
        LoadOption::Quote => matches!(other, LoadOption::Quote),
        LoadOption::Eol => matches!(other, LoadOption::Eol),
    }
}

/// Returns the text of the last option with this name.
fn option_text(name: LoadOption, options: &[(LoadOption, Txt)]) -> Option<&Txt>
    ensures { option_copied result ≡ spec.option_text name options.now }
{
    let mut found = None;
    for option in options {
        if same_option(name, option.0) {
            found = Some(&option.1);
        }
    }
    found
}

fn quote_byte(text: &str) -> Option<u8>
    ensures { result ≡ spec.quote_byte text.now }
{
    if text == "double" {
        Some(b'"')
    } else if text == "single" {
        Some(b'\'')
    } else {
        None
    }
}

/// Returns the quote that the options choose.
pub(crate) fn quote_of(options: &[(LoadOption, Txt)]) -> Option<u8>
    ensures { result ≡ spec.quote_of options.now }
{
    match option_text(LoadOption::Quote, options) {
        Some(text) => quote_byte(text.as_str()),
        None => None,
    }
}

fn is_byte(quote: Option<u8>, byte: u8) -> bool
    ensures { result ≡ bytes.is_byte quote byte }
{
    match quote {
        Some(quote) => quote == byte,
        None => false,
    }
}

fn can_separate(quote: Option<u8>, byte: u8) -> bool
    ensures { result ≡ bytes.can_separate quote byte }
{
    byte < 128 && byte != b'\n' && byte != b'\r' && !is_byte(quote, byte)
}

fn is_separator(quote: Option<u8>, text: &str) -> bool
    ensures { result ≡ spec.is_separator quote text.now }
{
    match text.as_bytes() {
        [byte] => can_separate(quote, *byte),
        _ => false,
    }
}

fn first_byte(text: &str) -> u8
    ensures { result ≡ spec.first_byte text.now }
{
    match text.as_bytes() {
        [byte, ..] => *byte,
        [] => b',',
    }
}

/// Returns the separator that the options choose.
pub(crate) fn separator_of(options: &[(LoadOption, Txt)]) -> u8
    ensures { result ≡ spec.separator_of options.now }
{
    match option_text(LoadOption::Separator, options) {
        Some(text) => first_byte(text.as_str()),
        None => b',',
    }
}

fn is_true(text: &str) -> bool
    ensures { result ≡ spec.is_true text.now }
{
    text.eq_ignore_ascii_case("true")
}

/// Whether the options say that there is a header.
pub(crate) fn header_of(options: &[(LoadOption, Txt)]) -> bool
    ensures { result ≡ spec.header_of options.now }
{
    match option_text(LoadOption::Header, options) {
        Some(text) => is_true(text.as_str()),
        None => false,
    }
}

fn has_bad_quote(options: &[(LoadOption, Txt)]) -> bool
    ensures { result ≡ spec.has_bad_quote options.now }
{
    match option_text(LoadOption::Quote, options) {
        Some(text) => quote_byte(text.as_str()).is_none(),
        None => false,
    }
}

fn has_bad_separator(options: &[(LoadOption, Txt)]) -> bool
    ensures { result ≡ spec.has_bad_separator options.now }
{
    match option_text(LoadOption::Separator, options) {
        Some(text) => !is_separator(quote_of(options), text.as_str()),
        None => false,
    }
}

/// Whether QUOTE or SEPARATOR has an invalid text.
pub(crate) fn has_bad_option(options: &[(LoadOption, Txt)]) -> bool
    ensures { result ≡ spec.has_bad_option options.now }
{
    has_bad_quote(options) || has_bad_separator(options)
}
