//! Field values that list options separated by commas (RFC 9110, section 5.6.1).
ghost use Rattle.std.specs.Prelude.{◌≡◌, reverse};
ghost use Rattle.std.specs.Str.{str_eq_ignore_ascii_case};
ghost use Rattle.httparse.specs.Grammar.{skip_ows, trim_ows};
ghost use Rattle.ob_http_requests.specs.Fields.{elements, says};

use httparse::is_space_or_tab;

fn trim_start(mut text: &[u8]) -> &[u8]
    ensures { result.now ≡ skip_ows text.now }
{
    while let [first, rest @ ..] = text
        && is_space_or_tab(*first)
    {
        text = rest;
    }
    text
}

fn trim_end(mut text: &[u8]) -> &[u8]
    ensures { result.now ≡ reverse (skip_ows (reverse text.now)) }
{
    while let [rest @ .., last] = text
        && is_space_or_tab(*last)
    {
        text = rest;
    }
    text
}

/// Whether an element is this option, ignoring case and the white space around it.
#[tactic(auto, unfolding(httparse::specs::Grammar::trim_ows))]
fn is_option(element: &[u8], option: &[u8]) -> bool
    ensures { result ≡ str_eq_ignore_ascii_case (trim_ows element.now) option.now }
{
    trim_end(trim_start(element)).eq_ignore_ascii_case(option)
}

/// Whether a value lists this option, ignoring case.
pub(crate) fn is_listed(value: &[u8], option: &[u8]) -> bool
    ensures { result ≡ says option.now (elements value.now) }
{
    let mut rest = value;
    'elements: while let Some(comma) = rest.iter().position(|byte| *byte == b',') {
        if is_option(&rest[..comma], option) {
            return true;
        }
        rest = &rest[comma + 1..];
    }
    is_option(rest, option)
}
