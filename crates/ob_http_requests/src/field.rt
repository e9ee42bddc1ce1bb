//! Reading the field lines of a head by name.
ghost use Rattle.std.specs.Prelude.{◌≡◌, length, map, All};
ghost use Rattle.std.specs.Str.{str_eq_ignore_ascii_case};
ghost use Rattle.httparse.specs.Spans.{IsHeaderWithin, header_bytes};
ghost use Rattle.ob_http_requests.specs.Fields.{is_named, values_of, Tells, says, lists};

use crate::list::is_listed;
use httparse::spans::HeaderSpan;

/// The fields that have one given name.
#[derive(Clone, Copy)]
pub(crate) enum Named<'b> {
    Absent,
    Once(&'b [u8]),
    Several,
}

/// Whether a field has this name, ignoring case.
fn is_named(bytes: &[u8], field: &HeaderSpan, name: &[u8]) -> bool
    requires { IsHeaderWithin (length bytes.now) field.now }
    ensures { result ≡ is_named name.now (header_bytes bytes.now field.now) }
{
    field.name.of(bytes).eq_ignore_ascii_case(name)
}

/// The value of the field with this name, if exactly one field has it.
pub(crate) fn value_named<'b>(bytes: &'b [u8], fields: &[HeaderSpan], name: &[u8]) -> Named<'b>
    requires { All (IsHeaderWithin (length bytes.now)) fields.now }
    ensures { Tells result (values_of name.now (map (header_bytes bytes.now) fields.now)) }
{
    let mut found = None;
    for field in fields {
        if is_named(bytes, field, name) {
            if found.is_some() {
                return Named::Several;
            }
            found = Some(field.value.of(bytes));
        }
    }
    match found {
        Some(value) => Named::Once(value),
        None => Named::Absent,
    }
}

fn is_text(value: &[u8], text: &[u8]) -> bool
    ensures { result ≡ str_eq_ignore_ascii_case value.now text.now }
{
    value.eq_ignore_ascii_case(text)
}

/// Whether one of the fields with this name has this value, ignoring case.
pub(crate) fn is_said(bytes: &[u8], fields: &[HeaderSpan], name: &[u8], text: &[u8]) -> bool
    requires { All (IsHeaderWithin (length bytes.now)) fields.now }
    ensures { result ≡ says text.now (values_of name.now (map (header_bytes bytes.now) fields.now)) }
{
    for field in fields {
        if is_named(bytes, field, name) && is_text(field.value.of(bytes), text) {
            return true;
        }
    }
    false
}

/// Whether one of the fields with this name lists this option, ignoring case.
pub(crate) fn has_option(bytes: &[u8], fields: &[HeaderSpan], name: &[u8], option: &[u8]) -> bool
    requires { All (IsHeaderWithin (length bytes.now)) fields.now }
    ensures { result ≡ lists option.now (values_of name.now
        (map (header_bytes bytes.now) fields.now)) }
{
    for field in fields {
        if is_named(bytes, field, name) && is_listed(field.value.of(bytes), option) {
            return true;
        }
    }
    false
}
