//! The fields of a head: which there are, and whether the connection stays.
ghost use Rattle.std.specs.Prelude.{◌≡◌, ℕ, ◌≤◌, List, ◌∷◌, [], ◌++◌, length, map, take, All, codes, option_map};
ghost use Rattle.std.specs.List.{list_any};
ghost use Rattle.httparse.specs.Spans.{IsHeaderWithin, header_bytes};
ghost use Rattle.http_wire.specs.Fields.{Fields, first_of, same_word, values_of, lists_close, keeps_connection};
ghost use Rattle.http_wire.specs.Inner.HeadReading.{fields_of};
ghost use Rattle.http_wire.specs.Inner.HeadSpans.{request_spans};
ghost use Rattle.http_wire.specs.Inner.FieldReading.{IsOccurrence};

use crate::elements::Elements;
use crate::requests::ParsedRequest;
use httparse::spans::HeaderSpan;

/// How often a field stands in a head, with its value if it stands there once.
#[derive(Clone, Copy)]
pub enum Occurrence<'b> {
    Absent,
    Once(&'b [u8]),
    Repeated,
}

/// Whether the words are the same but for the case of ASCII letters.
pub fn is_same_word(text: &[u8], other: &[u8]) -> bool
    ensures { result ≡ same_word text.now other.now }
{
    text.eq_ignore_ascii_case(other)
}

/// The occurrence, with one more value.
fn one_more<'b>(found: Occurrence<'b>, value: &'b [u8]) -> Occurrence<'b>
    ensures { (values : List (List ℕ)) → IsOccurrence values found.entry
        → IsOccurrence (values ++ value.now ∷ []) result }
{
    match found {
        Occurrence::Absent => Occurrence::Once(value),
        Occurrence::Once(_) => Occurrence::Repeated,
        Occurrence::Repeated => Occurrence::Repeated,
    }
}

/// The occurrence of a name, with one more field.
fn with_field<'b>(
    found: Occurrence<'b>,
    head: &'b [u8],
    header: HeaderSpan,
    name: &[u8],
) -> Occurrence<'b>
    requires { IsHeaderWithin (length head.now) header }
    ensures { (fields : Fields) → IsOccurrence (values_of name.now fields) found.entry
        → IsOccurrence (values_of name.now (fields ++ header_bytes head.now header ∷ [])) result }
{
    if is_same_word(header.name.of(head), name) {
        one_more(found, header.value.of(head))
    } else {
        found
    }
}

/// The field of that name.
pub fn field_among<'b>(head: &'b [u8], headers: &[HeaderSpan], name: &[u8]) -> Occurrence<'b>
    requires { All (IsHeaderWithin (length head.now)) headers.now }
    ensures { IsOccurrence (values_of name.now (map (header_bytes head.now) headers.now)) result }
{
    let mut found = Occurrence::Absent;
    for header in headers {
        found = with_field(found, head, *header, name);
    }
    found
}

/// The field of that name in a head.
pub fn field_named<'b>(head: &'b [u8], parsed: &ParsedRequest, name: &[u8]) -> Occurrence<'b>
    requires { request_spans.IsHeadOf head.now parsed.now }
    ensures { IsOccurrence (values_of name.now (fields_of request_spans head.now parsed.now))
        result }
{
    field_among(head, &parsed.headers[..parsed.spans.headers], name)
}

/// Whether a value lists `close` among its elements.
fn has_close(value: &[u8]) -> bool
    ensures { result ≡ lists_close value.now }
{
    Elements::new(value).any(|element| is_same_word(element, b"close"))
}

/// Whether a field `Connection` listed `close` so far, with one more field.
fn closes_after(found: bool, head: &[u8], header: HeaderSpan) -> bool
    requires { IsHeaderWithin (length head.now) header }
    ensures { (fields : Fields)
        → found ≡ list_any lists_close (values_of (codes "connection") fields)
        → result ≡ list_any lists_close
        (values_of (codes "connection") (fields ++ header_bytes head.now header ∷ [])) }
{
    if is_same_word(header.name.of(head), b"connection") {
        found || has_close(header.value.of(head))
    } else {
        found
    }
}

/// Whether a field `Connection` lists `close`.
pub fn lists_close(head: &[u8], headers: &[HeaderSpan]) -> bool
    requires { All (IsHeaderWithin (length head.now)) headers.now }
    ensures { result ≡ list_any lists_close
        (values_of (codes "connection") (map (header_bytes head.now) headers.now)) }
{
    let mut found = false;
    for header in headers {
        found = closes_after(found, head, *header);
    }
    found
}

/// Whether the connection stays after the request of this head (RFC 9112, section 9.3).
pub fn keeps_connection(head: &[u8], parsed: &ParsedRequest) -> bool
    requires { request_spans.IsHeadOf head.now parsed.now }
    ensures { result
        ≡ keeps_connection parsed.now.spans.version (fields_of request_spans head.now parsed.now) }
{
    parsed.spans.version == 1 && !lists_close(head, &parsed.headers[..parsed.spans.headers])
}

/// The first value of a name, with one more field.
fn with_first<'b>(
    found: Option<&'b [u8]>,
    head: &'b [u8],
    header: HeaderSpan,
    name: &[u8],
) -> Option<&'b [u8]>
    requires { IsHeaderWithin (length head.now) header }
    ensures { (fields : Fields)
        → option_map (λ v. v.now) found.entry ≡ first_of (values_of name.now fields)
        → option_map (λ v. v.now) result
        ≡ first_of (values_of name.now (fields ++ header_bytes head.now header ∷ [])) }
{
    match found {
        Some(value) => Some(value),
        None => {
            if is_same_word(header.name.of(head), name) {
                Some(header.value.of(head))
            } else {
                None
            }
        }
    }
}

/// The value of the first field of that name, if there is one.
pub fn first_among<'b>(head: &'b [u8], headers: &[HeaderSpan], name: &[u8]) -> Option<&'b [u8]>
    requires { All (IsHeaderWithin (length head.now)) headers.now }
    ensures { option_map (λ v. v.now) result
        ≡ first_of (values_of name.now (map (header_bytes head.now) headers.now)) }
{
    let mut found = None;
    for header in headers {
        found = with_first(found, head, *header, name);
    }
    found
}
