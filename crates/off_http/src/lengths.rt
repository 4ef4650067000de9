ghost use Rattle.std.specs.Prelude.{◌≡◌, ◌==◌, true, length, map, codes, All};
ghost use Rattle.std.specs.Option.{option_map_or};
ghost use Rattle.std.specs.List.{list_any};
ghost use Rattle.std.specs.Str.{str_eq_ignore_ascii_case};
ghost use Rattle.httparse.specs.Spans.{IsHeaderWithin, header_bytes};
ghost use Rattle.off_http.specs.Request.{is_named, values_of, length_read, common_number};
ghost use Rattle.off_http.specs.Request.{declared_length};

use httparse::spans::HeaderSpan;
use off_base::read_number;

// The length of the body that the fields of a head declare.
pub(crate) fn declared_body(text: &[u8], fields: &[HeaderSpan]) -> Option<u64>
    requires { All (IsHeaderWithin (length text.now)) fields.now }
    ensures { result ≡ declared_length (map (header_bytes text.now) fields.now) }
{
    if has_field(text, fields, b"transfer-encoding")
        || has_field(text, fields, b"content-encoding")
    {
        return None;
    }
    content_length(text, fields)
}

// Whether a field has this name.
fn has_field(text: &[u8], fields: &[HeaderSpan], name: &[u8]) -> bool
    requires { All (IsHeaderWithin (length text.now)) fields.now }
    ensures { result ≡ list_any (is_named name.now) (map (header_bytes text.now) fields.now) }
{
    for field in fields {
        if is_name(field.name.of(text), name) {
            return true;
        }
    }
    false
}

// The one number that all fields of the name declare, and 0 where there are none.
fn content_length(text: &[u8], fields: &[HeaderSpan]) -> Option<u64>
    requires { All (IsHeaderWithin (length text.now)) fields.now }
    ensures { result ≡ common_number (map length_read
        (values_of (codes "content-length") (map (header_bytes text.now) fields.now))) }
{
    let mut declared: Option<u64> = None;
    for field in fields {
        if is_name(field.name.of(text), b"content-length") {
            let Some(number) = body_length(field.value.of(text)) else {
                return None;
            };
            if !agrees(declared, number) {
                return None;
            }
            declared = Some(number);
        }
    }
    Some(declared.unwrap_or(0))
}

// Whether two names are the same. Case doesn't count.
fn is_name(one: &[u8], other: &[u8]) -> bool
    ensures { result ≡ str_eq_ignore_ascii_case one.now other.now }
{
    one.eq_ignore_ascii_case(other)
}

// A length of 1 to 10 decimal digits.
fn body_length(value: &[u8]) -> Option<u64>
    ensures { result ≡ length_read value.now }
{
    if value.len() <= 10 {
        read_number(value, 9_999_999_999)
    } else {
        None
    }
}

// Whether no earlier length differs from this one.
fn agrees(earlier: Option<u64>, number: u64) -> bool
    ensures { result ≡ option_map_or (λ declared. declared == number) earlier true }
{
    match earlier {
        Some(declared) => declared == number,
        None => true,
    }
}
