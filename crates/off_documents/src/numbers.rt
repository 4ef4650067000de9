ghost use Rattle.std.specs.Prelude.{◌≡◌, ◌==◌, ◌<◌, length, slice_index, option_map};
ghost use Rattle.std.specs.Prelude.{◌∷◌, [], IsTrue, IfSome, decimal, true, false};
ghost use Rattle.serde_json.specs.Find.{as_u64, as_i64};
ghost use Rattle.serde_json.specs.Read.{number_of, number_from, float_of};

use fast_float::Numeral;

// A number of a JSON text: an integer of 64 bits, or the nearest float.
#[derive(Clone, Copy, Drop)]
pub(crate) enum Number {
    Unsigned(u64),
    Negative(i64),
    Float(f64),
}

impl Number {
    ghost use Rattle.off_documents.specs.Numbers.{num_of};

    // The number that its text in JSON (RFC 8259, section 6) means, or None where it's too large
    // for a float.
    pub(crate) fn read(text: &str) -> Option<Number>
        ensures { option_map num_of result ≡ number_of text.now }
    {
        let bytes = text.as_bytes();
        match small_number(bytes) {
            Some(number) => Some(Number::Unsigned(u64::from(number))),
            None => Number::scanned(text),
        }
    }

    // The same of any text. It's kept out of the walks that read numbers, which mostly have small
    // ones: what it has of locals would be set up at each.
    #[inline(never)]
    fn scanned(text: &str) -> Option<Number>
        ensures { option_map num_of result ≡ number_of text.now }
    {
        let bytes = text.as_bytes();
        if has_minus(bytes) {
            Number::negative(&Numeral::scan(&bytes[1..]))
        } else {
            Number::unsigned(&Numeral::scan(bytes))
        }
    }

    fn unsigned(numeral: &Numeral<'_>) -> Option<Number>
        ensures { option_map num_of result ≡ number_from false numeral.now }
    {
        match numeral.to_u64() {
            Some(number) => Some(Number::Unsigned(number)),
            None => Number::nearest(false, numeral),
        }
    }

    fn negative(numeral: &Numeral<'_>) -> Option<Number>
        ensures { option_map num_of result ≡ number_from true numeral.now }
    {
        if let Some(number) = numeral.to_i64(true) {
            if number < 0 {
                return Some(Number::Negative(number));
            }
        }
        Number::nearest(true, numeral)
    }

    fn nearest(negative: bool, numeral: &Numeral<'_>) -> Option<Number>
        ensures { option_map num_of result ≡ float_of negative numeral.now }
    {
        let number = numeral.to_float::<f64>(negative);
        if number.is_finite() {
            Some(Number::Float(number))
        } else {
            None
        }
    }

    pub(crate) fn as_u64(self) -> Option<u64>
        ensures { result ≡ as_u64 (num_of self) }
    {
        match self {
            Number::Unsigned(number) => Some(number),
            Number::Negative(_) => None,
            Number::Float(_) => None,
        }
    }

    pub(crate) fn as_i64(self) -> Option<i64>
        ensures { result ≡ as_i64 (num_of self) }
    {
        match self {
            Number::Unsigned(number) => i64::try_from(number).ok(),
            Number::Negative(number) => Some(number),
            Number::Float(_) => None,
        }
    }
}

// The number that a text of one digit or two is. Bodies with the most numbers have only such.
fn small_number(bytes: &[u8]) -> Option<u8>
    ensures is { IfSome result (λ number. bytes.now ≡ decimal number) }
    ensures below { IfSome result (λ number. number < 100) }
{
    match bytes.len() {
        1 => digit_of(bytes[0]),
        2 => two_digits(bytes[0], bytes[1]),
        _ => None,
    }
}

// The number of two digits, of which the first isn't 0.
fn two_digits(first: u8, second: u8) -> Option<u8>
    ensures is { IfSome result (λ number. first ∷ second ∷ [] ≡ decimal number) }
    ensures below { IfSome result (λ number. number < 100) }
{
    let tens = digit_of(first)?;
    let ones = digit_of(second)?;
    if tens == 0 {
        return None;
    }
    Some(10 * tens + ones)
}

// The number of one digit.
fn digit_of(byte: u8) -> Option<u8>
    ensures is { IfSome result (λ digit. byte ∷ [] ≡ decimal digit) }
    ensures below { IfSome result (λ digit. digit < 10) }
{
    if byte.is_ascii_digit() {
        Some(byte - b'0')
    } else {
        None
    }
}

fn has_minus(bytes: &[u8]) -> bool
    ensures value { result ≡ (slice_index bytes.now 0 == 45) }
    ensures some { IsTrue result → 0 < length bytes.now }
{
    !bytes.is_empty() && bytes[0] == b'-'
}
