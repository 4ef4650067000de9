ghost use Rattle.std.specs.Prelude.{◌≡◌, ◌+◌, ◌-◌, ◌*◌, ◌≤◌, IfSome};
ghost use Rattle.std.specs.Option.{SomeIff};
ghost use Rattle.off_base.specs.Number.{number_read};

/// Reads a number of 1 to 20 decimal digits, in ASCII, without a sign. Leading zeros are taken.
///
/// `None` comes exactly where the text has another form, or the number is over `most`.
pub fn read_number(text: &[u8], most: u64) -> Option<u64>
    ensures value { result ≡ number_read most text.now }
    ensures within { IfSome result (λ number. number ≤ most) }
{
    if text.is_empty() {
        return None;
    }
    if text.len() > 20 {
        return None;
    }
    let mut number: u64 = 0;
    for byte in text {
        let Some(next) = with_digit(number, *byte, most) else {
            return None;
        };
        number = next;
    }
    Some(number)
}

// The number with one more digit behind it, where the byte is a digit and `most` isn't passed.
fn with_digit(number: u64, byte: u8, most: u64) -> Option<u64>
    ensures { SomeIff result ((48 ≤ byte) × (byte ≤ 57) × (number * 10 + (byte - 48) ≤ most))
        (number * 10 + (byte - 48)) }
{
    if byte < b'0' {
        return None;
    }
    if byte > b'9' {
        return None;
    }
    let digit = u64::from(byte - b'0');
    let Some(tens) = number.checked_mul(10) else {
        return None;
    };
    let Some(next) = tens.checked_add(digit) else {
        return None;
    };
    if next <= most { Some(next) } else { None }
}
