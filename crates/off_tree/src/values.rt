ghost use Rattle.std.specs.Prelude.{◌≡◌};
ghost use Rattle.off_tree.specs.Value.{number, in_range, is_name};

use crate::tables::Range;

impl Range {
    // Whether a value is in the range.
    pub(crate) fn has(self, value: &[u8]) -> bool
        ensures { result ≡ in_range self value.now }
    {
        match self {
            Range::Any => true,
            Range::Number { least, most } => match number(value) {
                Some(n) => least <= n && n <= most,
                None => false,
            },
            Range::Name => is_name(value),
        }
    }
}

// The number of one or two bytes.
pub(crate) fn number(value: &[u8]) -> Option<u16>
    ensures { result ≡ number value.now }
{
    match value {
        [a] => Some(u16::from(*a)),
        [a, b] => Some(u16::from(*a) * 256 + u16::from(*b)),
        _ => None,
    }
}

// Whether the last byte is 0, and no other byte.
fn is_name(value: &[u8]) -> bool
    ensures { result ≡ is_name value.now }
{
    for (place, byte) in value.iter().enumerate() {
        if *byte == 0 {
            return place + 1 == value.len();
        }
    }
    false
}
