ghost use Rattle.std.specs.Prelude.{◌≡◌, ◌∷◌};
ghost use Rattle.std.specs.Ordering.{nat_cmp};
ghost use Rattle.std.specs.Cmp.Lexicographic.{slice_cmp};
ghost use Rattle.std.specs.Int.{to_be_bytes, w64};
ghost use Rattle.off_keepmem.specs.Entries.{compared};

use off_base::Mac;
use off_defs::Key;
use std::cmp::Ordering;

/// How two keys stand to each other. Hardware addresses are compared as numbers, in one step.
#[tactic(auto, unfolding(crate::specs::Entries::compared))]
pub(crate) fn compared(a: &Key, b: &Key) -> Ordering
    ensures { result ≡ compared a.now b.now }
{
    match (*a, *b) {
        (Key::Modem(one), Key::Modem(other)) => compared_macs(one, other),
        (Key::Held(one), Key::Held(other)) => compared_macs(one, other),
        _ => a.cmp(b),
    }
}

// How two hardware addresses stand to each other.
fn compared_macs(a: Mac, b: Mac) -> Ordering
    ensures { result ≡ slice_cmp nat_cmp a.0 b.0 }
{
    number_of(&a.0).cmp(&number_of(&b.0))
}

/// The number that six bytes spell, the first the highest.
pub(crate) fn number_of(bytes: &[u8; 6]) -> u64
    ensures { to_be_bytes w64 result ≡ 0 ∷ 0 ∷ bytes.now }
{
    let [a, b, c, d, e, f] = *bytes;
    u64::from_be_bytes([0, 0, a, b, c, d, e, f])
}
