ghost use Rattle.std.specs.Prelude.{◌≡◌, ◌+◌, ◌<◌, ◌≤◌, [], length, drop, MatchOption};
ghost use Rattle.std.specs.Prelude.{IfOk, IfErr, IfSome, IfNone};
ghost use Rattle.off_tlv.specs.Fault.{IsShort};
ghost use Rattle.off_tlv.specs.Walk.{TakesSetting, TakesAt};

use std::marker::Model;

/// A setting as it stands in the bytes that a walk goes over: its code, its value, and the place of
/// its code.
#[derive(Clone, Copy)]
pub struct Tlv<'a> {
    pub code: u8,
    pub value: &'a [u8],
    pub place: usize,
}

/// A walk over the settings of one level, in which every code has a length. It lends parts of the
/// bytes.
#[derive(Drop)]
pub struct Tlvs<'a> {
    bytes: &'a [u8],
    place: usize,
}

impl<'a> Model for Tlvs<'a> {
    ghost use Rattle.std.specs.Prelude.{◌≤◌, length, drop};
    ghost use Rattle.off_tlv.specs.Walk.{Walk};

    ghost Value = { Walk };

    ghost view = { λ w. record { place = w.place; rest = drop w.place w.bytes.now } };

    ghost invariant = { λ w. w.place ≤ length w.bytes.now };
}

impl<'a> Tlvs<'a> {
    /// A walk that begins at the first byte.
    pub fn over(bytes: &'a [u8]) -> Tlvs<'a>
        ensures { result ≡ record { place = 0; rest = bytes.now } }
    {
        Tlvs { bytes, place: 0 }
    }

    /// The next setting, or none at the end of the bytes.
    ///
    /// The `Err` is the place of a setting that passes the end. After it the walk is as before.
    pub fn next(&mut self) -> Result<Option<Tlv<'a>>, usize>
        ensures taken { IfOk result
            (λ found. IfSome found (λ tlv. TakesSetting self.old tlv.code tlv.value.now self.new)) }
        ensures place { IfOk result (λ found. IfSome found (λ tlv. tlv.place ≡ self.old.place)) }
        ensures end { IfOk result
            (λ found. IfNone found ((self.old.rest ≡ []) × (self.new ≡ self.old))) }
        ensures cut { IfErr result
            (λ place. IsShort self.old.rest × (place ≡ self.old.place) × (self.new ≡ self.old)) }
    {
        let place = self.place;
        if place == self.bytes.len() {
            return Ok(None);
        }
        match value_at(self.bytes, place) {
            None => Err(place),
            Some(value) => {
                self.place = place + 2 + value.len();
                Ok(Some(Tlv {
                    code: self.bytes[place],
                    value,
                    place,
                }))
            }
        }
    }
}

// The value of the setting whose code stands at a place, where it is whole.
pub(crate) fn value_at(bytes: &[u8], place: usize) -> Option<&[u8]>
    requires { place < length bytes.now }
    ensures { MatchOption result (IsShort (drop place bytes.now))
        (λ value. TakesAt bytes.now place value.now) }
{
    if place + 1 == bytes.len() {
        return None;
    }
    let start = place + 2;
    let length = usize::from(bytes[place + 1]);
    if length > bytes.len() - start {
        return None;
    }
    Some(&bytes[start..start + length])
}
