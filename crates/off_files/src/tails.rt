ghost use Rattle.std.specs.Prelude.{◌≡◌, ◌==◌, ◌+◌, ◌≤◌, ◌++◌, [], ◌∷◌, List, length};
ghost use Rattle.arrayvec.specs.ArrayVec.{array_vec_len};
ghost use Rattle.off_base.specs.Tree.{Tree, leaf, spelling};
ghost use Rattle.off_mic.specs.Mic.{cm_mic_of, cmts_mic_of, without_mics};
ghost use Rattle.off_mic.specs.Seal.{EndsPadded};
ghost use Rattle.off_mic.specs.Started.{NoneFirst};
ghost use Rattle.off_file_rules.specs.File.{stamps, IsBuilt};

use crate::bodies::Body;
use crate::held::{Held, push_all, push_setting};
use arrayvec::ArrayVec;
use off_base::{Ip4, Moment};
use off_defs::time_of_day;
use off_tlv::END_MARKER;
use std::marker::Model;

/// What stands in a file behind its body, at most 52 bytes, held in place. Contracts see its bytes.
#[derive(Drop)]
pub struct FileTail {
    held: Held,
}

impl Model for FileTail {
    ghost use Rattle.std.specs.Prelude.{List, ℕ};

    ghost Value = { List ℕ };

    ghost view = { λ t. t.held.items };
}

impl FileTail {
    /// How many bytes there are.
    pub fn len(&self) -> usize
        ensures count { result ≡ length self.now }
        ensures few { result ≤ 52 }
    {
        self.held.len()
    }

    /// Whether there are none.
    pub fn is_empty(&self) -> bool
        ensures { result ≡ (length self.now == 0) }
    {
        self.held.is_empty()
    }

    // The bytes.
    pub(crate) fn as_slice(&self) -> &[u8]
        ensures { result.now ≡ self.now }
    {
        self.held.as_slice()
    }
}

/// What makes a body the file for an address at a moment, under the site's secret (CM-SP-MULPIv3.1,
/// annex D.1): settings 19, 20, 6 and 7, the end marker, and zeros to a multiple of four bytes. It
/// takes no memory.
///
/// The body is to be spelled by a profile without settings 6 and 7. Of other bodies nothing is
/// said.
pub fn tail(body: &Body, now: Moment, ip: Ip4, secret: &[u8]) -> FileTail
    ensures { (profile : List Tree) → body.now ≡ spelling profile → without_mics profile ≡ profile
        → IsBuilt secret.now profile now.0 ip (body.now ++ result) }
{
    let mut held = stamped(now, ip);
    push_cm(body, &mut held);
    push_cmts(secret, body, &mut held);
    push_end(body, &mut held);
    FileTail { held }
}

// The settings of the moment and the address.
fn stamped(now: Moment, ip: Ip4) -> Held
    ensures items { result.items ≡ spelling (stamps now.0 ip) }
    ensures len { array_vec_len result ≡ 12 }
{
    let mut held = ArrayVec::new();
    push_setting(19, &time_of_day(now), &mut held);
    push_setting(20, &ip.0.to_be_bytes(), &mut held);
    held
}

// Appends the modem's integrity check of the body and what is held.
fn push_cm(body: &Body, held: &mut Held)
    requires { array_vec_len held.old ≤ 34 }
    ensures items { (front back : List Tree) → body.now ≡ spelling front
        → held.old.items ≡ spelling back
        → held.new.items ≡ spelling (back ++ leaf 6 (cm_mic_of (front ++ back)) ∷ []) }
    ensures len { array_vec_len held.new ≡ array_vec_len held.old + 18 }
{
    let mic = body.cm_mic(held.as_slice());
    push_setting(6, &mic, held);
}

// Appends the termination system's of the body and what is held, which has none of the codes that
// this value takes first.
fn push_cmts(secret: &[u8], body: &Body, held: &mut Held)
    requires { array_vec_len held.old ≤ 34 }
    ensures items { (front back : List Tree) → body.now ≡ spelling front
        → held.old.items ≡ spelling back → NoneFirst back
        → held.new.items ≡ spelling (back ++ leaf 7 (cmts_mic_of secret.now (front ++ back)) ∷ []) }
    ensures len { array_vec_len held.new ≡ array_vec_len held.old + 18 }
{
    let mic = body.cmts_mic(secret, held.as_slice());
    push_setting(7, &mic, held);
}

// Appends the end marker, and zeros to a multiple of four bytes of the body and what is held.
fn push_end(body: &Body, held: &mut Held)
    requires { array_vec_len held.old ≤ 48 }
    ensures { EndsPadded (body.now ++ held.old.items) (body.now ++ held.new.items) }
{
    push_all(&[END_MARKER], held);
    let pads = (4 - (body.len() % 4 + held.len()) % 4) % 4;
    push_all(&[0; 3][..pads], held);
}
