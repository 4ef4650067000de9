ghost use Rattle.std.specs.Prelude.{◌≡◌, ◌≢◌, ℕ, List, ◌++◌};
ghost use Rattle.off_http.specs.Request.{Meaning, Waits, RequestIs};

use crate::stages::{Stage, next_stage};

/// The bytes of a connection say one thing at most.
pub fn one_answer()
    ensures { (bytes : List ℕ) (one other : Meaning) → RequestIs bytes one → RequestIs bytes other
        → one ≡ other }
{}

/// Once the bytes of a connection say that they are a request, or none, they say so whatever
/// follows.
pub fn answers_stay()
    ensures { (bytes more : List ℕ) (meaning : Meaning) → RequestIs bytes meaning → meaning ≢ Waits
        → RequestIs (bytes ++ more) meaning }
{}

/// The bytes of a connection say something, whatever they are: together with `one_answer` exactly
/// one thing.
///
/// Whether bytes are a request head is known by reading them; it takes no memory.
pub fn some_answer(bytes: &[u8])
    ensures { (meaning : Meaning) × RequestIs bytes.now meaning }
{
    next_stage(bytes, 0, Stage::ReadingHead);
}
