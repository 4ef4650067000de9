ghost use Rattle.std.specs.Prelude.{◌≡◌, ◌≤◌, length, take};
ghost use Rattle.off_http.specs.Stages.{HasHead, StageHolds, IsFinished, stage_fed};

use crate::answers::{Fed, HttpFault};
use crate::heads::{HEAD_LIMIT, Parts, blank_line_at, head_room, read_head};

// How far a session has come.
#[derive(Clone, Copy)]
pub(crate) enum Stage {
    // No blank line has come.
    ReadingHead,
    // The head has come, and its body hasn't in its length.
    ReadingBody(Parts),
    // The request is whole.
    Finished(Parts),
    // The bytes are no request.
    Failed(HttpFault),
}

// The stage when more bytes have come behind the first `seen`, at which it was `stage`.
pub(crate) fn next_stage(bytes: &[u8], seen: usize, stage: Stage) -> Stage
    requires seen_in { seen ≤ length bytes.now }
    requires held { StageHolds (take seen bytes.now) stage }
    ensures { StageHolds bytes.now result }
{
    match stage {
        Stage::ReadingHead => search_head(bytes, seen),
        Stage::ReadingBody(parts) => await_body(bytes, parts),
        Stage::Finished(parts) => Stage::Finished(parts),
        Stage::Failed(fault) => Stage::Failed(fault),
    }
}

// The stage of bytes that had no blank line among the first `seen`.
fn search_head(bytes: &[u8], seen: usize) -> Stage
    requires seen_in { seen ≤ length bytes.now }
    requires held { StageHolds (take seen bytes.now) Stage.ReadingHead }
    ensures { StageHolds bytes.now result }
{
    match blank_line_at(head_room(bytes), seen) {
        Some(at) => match read_head(&bytes[..at + 4]) {
            Ok(parts) => await_body(bytes, parts),
            Err(fault) => Stage::Failed(fault),
        },
        None => {
            if bytes.len() < HEAD_LIMIT {
                Stage::ReadingHead
            } else {
                Stage::Failed(HttpFault::TooLong)
            }
        }
    }
}

// The stage of bytes that begin with a head.
fn await_body(bytes: &[u8], parts: Parts) -> Stage
    requires { HasHead bytes.now parts }
    ensures { StageHolds bytes.now result }
{
    if bytes.len() - parts.head_len < parts.body_len {
        Stage::ReadingBody(parts)
    } else {
        Stage::Finished(parts)
    }
}

// Where the parts of a whole request stand.
pub(crate) fn parts_of(stage: &Stage) -> Parts
    requires { IsFinished stage.now }
    ensures { stage.now ≡ Stage.Finished result }
{
    match stage {
        Stage::Finished(parts) => *parts,
        _ => unreachable!(),
    }
}

// What a session at this stage answers to a piece.
pub(crate) fn piece_answer(stage: &Stage) -> Fed
    ensures { result ≡ stage_fed stage.now }
{
    match stage {
        Stage::ReadingHead => Fed::Wait,
        Stage::ReadingBody(_) => Fed::Wait,
        Stage::Finished(_) => Fed::Whole,
        Stage::Failed(fault) => Fed::Bad(*fault),
    }
}
