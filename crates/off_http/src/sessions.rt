ghost use Rattle.std.specs.Prelude.{◌≡◌, ◌+◌, ◌<◌, [], ◌++◌, length, IfOk, OnOk, OnErr};
ghost use Rattle.off_http.specs.Request.{Waits, RequestIs, head_limit, body_limit};
ghost use Rattle.off_http.specs.Heard.{IsAsked, Answers, asked_method, asked_target, asked_body};
ghost use Rattle.off_http.specs.Heard.{IsPartOf};

use crate::answers::Fed;
use crate::stages::{Stage, next_stage, parts_of, piece_answer};
use off_base::{Bytes, NoMemory};
use std::alloc::Global;
use std::marker::Model;

/// One connection's request, in the making. Contracts see all the bytes that have come, and what
/// they say.
#[derive(Drop)]
pub struct Session {
    bytes: Bytes,
    stage: Stage,
}

impl Model for Session {
    ghost use Rattle.off_http.specs.Heard.{Heard};
    ghost use Rattle.off_http.specs.Stages.{StageHolds, answer_of};

    ghost Value = { Heard };

    ghost view = { λ s. record { bytes = s.bytes; answer = answer_of s.bytes s.stage } };

    ghost invariant = { λ s. StageHolds s.bytes s.stage };
}

impl Session {
    /// A session of which nothing has come. It takes no memory.
    pub fn new(alloc: Global) -> Session
        ensures empty { result.bytes ≡ [] }
        ensures waits { result.answer ≡ Waits }
        ensures says { RequestIs result.bytes result.answer }
    {
        Session {
            bytes: Bytes::new(alloc),
            stage: Stage::ReadingHead,
        }
    }

    /// Takes the next piece of the connection's bytes. After `NoMemory` the session is as before.
    ///
    /// A session that has answered `Whole` or `Bad` takes no more. One that waits holds fewer than
    /// 1,056,768 bytes, and each byte of a body costs no more than its copy.
    pub fn feed(&mut self, piece: &[u8]) -> Result<Fed, NoMemory>
        requires { self.old.answer ≡ Waits }
        ensures joins { OnOk result (self.new.bytes ≡ self.old.bytes ++ piece.now) }
        ensures says { OnOk result (RequestIs self.new.bytes self.new.answer) }
        ensures answers { IfOk result (λ fed. Answers fed self.new.answer) }
        ensures bounded { OnOk result (self.new.answer ≡ Waits
            → length self.new.bytes < head_limit + body_limit) }
        ensures err { OnErr result (self.new ≡ self.old) }
    {
        let seen = self.bytes.len();
        self.bytes.push_all(piece)?;
        self.stage = next_stage(self.bytes.as_slice(), seen, self.stage);
        Ok(piece_answer(&self.stage))
    }

    /// The method of the whole request, as it came (RFC 9110, section 9.1).
    pub fn method(&self) -> &[u8]
        requires { IsAsked self.now.answer }
        ensures value { result.now ≡ asked_method self.now.answer }
        ensures part { IsPartOf result.now self.now.bytes }
    {
        parts_of(&self.stage).method.of(self.bytes.as_slice())
    }

    /// The target of the whole request, as it came (RFC 9112, section 3.2).
    pub fn path(&self) -> &[u8]
        requires { IsAsked self.now.answer }
        ensures value { result.now ≡ asked_target self.now.answer }
        ensures part { IsPartOf result.now self.now.bytes }
    {
        parts_of(&self.stage).target.of(self.bytes.as_slice())
    }

    /// The body of the whole request, in its declared length (RFC 9112, section 6.2).
    pub fn body(&self) -> &[u8]
        requires { IsAsked self.now.answer }
        ensures value { result.now ≡ asked_body self.now.answer }
        ensures part { IsPartOf result.now self.now.bytes }
    {
        let parts = parts_of(&self.stage);
        &self.bytes.as_slice()[parts.head_len..parts.head_len + parts.body_len]
    }
}
