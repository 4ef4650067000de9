ghost use Rattle.std.specs.Prelude.{◌≡◌, ◌+◌, ◌++◌, ◌≤◌, ◌<◌, List, length, IfSome, MatchOption};
ghost use Rattle.off_base.specs.Tree.{Tree, spelling};
ghost use Rattle.off_file_rules.specs.Block.{block};
ghost use Rattle.off_file_rules.specs.File.{IsBuilt, most_file_bytes};
ghost use Rattle.off_tftp.specs.Built.{CanBuild};

use off_base::{Ip4, Moment};
use off_files::{BlockPieces, Body, FileTail, pieces, tail};
use std::marker::Model;

// A file has at most so many bytes.
const MOST: usize = 6_200;

/// A modem's file, signed: its body and its tail. Contracts see its bytes.
#[derive(Drop)]
pub(crate) struct File {
    body: Body,
    tail: FileTail,
}

impl Model for File {
    ghost use Rattle.std.specs.Prelude.{List, ℕ, ◌+◌, ◌++◌, ◌≤◌, length};
    ghost use Rattle.off_file_rules.specs.File.{most_file_bytes};

    ghost Value = { List ℕ };

    ghost view = { λ f. f.body ++ f.tail };

    ghost invariant = { λ f. length f.body + length f.tail ≤ most_file_bytes };
}

impl File {
    /// The file of a profile's body for an address at a moment, under the site's secret. It takes
    /// no memory.
    ///
    /// `None` comes only for a body that no tables have.
    pub(crate) fn signed(body: Body, now: Moment, ip: Ip4, secret: &[u8]) -> Option<File>
        ensures built { (profile : List Tree) → body ≡ spelling profile
            → CanBuild secret.now profile now.0 ip
            → MatchOption result ⊥ (λ file. IsBuilt secret.now profile now.0 ip file) }
        ensures few { IfSome result (λ file. length file ≤ most_file_bytes) }
    {
        let tail = tail(&body, now, ip, secret);
        short_file(body, tail)
    }

    /// How many bytes the file has.
    pub(crate) fn len(&self) -> usize
        ensures len { result ≡ length self.now }
        ensures few { result ≤ most_file_bytes }
    {
        self.body.len() + self.tail.len()
    }

    /// Block `n` in its two pieces.
    pub(crate) fn block(&self, size: u16, n: u16) -> BlockPieces<'_>
        requires { 1 ≤ n }
        ensures { result.first.now ++ result.rest.now ≡ block self.now size n }
    {
        pieces(&self.body, &self.tail, size, u32::from(n))
    }
}

// The file of a body and a tail, where it isn't too long.
fn short_file(body: Body, tail: FileTail) -> Option<File>
    ensures { MatchOption result (most_file_bytes < length (body ++ tail))
        (λ file. (file ≡ body ++ tail) × (length file ≤ most_file_bytes)) }
{
    if body.len() > MOST {
        return None;
    }
    if body.len() + tail.len() > MOST {
        return None;
    }
    Some(File { body, tail })
}
