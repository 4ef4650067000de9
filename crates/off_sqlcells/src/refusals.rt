ghost use Rattle.std.specs.Prelude.{◌≡◌};
ghost use Rattle.off_sqlcells.specs.Refusals.{refused_of, told_as};

use off_base::NoMemory;
use off_outside::KeepErr;
use sqlite::{Error, ErrorCode};

/// Why a statement gave nothing.
#[derive(Clone, Copy, PartialEq, Eq)]
pub(crate) enum Refused {
    /// Memory was wanted, and refused.
    Memory,
    /// The store refused it, or a row isn't a key of 1 to 9 bytes and a value of bytes.
    Store,
}

impl From<Error> for Refused {
    ghost use Rattle.std.specs.Prelude.{◌≡◌};
    ghost use Rattle.off_sqlcells.specs.Refusals.{refusal_of};

    ghost from_gives = { λ err refused. refused ≡ refusal_of err };

    fn from(err: Error) -> Refused {
        match err {
            Error::SqliteFailure(code) => refused_by(code),
            _ => Refused::Store,
        }
    }
}

impl From<NoMemory> for Refused {
    ghost use Rattle.std.specs.Prelude.{◌≡◌};
    ghost use Rattle.off_sqlcells.specs.declared.refusals.Refused.TheVariants.{Memory};

    ghost from_gives = { λ _ refused. refused ≡ Memory };

    fn from(_refused: NoMemory) -> Refused {
        Refused::Memory
    }
}

fn refused_by(code: ErrorCode) -> Refused
    ensures { result ≡ refused_of code }
{
    match code {
        ErrorCode::OutOfMemory => Refused::Memory,
        _ => Refused::Store,
    }
}

// What a caller is told of it.
pub(crate) fn why(refused: Refused) -> KeepErr
    ensures { result ≡ told_as refused }
{
    match refused {
        Refused::Memory => KeepErr::Memory,
        Refused::Store => KeepErr::Failed,
    }
}
