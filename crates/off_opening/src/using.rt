//! Who uses what, by the marks of all rows.

ghost use Rattle.std.specs.Prelude.{◌≡◌, ℕ, IfErr, IfOk, OnOk};
ghost use Rattle.off_base.specs.declared.macs.Mac.{Mac};
ghost use Rattle.off_defs.specs.State.{Tables};
ghost use Rattle.off_outside.specs.KeeperCalls.{Looks, WalksOnce};
ghost use Rattle.off_users.specs.Users.{StandsFor, named_by};
ghost use Rattle.off_opening.specs.Marks.{marks_of, named_mark, named_first};

use crate::marks::{Mark, Tie, read_marks};
use off_base::{Mac, NoMemory};
use off_defs::Key;
use off_outside::{KeepErr, Keeper};
use off_users::{Named, Users};
use std::alloc::Global;

/// What the modems of the tables name. It changes nothing.
///
/// An error is that of `open_tables`.
pub fn read_users<K: Keeper>(alloc: Global, keeper: &mut K) -> Result<Users, KeepErr>
    ensures told { Looks result (K.seen keeper.old) (K.seen keeper.new)
        (λ users t. StandsFor users t) }
    ensures walks { WalksOnce (K.seen keeper.old) (K.seen keeper.new) }
{
    let marks = read_marks(alloc, keeper)?;
    users_in(alloc, marks.as_slice())
}

/// What modems name in tables that have these marks.
pub(crate) fn users_in(alloc: Global, marks: &[Mark]) -> Result<Users, KeepErr>
    ensures ok { IfOk result (λ users. (t : Tables) → marks.now ≡ marks_of t
        → StandsFor users t) }
    ensures err { IfErr result (λ err. err ≡ KeepErr.Memory) }
{
    let mut users = Users::new(alloc);
    // From the last one on, so that what is noted is always what the first mark of a modem says.
    for passed in 0..marks.len() {
        let mark = &marks[marks.len() - 1 - passed];
        note_mark(&mut users, mark)?;
    }
    Ok(users)
}

// Notes what a mark's modem names, if it's a modem's.
fn note_mark(users: &mut Users, mark: &Mark) -> Result<(), NoMemory>
    ensures { OnOk result ((q : Mac) → named_by q users.new
        ≡ named_first (named_mark mark.now) q (named_by q users.old)) }
{
    match named_mark(mark) {
        Some((modem, named)) => users.note(modem, named),
        None => Ok(()),
    }
}

// The modem of a mark with what it names, if it's a modem's.
fn named_mark(mark: &Mark) -> Option<(Mac, Named)>
    ensures { result ≡ named_mark mark.now }
{
    match mark.key {
        Key::Modem(modem) => match mark.tie {
            Tie::Modem(subscriber, class) => Some((modem, Named { subscriber, class })),
            _ => None,
        },
        _ => None,
    }
}
