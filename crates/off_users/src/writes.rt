//! Which writes change what a modem names.

ghost use Rattle.std.specs.Prelude.{◌≡◌, cond, IfSome};
ghost use Rattle.off_users.specs.Writes.{named_in_row, named_write, puts_modem, modem_puts};

use crate::named::Named;
use off_base::Mac;
use off_defs::{Key, Row, Write, Writes};

/// What a write makes of what a modem names, or `None` where it's of no modem.
pub(crate) fn named_write(write: &Write) -> Option<(Mac, Option<Named>)>
    ensures is { result ≡ named_write write.now }
    ensures puts { IfSome result (λ w. IfSome w.1 (λ _. puts_modem write.now ≡ 1)) }
{
    match write {
        Write::Put(Key::Modem(modem), row) => Some((*modem, named_in_row(row))),
        Write::Drop(Key::Modem(modem)) => Some((*modem, None)),
        _ => None,
    }
}

// What the row of a modem names, or `None` where it's of another kind.
fn named_in_row(row: &Row) -> Option<Named>
    ensures { result ≡ named_in_row row.now }
{
    match row {
        Row::Modem(modem) => Some(Named {
            subscriber: modem.subscriber,
            class: modem.class,
        }),
        _ => None,
    }
}

/// How many writes put a modem.
pub(crate) fn count_puts(writes: &Writes) -> usize
    ensures { result ≡ modem_puts writes.now }
{
    let mut puts = 0;
    for place in 0..writes.len() {
        if puts_modem(writes.get(place)) {
            puts += 1;
        }
    }
    puts
}

// Whether a write puts a modem.
fn puts_modem(write: &Write) -> bool
    ensures { puts_modem write.now ≡ cond result 1 0 }
{
    matches!(*write, Write::Put(Key::Modem(_), _))
}
