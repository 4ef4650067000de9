ghost use Rattle.std.specs.Prelude.{◌≡◌};

use crate::keeper::Keeper;

/// A moment of a keeper's clock, which each item is sent with: so a link in memory tells what a
/// crash at that moment, or later, may leave. A keeper alone makes it.
#[derive(Clone, Copy)]
pub struct Pass {
    moment: u64,
}

impl Pass {
    /// The moment at which the keeper is.
    pub fn of<K: Keeper>(keeper: &K) -> Pass
        ensures { result.moment ≡ (K.seen keeper.now).moment }
    {
        Pass {
            moment: keeper.moment(),
        }
    }

    /// The moment.
    pub fn moment(self) -> u64
        ensures { result ≡ self.moment }
    {
        self.moment
    }
}
