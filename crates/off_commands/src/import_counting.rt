//! How many rows of a kind there are behind one more.

ghost use Rattle.off_commands.specs.Imports.{IsCounted};

use off_account_rules::Counts;
use off_accounts::{counts_put, limit_rule};
use off_defs::Kind;
use off_orders::Rule;

/// The counts behind a put of a row of the kind at a key that has a row already, or hasn't, or the
/// rule that there may be only so many.
pub(crate) fn count_put(counts: &Counts, kind: Kind, is_there: bool) -> Result<Counts, Rule>
    ensures { IsCounted counts.now kind is_there result }
{
    match limit_rule(counts, kind, is_there) {
        Some(broken) => Err(broken),
        None => Ok(counts_put(counts, kind, is_there)),
    }
}
