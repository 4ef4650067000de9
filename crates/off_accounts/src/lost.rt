ghost use Rattle.std.specs.Prelude.{◌≡◌, false, Some};
ghost use Rattle.off_defs.specs.declared.keys.Key.{Key};
ghost use Rattle.off_defs.specs.declared.tables.Row.{Row};
ghost use Rattle.off_defs.specs.Tables.{is_after};
ghost use Rattle.off_account_rules.specs.Changes.{gives_up};
ghost use Rattle.off_rows.specs.KeyBytes.{IsRanged};
ghost use Rattle.off_accounts.specs.Searches.{is_given_up};
ghost use Rattle.off_accounts.specs.Walking.{AllBehind, is_past_first, is_past_last};

use crate::whose::{Whose, before_leases, is_past_leases, lease_address, lease_key};
use off_base::Ip4;
use off_defs::{Key, Pool};
use off_readers::has_address;

/// A pool in whose place there comes another one, or none.
#[derive(Clone, Copy, PartialEq, Eq)]
pub struct Lost {
    pub whose: Whose,
    pub old: Pool,
    pub new: Option<Pool>,
}

/// Whether the address is in no pool any more.
pub(crate) fn gives_up(lost: &Lost, address: Ip4) -> bool
    ensures { result ≡ gives_up (Some lost.now.old) lost.now.new address }
{
    match &lost.new {
        None => has_address(&lost.old, address),
        Some(new) => has_address(&lost.old, address) && !has_address(new, address),
    }
}

/// The place from which a walk finds all leases that are lost.
pub(crate) fn before_lost(lost: &Lost) -> Key
    ensures none { (entry : Key × Row) → is_after (Some result) entry ≡ false
        → is_given_up lost.now entry.0 ≡ false }
    ensures begins { AllBehind (is_past_first lost.now) result }
{
    let first = lost.old.first.0;
    if first == 0 {
        return before_leases(lost.whose);
    }
    lease_key(lost.whose, Ip4(first - 1))
}

/// Whether the walk has passed by all leases that are lost.
pub(crate) fn is_past_lost(lost: &Lost, key: Key) -> bool
    ensures last { result ≡ is_past_last lost.now key }
    ensures ranged { IsRanged key }
{
    match lease_address(lost.whose, key) {
        Some(address) => lost.old.last.0 < address.0,
        None => is_past_leases(lost.whose, &key),
    }
}
