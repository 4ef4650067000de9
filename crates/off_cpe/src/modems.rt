//! Which modem the client of a message is behind.

ghost use Rattle.std.specs.Prelude.{◌≡◌, ◌||◌, Ok, Some, None, option_map, option_and_then};
ghost use Rattle.std.specs.Prelude.{true, is_some, IfOk, IfSome};
ghost use Rattle.off_asking.specs.Asking.{is_discover, is_request, is_release};
ghost use Rattle.off_cpe_rules.specs.Behind.{is_another, named_modem, modem_for};
ghost use Rattle.off_cpe_rules.specs.Behind.{recorded_modem, modem_behind};
ghost use Rattle.off_cpe.specs.Calls.{is_own, is_own_by};
ghost use Rattle.off_cpe.specs.Stages.{IsFound};
ghost use Rattle.off_outside.specs.KeeperCalls.{Looks, Spent};

use off_asking::{Asked, Kind, client, is_relay_cut, relayed};
use off_base::Mac;
use off_behind::{is_mac, owner_of};
use off_defs::{DeviceLease, Modem};
use off_outside::{KeepErr, Keeper};
use off_readers::{read_device, read_modem};
use std::alloc::Global;

/// The modem that a device is behind.
#[derive(Clone, Copy, PartialEq, Eq)]
pub(crate) struct FoundModem {
    pub(crate) mac: Mac,
    /// The number of its subscriber, where its row was read.
    pub(crate) subscriber: Option<u32>,
}

/// The modem that the client is behind, where it's a device. It's one call at most. For a DISCOVER
/// it's the modem's row that is read.
#[tactic(auto, using(crate::proofs::Chain::rows), unfolding(off_cpe_rules::specs::Behind::modem_behind))]
pub(crate) fn modem_behind<K: Keeper>(
    alloc: Global,
    keeper: &mut K,
    m: &Asked<'_>,
) -> Result<Option<FoundModem>, KeepErr>
    ensures told { Looks result (K.seen keeper.old) (K.seen keeper.new)
        (λ found t. IsFound found t (modem_behind t m.now)) }
    ensures own { is_own m.now ≡ true → result ≡ Ok None }
    ensures spent { is_own m.now ≡ true → Spent 0 (K.seen keeper.old) (K.seen keeper.new) }
    ensures once { Spent 1 (K.seen keeper.old) (K.seen keeper.new) }
    ensures discovered { is_discover m.now ≡ true
        → IfOk result (λ found. IfSome found (λ modem. is_some modem.subscriber ≡ true)) }
{
    if is_relay_cut(m) {
        return Ok(None);
    }
    match relayed(m) {
        Some(remote) => named_modem(alloc, keeper, m, remote),
        None => recorded_modem(alloc, keeper, m),
    }
}

// The modem that the relay names, where it's on record and another than the client.
#[tactic(auto, using(crate::proofs::Chain::rows))]
fn named_modem<K: Keeper>(
    alloc: Global,
    keeper: &mut K,
    m: &Asked<'_>,
    remote: Mac,
) -> Result<Option<FoundModem>, KeepErr>
    ensures told { Looks result (K.seen keeper.old) (K.seen keeper.new)
        (λ found t. IsFound found t (named_modem t m.now remote)) }
    ensures own { is_own_by m.now (Some remote) ≡ true → result ≡ Ok None }
    ensures spent { is_own_by m.now (Some remote) ≡ true
        → Spent 0 (K.seen keeper.old) (K.seen keeper.new) }
    ensures once { Spent 1 (K.seen keeper.old) (K.seen keeper.new) }
    ensures read { IfOk result (λ found. IfSome found (λ modem. is_some modem.subscriber ≡ true)) }
{
    if !is_another(m, remote) {
        return Ok(None);
    }
    let row = read_modem(alloc, keeper, remote)?;
    Ok(on_record(remote, row))
}

fn is_another(m: &Asked<'_>, remote: Mac) -> bool
    ensures { result ≡ is_another m.now remote }
{
    let client = client(m);
    remote.0.as_slice() != client.0.as_slice()
}

// The modem by its row, where it has one.
fn on_record(mac: Mac, row: Option<Modem>) -> Option<FoundModem>
    ensures { result ≡ option_map
        (λ row. record { mac = mac; subscriber = Some row.subscriber }) row }
{
    match row {
        Some(row) => Some(FoundModem {
            mac,
            subscriber: Some(row.subscriber),
        }),
        None => None,
    }
}

// The modem of the lease that the client has, where it renews or releases it.
#[tactic(auto, using(crate::proofs::Chain::rows))]
fn recorded_modem<K: Keeper>(
    alloc: Global,
    keeper: &mut K,
    m: &Asked<'_>,
) -> Result<Option<FoundModem>, KeepErr>
    ensures told { Looks result (K.seen keeper.old) (K.seen keeper.new)
        (λ found t. IsFound found t (recorded_modem t m.now)) }
    ensures own { is_own_by m.now None ≡ true → result ≡ Ok None }
    ensures spent { is_own_by m.now None ≡ true
        → Spent 0 (K.seen keeper.old) (K.seen keeper.new) }
    ensures once { Spent 1 (K.seen keeper.old) (K.seen keeper.new) }
{
    if !is_of_a_lease(m) {
        return Ok(None);
    }
    let lease = read_device(alloc, keeper, m.ciaddr())?;
    Ok(unread(modem_for(client(m), lease)))
}

// A modem whose row isn't read.
fn unread(modem: Option<Mac>) -> Option<FoundModem>
    ensures { result ≡ option_map (λ mac. record { mac = mac; subscriber = None }) modem }
{
    let mac = modem?;
    Some(FoundModem {
        mac,
        subscriber: None,
    })
}

fn is_of_a_lease(m: &Asked<'_>) -> bool
    ensures { result ≡ (is_request m.now || is_release m.now) }
{
    match m.kind() {
        Kind::Request | Kind::Release => true,
        Kind::Discover | Kind::Decline | Kind::Other(_) => false,
    }
}

// The modem of a lease, where the lease is this device's.
fn modem_for(device: Mac, lease: Option<DeviceLease>) -> Option<Mac>
    ensures { result ≡ option_and_then (modem_for device) lease }
{
    let lease = lease?;
    let owner = owner_of(lease.hold)?;
    if is_mac(device, owner.1) {
        Some(owner.0)
    } else {
        None
    }
}
