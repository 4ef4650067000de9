ghost use Rattle.std.specs.Prelude.{◌≡◌, ◌≤◌, MatchResult, Ok, None, true, IfOk, IfSome, length};
ghost use Rattle.std.specs.Prelude.{option_map};
ghost use Rattle.off_defs.specs.State.{Tables};
ghost use Rattle.off_account_rules.specs.Rows.{devices, device_pools};
ghost use Rattle.off_asking.specs.Choice.{pool_among};
ghost use Rattle.off_asking.specs.Claims.{refused_by};
ghost use Rattle.off_cpe_rules.specs.Behind.{device_case, chosen_in};
ghost use Rattle.off_cpe_rules.specs.Rules.{early};
ghost use Rattle.off_cpe_rules.specs.Steps.{device_step_in, step_behind, device_step};
ghost use Rattle.off_behind.specs.Buckets.{Indexes};
ghost use Rattle.off_behind.specs.Neighbours.{StandsIn, elsewhere};
ghost use Rattle.off_runs.specs.Held.{StandsFor};
ghost use Rattle.off_runs.specs.Leases.{ground};
ghost use Rattle.off_device_runs.specs.Ground.{device_ground};
ghost use Rattle.off_cpe.specs.Stages.{IsKnown, IsRead, HasGoodPool, own_rules};
ghost use Rattle.off_cpe.specs.Calls.{is_own, is_refused, LooksOnce, FindsNone};
ghost use Rattle.off_cpe.specs.Calls.{gather_calls, most_deciding, most_elsewhere};
ghost use Rattle.off_outside.specs.declared.keeper.KeepErr.TheVariants.{Memory};
ghost use Rattle.off_outside.specs.KeeperCalls.{Looks, Spent};

use crate::choosing::{choose, own_lease};
use crate::gathering::gather;
use crate::known::Known;
use crate::modems::{FoundModem, modem_behind};
use crate::ruling::{own_refusal, row_refusal};
use crate::settling::{refuse, settle, silent};
use off_asking::{Asked, client};
use off_base::{Ip4, Mac, Moment, NoMemory};
use off_behind::Devices;
use off_cpe_rules::{DeviceCase, DeviceStep};
use off_defs::{DeviceLease, Writes};
use off_device_runs::DeviceRuns;
use off_dhcp::Message;
use off_outside::{KeepErr, Keeper};
use off_runs::FreeRuns;
use std::alloc::Global;

/// What a device's message does, and by which lease.
#[derive(Drop)]
pub struct DeviceAnswer {
    pub step: DeviceStep,
    /// The device's own lease before, with its address, where rows were looked at.
    pub own: Option<(Ip4, DeviceLease)>,
}

/// What a device's message does at a moment: what is to be written, what is to be sent for it, and
/// the word with which the log has it; or `None` where the message is of no device. It writes
/// nothing.
///
/// It walks over all leases and all pools: who keeps what is known of them calls `answer_by`. The
/// tables needn't be good: an impossible row is taken as one that isn't there. `Failed` comes only
/// where the keeper counted a fault.
#[tactic(auto, using(crate::proofs::Chain::rows))]
pub fn answer<K: Keeper>(
    alloc: Global,
    keeper: &mut K,
    now: Moment,
    m: &Message<'_>,
) -> Result<Option<DeviceStep>, KeepErr>
    ensures { Looks result (K.seen keeper.old) (K.seen keeper.new)
        (λ step t. step ≡ device_step t now.0 m.now) }
{
    let devices = Devices::of(alloc, keeper)?;
    let pools = pools_at(alloc, keeper, now)?;
    let modems = modems_at(alloc, keeper, now)?;
    let answer = answer_read(alloc, keeper, &devices, &pools, &modems, now, m)?;
    Ok(step_of(answer))
}

// What a message does by what was read for it.
fn answer_read<K: Keeper>(
    alloc: Global,
    keeper: &mut K,
    index: &Devices,
    pools: &DeviceRuns,
    modems: &FreeRuns,
    now: Moment,
    m: &Message<'_>,
) -> Result<Option<DeviceAnswer>, KeepErr>
    ensures { Looks result (K.seen keeper.old) (K.seen keeper.new)
        (λ answer t. Indexes index.now (devices t)
        → StandsFor pools.now (device_ground t) now.0
        → StandsFor modems.now (ground t) now.0
        → option_map (λ a. a.step) answer ≡ device_step t now.0 m.now) }
{
    let known = Known {
        devices: index,
        pools,
        modems,
    };
    answer_by(alloc, keeper, &known, now, &Asked::of(m))
}

fn step_of(answer: Option<DeviceAnswer>) -> Option<DeviceStep>
    ensures { result ≡ option_map (λ a. a.step) answer }
{
    match answer {
        Some(DeviceAnswer { step, own: _ }) => Some(step),
        None => None,
    }
}

// The pools for devices with their free addresses, at a moment.
#[tactic(auto, using(crate::proofs::Chain::rows))]
fn pools_at<K: Keeper>(alloc: Global, keeper: &mut K, now: Moment) -> Result<DeviceRuns, KeepErr>
    ensures { Looks result (K.seen keeper.old) (K.seen keeper.new)
        (λ pools t. StandsFor pools (device_ground t) now.0) }
{
    let mut pools = DeviceRuns::of(alloc, keeper)?;
    pools.pass(now);
    Ok(pools)
}

// The pools of modems with their hubs, at a moment.
#[tactic(auto, using(crate::proofs::Chain::rows))]
fn modems_at<K: Keeper>(alloc: Global, keeper: &mut K, now: Moment) -> Result<FreeRuns, KeepErr>
    ensures { Looks result (K.seen keeper.old) (K.seen keeper.new)
        (λ modems t. StandsFor modems (ground t) now.0) }
{
    let mut modems = FreeRuns::of(alloc, keeper)?;
    modems.pass(now);
    Ok(modems)
}

/// What a device's message does at a moment, as `answer` says it, by what is known of the tables.
///
/// The leases behind a modem are those that the index has for the tables, and the pools, the free
/// addresses and the hubs are those that are kept for them at the moment. The tables needn't be
/// good: an impossible row is taken as one that isn't there. `Failed` comes only where the keeper
/// counted a fault.
///
/// It makes six calls of the keeper at most, and for a DISCOVER five, whatever the tables: one that
/// tells the modem, which for a DISCOVER reads its row; else one for that row; one for its
/// subscriber, two for the address that it holds and the lease of that, and one for the site of its
/// hub. A message that says by itself that it's no device's makes none; each other one that is none
/// makes one, and so does one that is refused by what it says itself. Two rows are written at most,
/// and of those at most one is the lease of another address than the device's own, where it's a
/// DISCOVER; else none.
#[tactic(auto, using(crate::proofs::Chain::rows), unfolding(off_cpe_rules::specs::Steps::device_step))]
pub fn answer_by<K: Keeper>(
    alloc: Global,
    keeper: &mut K,
    known: &Known<'_>,
    now: Moment,
    m: &Asked<'_>,
) -> Result<Option<DeviceAnswer>, KeepErr>
    ensures told { Looks result (K.seen keeper.old) (K.seen keeper.new)
        (λ answer t. IsKnown known.now.devices.now known.now.pools.now known.now.modems.now now.0 t
        → option_map (λ a. a.step) answer ≡ device_step t now.0 m.now) }
    ensures own { is_own m.now ≡ true → result ≡ Ok None }
    ensures spent { is_own m.now ≡ true → Spent 0 (K.seen keeper.old) (K.seen keeper.new) }
    ensures once { LooksOnce m.now (K.seen keeper.old) (K.seen keeper.new) }
    ensures idle { result ≡ Ok None → Spent 1 (K.seen keeper.old) (K.seen keeper.new) }
    ensures none { FindsNone result m.now (K.seen keeper.old) }
    ensures few { Spent (most_deciding m.now) (K.seen keeper.old) (K.seen keeper.new) }
    ensures few_refused { is_refused m.now ≡ true
        → Spent 1 (K.seen keeper.old) (K.seen keeper.new) }
    ensures stands { (t : Tables) → Indexes known.now.devices.now (devices t)
        → IfOk result (λ answer. IfSome answer (λ a. StandsIn a.own t)) }
    ensures writes { IfOk result (λ answer. IfSome answer (λ a. length a.step.writes ≤ 2)) }
    ensures aside { IfOk result (λ answer. IfSome answer
        (λ a. length (elsewhere a.own a.step.writes) ≤ most_elsewhere m.now)) }
{
    let modem = modem_behind(alloc, keeper, m)?;
    let Some(modem) = modem else {
        return Ok(None);
    };
    let answer = answer_behind(alloc, keeper, known, now, m, modem)?;
    Ok(Some(answer))
}

// What becomes of a message of a device behind a modem.
#[tactic(auto, using(crate::proofs::Chain::rows))]
fn answer_behind<K: Keeper>(
    alloc: Global,
    keeper: &mut K,
    known: &Known<'_>,
    now: Moment,
    m: &Asked<'_>,
    modem: FoundModem,
) -> Result<DeviceAnswer, KeepErr>
    ensures told { Looks result (K.seen keeper.old) (K.seen keeper.new)
        (λ answer t. IsKnown known.now.devices.now known.now.pools.now known.now.modems.now now.0 t
        → IsRead modem t → answer.step ≡ step_behind t now.0 m.now modem.mac) }
    ensures few { Spent (gather_calls modem) (K.seen keeper.old) (K.seen keeper.new) }
    ensures refused { is_refused m.now ≡ true
        → Spent 0 (K.seen keeper.old) (K.seen keeper.new) }
    ensures stands { (t : Tables) → Indexes known.now.devices.now (devices t)
        → IfOk result (λ answer. StandsIn answer.own t) }
    ensures writes { IfOk result (λ answer. length answer.step.writes ≤ 2) }
    ensures aside { IfOk result
        (λ answer. length (elsewhere answer.own answer.step.writes) ≤ most_elsewhere m.now) }
{
    match own_refusal(m) {
        Some(word) => Ok(DeviceAnswer {
            step: silent(Writes::new(alloc), word),
            own: None,
        }),
        None => answer_by_rows(alloc, keeper, known, now, m, modem),
    }
}

// What becomes of a message that isn't refused by what it says itself.
#[tactic(auto, using(crate::proofs::Chain::rows))]
fn answer_by_rows<K: Keeper>(
    alloc: Global,
    keeper: &mut K,
    known: &Known<'_>,
    now: Moment,
    m: &Asked<'_>,
    modem: FoundModem,
) -> Result<DeviceAnswer, KeepErr>
    requires { refused_by (own_rules m.now) ≡ None }
    ensures told { Looks result (K.seen keeper.old) (K.seen keeper.new)
        (λ answer t. IsKnown known.now.devices.now known.now.pools.now known.now.modems.now now.0 t
        → IsRead modem t → answer.step ≡ step_behind t now.0 m.now modem.mac) }
    ensures few { Spent (gather_calls modem) (K.seen keeper.old) (K.seen keeper.new) }
    ensures stands { (t : Tables) → Indexes known.now.devices.now (devices t)
        → IfOk result (λ answer. StandsIn answer.own t) }
    ensures writes { IfOk result (λ answer. length answer.step.writes ≤ 2) }
    ensures aside { IfOk result
        (λ answer. length (elsewhere answer.own answer.step.writes) ≤ most_elsewhere m.now) }
{
    let seen = known.devices.neighbours(now, modem.mac, client(m));
    let case = gather(alloc, keeper, known, &seen, now, m, modem)?;
    let step = judge(alloc, known.pools, now, m, modem.mac, &case, seen.own);
    with_lease(step, seen.own)
}

// What becomes of a message by the rows that are read, where the device has a lease that is known.
fn judge(
    alloc: Global,
    pools: &DeviceRuns,
    now: Moment,
    m: &Asked<'_>,
    modem: Mac,
    case: &DeviceCase,
    own: Option<(Ip4, DeviceLease)>,
) -> Result<DeviceStep, NoMemory>
    requires passed { refused_by (own_rules m.now) ≡ None }
    requires fits { HasGoodPool case.now }
    requires own { case.now.own ≡ option_map (λ lease. lease.0) own }
    ensures step { IfOk result (λ step. (t : Tables)
        → StandsFor pools.now (device_ground t) now.0 → StandsIn own t
        → case.now ≡ device_case t now.0 m.now modem
        → step ≡ step_behind t now.0 m.now modem) }
    ensures writes { IfOk result (λ step. length step.writes ≤ 2) }
    ensures aside { IfOk result
        (λ step. length (elsewhere own step.writes) ≤ most_elsewhere m.now) }
{
    match row_refusal(m, case) {
        Some(word) => refuse(alloc, m, case, word),
        None => settle_chosen(alloc, pools, now, m, modem, case, own),
    }
}

// What becomes of a message of which no early rule is broken.
fn settle_chosen(
    alloc: Global,
    pools: &DeviceRuns,
    now: Moment,
    m: &Asked<'_>,
    modem: Mac,
    case: &DeviceCase,
    own: Option<(Ip4, DeviceLease)>,
) -> Result<DeviceStep, NoMemory>
    requires early { refused_by (early m.now case.now) ≡ None }
    requires fits { HasGoodPool case.now }
    requires own { case.now.own ≡ option_map (λ lease. lease.0) own }
    ensures step { IfOk result (λ step. (t : Tables)
        → StandsFor pools.now (device_ground t) now.0 → StandsIn own t
        → case.now.pool ≡ pool_among (device_pools t) m.now
        → step ≡ device_step_in t now.0 modem m.now case.now (chosen_in t now.0 m.now case.now)) }
    ensures writes { IfOk result (λ step. length step.writes ≤ 2) }
    ensures aside { IfOk result
        (λ step. length (elsewhere own step.writes) ≤ most_elsewhere m.now) }
{
    let chosen = choose(pools, m, case);
    let lease = own_lease(own, chosen);
    settle(alloc, now, modem, m, case, chosen, lease)
}

// What a message does, with the lease that its device had.
fn with_lease(
    step: Result<DeviceStep, NoMemory>,
    own: Option<(Ip4, DeviceLease)>,
) -> Result<DeviceAnswer, KeepErr>
    ensures { MatchResult result (λ answer. (step ≡ Ok answer.step) × (answer.own ≡ own))
        (λ err. err ≡ Memory) }
{
    Ok(DeviceAnswer { step: step?, own })
}
