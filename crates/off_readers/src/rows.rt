//! The rows of each kind by their keys. Each function is one call of the keeper, and takes an
//! impossible row as none.

ghost use Rattle.std.specs.Prelude.{◌≡◌, option_and_then};
ghost use Rattle.off_account_rules.specs.Rows.{hub_in, pool_hub_in, number_or_0};
ghost use Rattle.off_account_rules.specs.Rows.{subscriber_in, add_on_in, modem_in, class_in};
ghost use Rattle.off_account_rules.specs.Rows.{pool_in, lease_in, held_in, batch_in};
ghost use Rattle.off_account_rules.specs.Rows.{device_pool_in, device_in, as_device};
ghost use Rattle.off_account_rules.specs.Rows.{as_site, as_subscriber, as_add_on, as_modem};
ghost use Rattle.off_account_rules.specs.Rows.{as_class};
ghost use Rattle.off_account_rules.specs.Rows.{as_pool, as_pool_hub, as_lease, as_held, as_batch};
ghost use Rattle.off_outside.specs.KeeperCalls.{Looks, Spent, WasCounted};

use crate::reading::read_row;
use off_base::{Ip4, Mac};
use off_defs::{
    Batch, Class, DeviceLease, Key, Lease, Modem, Pool, Row, SharedSettings, Site, Subscriber,
};
use off_outside::{KeepErr, Keeper};
use std::alloc::Global;

/// The site of a hub, or `None` where there is none.
pub fn read_hub<K: Keeper>(alloc: Global, keeper: &mut K, n: u32) -> Result<Option<Site>, KeepErr>
    ensures told { Looks result (K.seen keeper.old) (K.seen keeper.new)
        (λ site t. site ≡ hub_in t n) }
    ensures counted { WasCounted (K.seen keeper.old) (K.seen keeper.new) }
{
    Ok(as_site(read_row(alloc, keeper, &Key::Hub(n))?))
}

/// The site of a hub that there may be. Where there is no hub, no call is made.
#[tactic(auto, using(off_outside::proofs::KeeperLemmas::reads_as))]
pub fn read_site<K: Keeper>(
    alloc: Global,
    keeper: &mut K,
    hub: Option<u32>,
) -> Result<Option<Site>, KeepErr>
    ensures told { Looks result (K.seen keeper.old) (K.seen keeper.new)
        (λ site t. site ≡ option_and_then (hub_in t) hub) }
    ensures spent { Spent 1 (K.seen keeper.old) (K.seen keeper.new) }
{
    match hub {
        Some(n) => read_hub(alloc, keeper, n),
        None => Ok(None),
    }
}

/// The number of a pool's hub, which is 0 where none is named.
pub fn read_pool_hub<K: Keeper>(alloc: Global, keeper: &mut K, n: u32) -> Result<u32, KeepErr>
    ensures told { Looks result (K.seen keeper.old) (K.seen keeper.new)
        (λ hub t. hub ≡ pool_hub_in t n) }
    ensures counted { WasCounted (K.seen keeper.old) (K.seen keeper.new) }
{
    Ok(named_hub(read_row(alloc, keeper, &Key::PoolHub(n))?))
}

/// The subscriber of a number, or `None` where there is none.
pub fn read_subscriber<K: Keeper>(
    alloc: Global,
    keeper: &mut K,
    n: u32,
) -> Result<Option<Subscriber>, KeepErr>
    ensures told { Looks result (K.seen keeper.old) (K.seen keeper.new)
        (λ subscriber t. subscriber ≡ subscriber_in t n) }
    ensures counted { WasCounted (K.seen keeper.old) (K.seen keeper.new) }
{
    Ok(as_subscriber(read_row(alloc, keeper, &Key::Subscriber(n))?))
}

/// The settings of a subscriber's add-on, or `None` where there is none.
pub fn read_add_on<K: Keeper>(
    alloc: Global,
    keeper: &mut K,
    n: u32,
    number: u8,
) -> Result<Option<SharedSettings>, KeepErr>
    ensures told { Looks result (K.seen keeper.old) (K.seen keeper.new)
        (λ add_on t. add_on ≡ add_on_in t n number) }
    ensures counted { WasCounted (K.seen keeper.old) (K.seen keeper.new) }
{
    Ok(as_add_on(read_row(alloc, keeper, &Key::AddOn(n, number))?))
}

/// The modem of a hardware address, or `None` where there is none.
pub fn read_modem<K: Keeper>(
    alloc: Global,
    keeper: &mut K,
    mac: Mac,
) -> Result<Option<Modem>, KeepErr>
    ensures told { Looks result (K.seen keeper.old) (K.seen keeper.new)
        (λ modem t. modem ≡ modem_in t mac) }
    ensures counted { WasCounted (K.seen keeper.old) (K.seen keeper.new) }
{
    Ok(as_modem(read_row(alloc, keeper, &Key::Modem(mac))?))
}

/// The class of a number, or `None` where there is none.
pub fn read_class<K: Keeper>(
    alloc: Global,
    keeper: &mut K,
    n: u32,
) -> Result<Option<Class>, KeepErr>
    ensures told { Looks result (K.seen keeper.old) (K.seen keeper.new)
        (λ class t. class ≡ class_in t n) }
    ensures counted { WasCounted (K.seen keeper.old) (K.seen keeper.new) }
{
    Ok(as_class(read_row(alloc, keeper, &Key::Class(n))?))
}

/// The pool of a number, or `None` where there is none.
pub fn read_pool<K: Keeper>(alloc: Global, keeper: &mut K, n: u32) -> Result<Option<Pool>, KeepErr>
    ensures told { Looks result (K.seen keeper.old) (K.seen keeper.new)
        (λ pool t. pool ≡ pool_in t n) }
    ensures counted { WasCounted (K.seen keeper.old) (K.seen keeper.new) }
{
    Ok(as_pool(read_row(alloc, keeper, &Key::Pool(n))?))
}

/// The pool for devices of a number, or `None` where there is none.
pub fn read_device_pool<K: Keeper>(
    alloc: Global,
    keeper: &mut K,
    n: u32,
) -> Result<Option<Pool>, KeepErr>
    ensures told { Looks result (K.seen keeper.old) (K.seen keeper.new)
        (λ pool t. pool ≡ device_pool_in t n) }
    ensures counted { WasCounted (K.seen keeper.old) (K.seen keeper.new) }
{
    Ok(as_pool(read_row(alloc, keeper, &Key::DevicePool(n))?))
}

/// The lease of a device's address, or `None` where there is none.
pub fn read_device<K: Keeper>(
    alloc: Global,
    keeper: &mut K,
    address: Ip4,
) -> Result<Option<DeviceLease>, KeepErr>
    ensures told { Looks result (K.seen keeper.old) (K.seen keeper.new)
        (λ lease t. lease ≡ device_in t address) }
    ensures counted { WasCounted (K.seen keeper.old) (K.seen keeper.new) }
{
    Ok(as_device(read_row(alloc, keeper, &Key::Device(address))?))
}

/// The lease of an address, or `None` where there is none.
pub fn read_lease<K: Keeper>(
    alloc: Global,
    keeper: &mut K,
    address: Ip4,
) -> Result<Option<Lease>, KeepErr>
    ensures told { Looks result (K.seen keeper.old) (K.seen keeper.new)
        (λ lease t. lease ≡ lease_in t address) }
    ensures counted { WasCounted (K.seen keeper.old) (K.seen keeper.new) }
{
    Ok(as_lease(read_row(alloc, keeper, &Key::Lease(address))?))
}

/// The address that a modem holds, or `None` where it holds none.
pub fn read_held<K: Keeper>(alloc: Global, keeper: &mut K, mac: Mac) -> Result<Option<Ip4>, KeepErr>
    ensures told { Looks result (K.seen keeper.old) (K.seen keeper.new)
        (λ held t. held ≡ held_in t mac) }
    ensures counted { WasCounted (K.seen keeper.old) (K.seen keeper.new) }
{
    Ok(as_held(read_row(alloc, keeper, &Key::Held(mac))?))
}

/// The import of a number, or `None` where there is none.
pub fn read_batch<K: Keeper>(
    alloc: Global,
    keeper: &mut K,
    n: u64,
) -> Result<Option<Batch>, KeepErr>
    ensures told { Looks result (K.seen keeper.old) (K.seen keeper.new)
        (λ batch t. batch ≡ batch_in t n) }
    ensures counted { WasCounted (K.seen keeper.old) (K.seen keeper.new) }
{
    Ok(as_batch(read_row(alloc, keeper, &Key::Batch(n))?))
}

// The hub that a row names, or the hub 0.
fn named_hub(row: Option<Row>) -> u32
    ensures { result ≡ number_or_0 (option_and_then as_pool_hub row) }
{
    let Some(row) = row else { return 0 };
    match &row {
        Row::PoolHub(hub) => *hub,
        _ => 0,
    }
}

fn as_device(row: Option<Row>) -> Option<DeviceLease>
    ensures { result ≡ option_and_then as_device row }
{
    let Some(row) = row else { return None };
    match &row {
        Row::Device(lease) => Some(*lease),
        _ => None,
    }
}

fn as_site(row: Option<Row>) -> Option<Site>
    ensures { result ≡ option_and_then as_site row }
{
    let Some(row) = row else { return None };
    match &row {
        Row::Site(site) => Some(site.copy()),
        _ => None,
    }
}

fn as_subscriber(row: Option<Row>) -> Option<Subscriber>
    ensures { result ≡ option_and_then as_subscriber row }
{
    let Some(row) = row else { return None };
    match &row {
        Row::Subscriber(subscriber) => Some(subscriber.copy()),
        _ => None,
    }
}

fn as_add_on(row: Option<Row>) -> Option<SharedSettings>
    ensures { result ≡ option_and_then as_add_on row }
{
    let Some(row) = row else { return None };
    match row {
        Row::AddOn(settings) => Some(settings),
        _ => None,
    }
}

fn as_modem(row: Option<Row>) -> Option<Modem>
    ensures { result ≡ option_and_then as_modem row }
{
    let Some(row) = row else { return None };
    match &row {
        Row::Modem(modem) => Some(modem.copy()),
        _ => None,
    }
}

fn as_class(row: Option<Row>) -> Option<Class>
    ensures { result ≡ option_and_then as_class row }
{
    let Some(row) = row else { return None };
    match row {
        Row::Class(class) => Some(class),
        _ => None,
    }
}

fn as_pool(row: Option<Row>) -> Option<Pool>
    ensures { result ≡ option_and_then as_pool row }
{
    let Some(row) = row else { return None };
    match row {
        Row::Pool(pool) => Some(pool),
        _ => None,
    }
}

fn as_lease(row: Option<Row>) -> Option<Lease>
    ensures { result ≡ option_and_then as_lease row }
{
    let Some(row) = row else { return None };
    match row {
        Row::Lease(lease) => Some(lease),
        _ => None,
    }
}

fn as_held(row: Option<Row>) -> Option<Ip4>
    ensures { result ≡ option_and_then as_held row }
{
    let Some(row) = row else { return None };
    match row {
        Row::Held(held) => Some(held),
        _ => None,
    }
}

fn as_batch(row: Option<Row>) -> Option<Batch>
    ensures { result ≡ option_and_then as_batch row }
{
    let Some(row) = row else { return None };
    match row {
        Row::Batch(batch) => Some(batch),
        _ => None,
    }
}
