ghost use Rattle.std.specs.Prelude.{◌≡◌, option_and_then};
ghost use Rattle.off_outside.specs.KeeperCalls.{Looks, Spent, WasCounted};
ghost use Rattle.off_account_rules.specs.Rows.{as_pool};
ghost use Rattle.off_defs.specs.State.{Tables};
ghost use Rattle.off_users.specs.Users.{StandsFor};
ghost use Rattle.off_accounts.specs.Tests.{SubjectStands, IsSubject, calls_for_subject, uses_at};
ghost use Rattle.off_accounts.specs.Walking.{PoolStands, IsPoolAt};

use off_defs::{Key, Pool, Row};
use off_orders::Command;
use off_outside::{KeepErr, Keeper};
use off_readers::read_row;
use off_users::Users;
use std::alloc::Global;

/// What the tables have at the key of a command, before it.
#[derive(Clone, Copy, PartialEq, Eq)]
pub(crate) struct Subject {
    /// Whether the key has a row.
    pub is_there: bool,
    /// The row, where it's a pool.
    pub pool: Option<Pool>,
    /// How many modems name it, where it's a subscriber or a class.
    pub uses: u64,
}

/// What the tables have at the key of the command. It's one call at most.
#[tactic(auto, using(off_readers::proofs::ReadRules::one_read))]
pub(crate) fn subject_of<K: Keeper>(
    alloc: Global,
    keeper: &mut K,
    users: &Users,
    c: &Command,
) -> Result<Subject, KeepErr>
    ensures told { Looks result (K.seen keeper.old) (K.seen keeper.new)
        (λ subject t. StandsFor users.now t → IsSubject c.now subject t) }
    ensures pool { Looks result (K.seen keeper.old) (K.seen keeper.new)
        (λ subject t. IsPoolAt c.now subject t) }
    ensures spent { Spent (calls_for_subject c.now) (K.seen keeper.old) (K.seen keeper.new) }
{
    match c {
        Command::PutHub(n, _) => at_key(alloc, keeper, users, &Key::Hub(*n)),
        Command::PutSubscriber(n, _) => at_key(alloc, keeper, users, &Key::Subscriber(*n)),
        Command::PutAddOn(n, number, _) => at_key(alloc, keeper, users, &Key::AddOn(*n, *number)),
        Command::PutModem(mac, _) => at_key(alloc, keeper, users, &Key::Modem(*mac)),
        Command::PutClass(n, _) => at_key(alloc, keeper, users, &Key::Class(*n)),
        Command::PutPool(n, _, _) => at_key(alloc, keeper, users, &Key::Pool(*n)),
        Command::PutDevicePool(n, _) => at_key(alloc, keeper, users, &Key::DevicePool(*n)),
        Command::Remove(key) => at_key(alloc, keeper, users, key),
        Command::Show(key) => at_key(alloc, keeper, users, key),
        Command::Import { .. } => Ok(nothing()),
    }
}

fn nothing() -> Subject {
    Subject {
        is_there: false,
        pool: None,
        uses: 0,
    }
}

#[tactic(auto, using(off_outside::proofs::KeeperLemmas::reads_as))]
fn at_key<K: Keeper>(
    alloc: Global,
    keeper: &mut K,
    users: &Users,
    key: &Key,
) -> Result<Subject, KeepErr>
    ensures told { Looks result (K.seen keeper.old) (K.seen keeper.new)
        (λ subject t. StandsFor users.now t → SubjectStands t key.now subject) }
    ensures pool { Looks result (K.seen keeper.old) (K.seen keeper.new)
        (λ subject t. PoolStands t key.now subject) }
    ensures counted { WasCounted (K.seen keeper.old) (K.seen keeper.new) }
{
    let row = read_row(alloc, keeper, key)?;
    Ok(Subject {
        is_there: row.is_some(),
        pool: as_pool(&row),
        uses: uses_at(users, key),
    })
}

// How many modems name what stands at the key.
fn uses_at(users: &Users, key: &Key) -> u64
    ensures { (t : Tables) → StandsFor users.now t → result ≡ uses_at t key.now }
{
    match *key {
        Key::Subscriber(number) => users.modems_of_subscriber(number),
        Key::Class(number) => users.modems_of_class(number),
        Key::Site | Key::AddOn(_, _) | Key::Modem(_) | Key::Pool(_) => 0,
        Key::Lease(_) | Key::Held(_) | Key::Batch(_) | Key::Hub(_) => 0,
        Key::PoolHub(_) | Key::DevicePool(_) | Key::Device(_) => 0,
    }
}

/// The row, where it's a pool.
pub(crate) fn as_pool(row: &Option<Row>) -> Option<Pool>
    ensures { result ≡ option_and_then as_pool row.now }
{
    match row {
        Some(held) => pool_of(held),
        None => None,
    }
}

fn pool_of(row: &Row) -> Option<Pool>
    ensures { result ≡ as_pool row.now }
{
    match row {
        Row::Pool(pool) => Some(*pool),
        _ => None,
    }
}
