ghost use Rattle.std.specs.Prelude.{◌≡◌, ◌≤◌, ◌∷◌, ◌++◌, [], length, max, OnOk, OnErr, IfOk};
ghost use Rattle.std.specs.Prelude.{MatchResult, IfErr};
ghost use Rattle.off_defs.specs.State.{held_at_start, says_nothing};
ghost use Rattle.off_book.specs.Time.{time_answer};
ghost use Rattle.off_outside.specs.KeeperCalls.{Reads};
ghost use Rattle.off_office.specs.Acting.{Acts, Handled, NotStarted, desk_at};
ghost use Rattle.off_office.specs.Acting.{forgets};
ghost use Rattle.off_office.specs.Conditions.{Opened, Founded, Begun};
ghost use Rattle.off_office.specs.Opening.{WalksAndMigrates, counts_behind};
ghost use Rattle.off_runs.specs.Reading.{Walks};
ghost use Rattle.off_users.specs.Kept.{map_of};
ghost use Rattle.off_behind.specs.Buckets.{leases_in};
ghost use Rattle.off_tftp.specs.Agreements.{none_remembered};
ghost use Rattle.off_office.specs.Saying.{SaysTime};
ghost use Rattle.off_office.specs.declared.office.StartErr.TheVariants as start;

use off_account_rules::Counts;
use off_base::{Bytes, Moment, NoMemory, Peer};
use off_behind::Devices;
use off_defs::{Key, Writes, time_of_day};
use off_device_runs::DeviceRuns;
use off_kept::Kept;
use off_mic::HmacKey;
use off_opening::{Opening, open_tables, read_migration};
use off_outside::{Event, KeepErr, Keeper, Outcome, Replies, Sent, Service, What};
use off_runs::FreeRuns;
use off_sessions::Connections;
use off_tftp::{Agreements, Transfers};
use off_users::Users;
use std::alloc::Global;
use std::marker::Model;

/// Why an office doesn't start.
#[derive(Clone, Copy, PartialEq, Eq)]
pub enum StartErr {
    /// The tables don't open, and this is the least key whose row is bad.
    Bad(Key),
    /// The keeper of the tables failed.
    Failed,
    /// Memory was wanted, and refused.
    Memory,
}

impl From<KeepErr> for StartErr {
    ghost use Rattle.std.specs.Prelude.{◌≡◌};
    ghost use Rattle.off_office.specs.Acting.{start_err};

    ghost from_gives = { λ kept err. err ≡ start_err kept };

    fn from(kept: KeepErr) -> StartErr {
        match kept {
            KeepErr::Memory => StartErr::Memory,
            KeepErr::Failed => StartErr::Failed,
        }
    }
}

/// The office between two events: the moment of its latest event, how many rows the tables have,
/// the bodies of files that were built of them, which addresses were seen to agree with transfers,
/// the free addresses of their pools, who uses which subscriber and class, the leases of devices by
/// their modems, the files on their way to modems, the clerks' connections, and the secret by which
/// it named a file last.
#[derive(Drop)]
pub struct Office {
    pub(crate) alloc: Global,
    pub(crate) now: Moment,
    pub(crate) counts: Counts,
    pub(crate) kept: Kept,
    pub(crate) agreements: Agreements,
    pub(crate) runs: FreeRuns,
    pub(crate) device_runs: DeviceRuns,
    pub(crate) users: Users,
    pub(crate) devices: Devices,
    pub(crate) transfers: Transfers,
    pub(crate) connections: Connections,
    pub(crate) name_key: HmacKey,
}

impl Model for Office {
    ghost use Rattle.std.specs.Prelude.{◌≡◌};
    ghost use Rattle.off_users.specs.Kept.{map_of};
    ghost use Rattle.off_behind.specs.Buckets.{leases_in};
    ghost use Rattle.off_office.specs.Desk.{Desk, desk_code};

    ghost Value = { Desk };

    ghost coded = { desk_code };

    ghost view = { λ o. record {
      held = record { now = o.now.0; transfers = o.transfers; connections = o.connections };
      counts = o.counts;
      kept = o.kept;
      agreements = o.agreements;
      pools = o.runs.pools;
      device_pools = o.device_runs.pools;
      users = map_of o.users.modems;
      devices = leases_in o.devices;
    } };

    // the free addresses are those at its moment
    ghost invariant = { λ o. (o.runs.at ≡ o.now.0) × (o.device_runs.at ≡ o.now.0) };
}

impl Office {
    /// Opens the tables: an office that has just begun, with no transfers, no connections, no
    /// bodies of files and moment 0, over tables that are good. The site of earlier days, where
    /// there is one, becomes the hub 0 in the last of its calls, one commit.
    ///
    /// `Bad` comes exactly where the tables don't open, with the least bad key. After an error they
    /// are as they were. They are walked once, and their pools, the pools' hubs, the leases and the
    /// pools for devices once more, and the leases of devices twice.
    pub fn start<K: Keeper>(alloc: Global, keeper: &mut K) -> Result<Office, StartErr>
        ensures told { MatchResult result
            (λ office. Opened office (K.seen keeper.old) (K.seen keeper.new))
            (λ err. NotStarted err (K.seen keeper.old) (K.seen keeper.new)) }
        ensures held { IfOk result (λ office. office.held ≡ held_at_start) }
        ensures kept { IfOk result (λ office. office.kept ≡ []) }
        ensures walks { WalksAndMigrates 7 (K.seen keeper.old) (K.seen keeper.new) }
    {
        match open_tables(alloc, keeper)? {
            Opening::Open(counts, users) => Office::found(alloc, keeper, counts, users),
            Opening::Bad(key) => Err(StartErr::Bad(key)),
        }
    }

    // An office over tables that opened with these counts, and whose modems name this. What it keeps
    // of them is read before the migration, and then follows it as it follows a clerk's command.
    fn found<K: Keeper>(
        alloc: Global,
        keeper: &mut K,
        counts: Counts,
        users: Users,
    ) -> Result<Office, StartErr>
        ensures told { MatchResult result
            (λ office. Founded office counts users (K.seen keeper.old) (K.seen keeper.new))
            (λ err. NotStarted err (K.seen keeper.old) (K.seen keeper.new)) }
        ensures held { IfOk result (λ office. office.held ≡ held_at_start) }
        ensures kept { IfOk result (λ office. office.kept ≡ []) }
        ensures walks { WalksAndMigrates 6 (K.seen keeper.old) (K.seen keeper.new) }
    {
        let writes = read_migration(alloc, keeper)?;
        let mut office = Office::begin(alloc, keeper, counts, users)?;
        office.settle(keeper, &writes, &counts_behind(counts, &writes))?;
        Ok(office)
    }

    // An office over tables that have these counts and whose modems name this, in which nothing has
    // begun.
    fn begin<K: Keeper>(
        alloc: Global,
        keeper: &mut K,
        counts: Counts,
        users: Users,
    ) -> Result<Office, StartErr>
        ensures told { MatchResult result
            (λ office. Reads (Begun office counts users) (K.seen keeper.old) (K.seen keeper.new))
            (λ err. NotStarted err (K.seen keeper.old) (K.seen keeper.new)) }
        ensures held { IfOk result (λ office. office.held ≡ held_at_start) }
        ensures kept { IfOk result (λ office. office.kept ≡ []) }
        ensures walks { Walks 6 (K.seen keeper.old) (K.seen keeper.new) }
    {
        let runs = FreeRuns::of(alloc, keeper)?;
        let device_runs = DeviceRuns::of(alloc, keeper)?;
        let devices = Devices::of(alloc, keeper)?;
        Office::empty(alloc, counts, runs, device_runs, users, devices)
    }

    // An office that keeps this of the tables, in which nothing has begun.
    fn empty(
        alloc: Global,
        counts: Counts,
        runs: FreeRuns,
        device_runs: DeviceRuns,
        users: Users,
        devices: Devices,
    ) -> Result<Office, StartErr>
        requires runs { runs.at ≡ 0 }
        requires device_runs { device_runs.at ≡ 0 }
        ensures ok { IfOk result (λ office. office ≡ record {
          held = held_at_start;
          counts = counts;
          kept = [];
          agreements = none_remembered;
          pools = runs.pools;
          device_pools = device_runs.pools;
          users = map_of users.modems;
          devices = leases_in devices;
        }) }
        ensures err { IfErr result (λ err. err ≡ start.Memory) }
    {
        let Ok(kept) = Kept::new(alloc) else {
            return Err(StartErr::Memory);
        };
        let Ok(agreements) = Agreements::new(alloc) else {
            return Err(StartErr::Memory);
        };
        match Transfers::new(alloc) {
            Ok(transfers) => Ok(Office {
                alloc,
                now: Moment(0),
                counts,
                kept,
                agreements,
                runs,
                device_runs,
                users,
                devices,
                transfers,
                connections: Connections::new(alloc),
                name_key: HmacKey::new(),
            }),
            Err(NoMemory) => Err(StartErr::Memory),
        }
    }

    /// Takes one event: leaves in `out` what the office says of it, and nothing of what `out` said
    /// before.
    ///
    /// A piece that the office couldn't act on has its line alone in `out`; the answer and the end
    /// of its connection are the same bytes each time, and are left to the caller.
    /// `Outcome::Keeper` comes only where the keeper counted a fault in this call.
    pub fn step<K: Keeper>(&mut self, keeper: &mut K, event: &Event, out: &mut Replies) -> Outcome
        ensures { Acts event.now result out.new self.old self.new
            (K.seen keeper.old) (K.seen keeper.new) }
    {
        out.clear();
        self.reach(event.at);
        match &event.what {
            What::Piece { conn, bytes } => self.take_piece(keeper, *conn, bytes.as_slice(), out),
            What::Datagram {
                service,
                from,
                bytes,
            } => self.take_datagram(keeper, *service, *from, bytes.as_slice(), out),
            What::Closed { conn } => {
                self.forget(*conn);
                only_line(out, b"http closed")
            }
            What::Tick => self.take_tick(out),
            What::End => Outcome::Did,
        }
    }

    // Comes to the later of its moment and another.
    pub(crate) fn reach(&mut self, at: Moment)
        ensures { self.new ≡ desk_at self.old at.0 }
    {
        self.now = later(self.now, at);
        self.runs.pass(self.now);
        self.device_runs.pass(self.now);
    }

    // Forgets a connection, if it's live.
    fn forget(&mut self, conn: u32)
        ensures { self.new ≡ forgets self.old conn }
    {
        let _session = self.connections.take(conn);
    }

    // Takes a datagram, for its service.
    fn take_datagram<K: Keeper>(
        &mut self,
        keeper: &mut K,
        service: Service,
        from: Peer,
        bytes: &[u8],
        out: &mut Replies,
    ) -> Outcome
        requires { out.old ≡ says_nothing }
        ensures { Handled (What.Datagram service from bytes.now) result out.new self.old self.new
            (K.seen keeper.old) (K.seen keeper.new) }
    {
        match service {
            Service::Dhcp => self.take_message(keeper, from, bytes, out),
            Service::Time => tell_time(self.alloc, self.now, from, out),
            Service::Tftp => self.take_packet(keeper, from, bytes, out),
        }
    }
}

// The later of two moments.
pub(crate) fn later(a: Moment, b: Moment) -> Moment
    ensures { result.0 ≡ max a.0 b.0 }
{
    Moment(a.0.max(b.0))
}

// How many rows there are behind a migration.
fn counts_behind(counts: Counts, migration: &Writes) -> Counts
    ensures { result ≡ counts_behind counts migration.now }
{
    if migration.is_empty() {
        counts
    } else {
        Counts { hubs: 1, ..counts }
    }
}

// Says a line alone.
fn only_line(out: &mut Replies, line: &[u8]) -> Outcome
    requires { length line.now ≤ 80 }
    ensures did { result ≡ Outcome.Did }
    ensures said { out.new ≡ record out.old { line = line.now } }
{
    out.set_line(line);
    Outcome::Did
}

// Answers a datagram to the time port.
fn tell_time(alloc: Global, now: Moment, from: Peer, out: &mut Replies) -> Outcome
    requires { out.old ≡ says_nothing }
    ensures { SaysTime now.0 from result out.new }
{
    match answer_time(alloc, now, from, out) {
        Ok(()) => {
            out.set_line(b"time sent");
            Outcome::Did
        }
        Err(NoMemory) => {
            out.set_line(b"time memory");
            Outcome::Memory
        }
    }
}

fn answer_time(alloc: Global, now: Moment, from: Peer, out: &mut Replies) -> Result<(), NoMemory>
    ensures ok { OnOk result (out.new
        ≡ record out.old { items = out.old.items ++ time_answer now.0 from ∷ [] }) }
    ensures err { OnErr result (out.new ≡ out.old) }
{
    let mut bytes = Bytes::new(alloc);
    bytes.push_all(&time_of_day(now))?;
    out.push(Sent::Datagram {
        service: Service::Time,
        to: from,
        bytes,
    })
}
