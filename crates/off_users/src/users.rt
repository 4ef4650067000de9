ghost use Rattle.std.specs.Prelude.{◌≡◌, ◌≤◌, ◌<◌, ◌+◌, ◌-◌, ℕ, Bool, [], cond, OnOk};
ghost use Rattle.std.specs.Prelude.{None, Some, count_by};
ghost use Rattle.std.specs.Map.{lookup, values_of};
ghost use Rattle.std.specs.HashMap.{spare};
ghost use Rattle.off_base.specs.declared.macs.Mac.{Mac};
ghost use Rattle.off_defs.specs.State.{Tables};
ghost use Rattle.off_defs.specs.Tables.{written, write_all};
ghost use Rattle.off_users.specs.declared.named.Named.{Named};
ghost use Rattle.off_base.specs.Macs.{is_same_mac};
ghost use Rattle.off_users.specs.Users.{StandsFor, named_by, weighs, tally};
ghost use Rattle.off_users.specs.Users.{names_subscriber, names_class, subscriber_uses, class_uses};
ghost use Rattle.off_users.specs.Kept.{map_of, Knows};
ghost use Rattle.off_users.specs.Writes.{puts_modem, modem_puts};

use crate::named::Named;
use crate::tallies::{count_at, lower, raise};
use crate::writes::{count_puts, named_write};
use off_base::{Mac, NoMemory};
use off_defs::{Write, Writes};
use std::alloc::Global;
use std::collections::HashMap;
use std::marker::Model;

/// Of each modem the subscriber and the class that it names, and how many modems name each of them.
/// Contracts see the first, and how many more modems there is room for.
#[derive(Drop)]
pub struct Users {
    modems: HashMap<Mac, Named>,
    subscribers: HashMap<u32, u64>,
    classes: HashMap<u32, u64>,
}

impl Model for Users {
    ghost use Rattle.std.specs.Prelude.{min};
    ghost use Rattle.std.specs.HashMap.{spare};
    ghost use Rattle.off_users.specs.Users.{UsersHeld, AreCounted};
    ghost use Rattle.off_users.specs.Codes.{users_code};

    ghost Value = { UsersHeld };

    ghost coded = { users_code };

    ghost view = { λ u. record {
      modems = u.modems.entries;
      room = min (spare u.modems) (min (spare u.subscribers) (spare u.classes));
    } };

    // each number is counted as often as a modem names it
    ghost invariant = { λ u.
        AreCounted u.modems.entries u.subscribers.entries u.classes.entries };
}

impl Users {
    /// No modems. It takes no memory.
    pub fn new(alloc: Global) -> Users
        ensures { result.modems ≡ [] }
    {
        Users {
            modems: HashMap::new(alloc),
            subscribers: HashMap::new(alloc),
            classes: HashMap::new(alloc),
        }
    }

    /// How many modems name the subscriber.
    pub fn modems_of_subscriber(&self, number: u32) -> u64
        ensures { (t : Tables) → StandsFor self.now t → result ≡ subscriber_uses t number }
    {
        // That the keys of the map differ is told by its length.
        let _len = self.modems.len();
        count_at(&self.subscribers, number)
    }

    /// How many modems name the class.
    pub fn modems_of_class(&self, number: u32) -> u64
        ensures { (t : Tables) → StandsFor self.now t → result ≡ class_uses t number }
    {
        // That the keys of the map differ is told by its length.
        let _len = self.modems.len();
        count_at(&self.classes, number)
    }

    /// Notes what one more modem names. After `NoMemory` all is as before.
    pub fn note(&mut self, modem: Mac, named: Named) -> Result<(), NoMemory>
        ensures { OnOk result ((q : Mac) → named_by q self.new
            ≡ cond (is_same_mac modem q) (Some named) (named_by q self.old)) }
    {
        self.take_room(1)?;
        self.put(modem, named);
        Ok(())
    }

    /// Takes room for the modems that writes put. What is kept stays.
    pub fn ready(&mut self, writes: &Writes) -> Result<(), NoMemory>
        ensures room { OnOk result (modem_puts writes.now ≤ self.new.room) }
        ensures same { (q : Mac) → named_by q self.new ≡ named_by q self.old }
        ensures stands { (t : Tables) → StandsFor self.old t → StandsFor self.new t }
        ensures kept { map_of self.new.modems ≡ map_of self.old.modems }
    {
        self.take_room(count_puts(writes))
    }

    /// Takes writes that were done, each in its turn. There is room in hand for each modem that is
    /// put, and it takes no memory.
    pub fn apply(&mut self, writes: &Writes)
        requires { modem_puts writes.now ≤ self.old.room }
        ensures stands { (t : Tables) → StandsFor self.old t
            → StandsFor self.new (write_all t writes.now) }
        ensures knows { (t : Tables) → Knows (map_of self.old.modems) t
            → Knows (map_of self.new.modems) (write_all t writes.now) }
    {
        take_writes(self, writes);
    }

    // Takes room for so many more modems. What is kept stays.
    fn take_room(&mut self, more: usize) -> Result<(), NoMemory>
        ensures room { OnOk result (more ≤ self.new.room) }
        ensures same { (q : Mac) → named_by q self.new ≡ named_by q self.old }
    {
        room_for_modems(&mut self.modems, more)?;
        room_for_counts(&mut self.subscribers, more)?;
        room_for_counts(&mut self.classes, more)?;
        Ok(())
    }

    // Takes one write.
    fn take_write(&mut self, write: &Write)
        requires { puts_modem write.now ≤ self.old.room }
        ensures stands { (t : Tables) → StandsFor self.old t
            → StandsFor self.new (written t write.now) }
        ensures room { self.old.room ≤ self.new.room + puts_modem write.now }
    {
        let (modem, named) = match named_write(write) {
            None => return,
            Some(found) => found,
        };
        match named {
            Some(named) => self.put(modem, named),
            None => self.forget(modem),
        }
    }

    // Notes what a modem names.
    fn put(&mut self, modem: Mac, named: Named)
        requires { 0 < self.old.room }
        ensures named { (q : Mac) → named_by q self.new
            ≡ cond (is_same_mac modem q) (Some named) (named_by q self.old) }
        ensures room { self.old.room ≤ self.new.room + 1 }
    {
        // That the map is no longer than memory is told by its length.
        let _len = self.modems.len();
        let before = put_named(&mut self.modems, modem, named);
        raise(&mut self.subscribers, named.subscriber);
        raise(&mut self.classes, named.class);
        leave(&mut self.subscribers, &mut self.classes, before);
    }

    // Forgets what a modem names.
    fn forget(&mut self, modem: Mac)
        ensures named { (q : Mac) → named_by q self.new
            ≡ cond (is_same_mac modem q) None (named_by q self.old) }
        ensures room { self.old.room ≤ self.new.room }
    {
        let before = take_named(&mut self.modems, modem);
        leave(&mut self.subscribers, &mut self.classes, before);
    }
}

/// Takes writes, each in its turn.
fn take_writes(users: &mut Users, writes: &Writes)
    requires { modem_puts writes.now ≤ users.old.room }
    ensures { (t : Tables) → StandsFor users.old t → StandsFor users.new (write_all t writes.now) }
{
    for place in 0..writes.len() {
        users.take_write(writes.get(place));
    }
}

// Takes room for so many more modems.
fn room_for_modems(modems: &mut HashMap<Mac, Named>, more: usize) -> Result<(), NoMemory>
    ensures named { (q : Mac) → lookup (is_same_mac q) modems.new.entries
        ≡ lookup (is_same_mac q) modems.old.entries }
    ensures counts { (p : Named → Bool) → count_by p (values_of modems.new.entries)
        ≡ count_by p (values_of modems.old.entries) }
    ensures room { OnOk result (more ≤ spare modems.new) }
{
    match modems.reserve(more) {
        Ok(()) => Ok(()),
        Err(_refused) => Err(NoMemory),
    }
}

// Takes room for so many more counts.
fn room_for_counts(counts: &mut HashMap<u32, u64>, more: usize) -> Result<(), NoMemory>
    ensures counts { (n : ℕ) → tally counts.new.entries n ≡ tally counts.old.entries n }
    ensures room { OnOk result (more ≤ spare counts.new) }
{
    match counts.reserve(more) {
        Ok(()) => Ok(()),
        Err(_refused) => Err(NoMemory),
    }
}

// Puts what a modem names, and gives what it named before.
fn put_named(modems: &mut HashMap<Mac, Named>, modem: Mac, named: Named) -> Option<Named>
    requires { 0 < spare modems.old }
    ensures named { (q : Mac) → lookup (is_same_mac q) modems.new.entries
        ≡ cond (is_same_mac modem q) (Some named) (lookup (is_same_mac q) modems.old.entries) }
    ensures counts { (p : Named → Bool)
        → count_by p (values_of modems.new.entries) + weighs p result
        ≡ count_by p (values_of modems.old.entries) + weighs p (Some named) }
    ensures room { spare modems.old ≤ spare modems.new + 1 }
{
    match modems.insert(modem, named) {
        Ok(before) => before,
        Err(_refused) => unreachable!(),
    }
}

// Takes out what a modem names, and gives it.
fn take_named(modems: &mut HashMap<Mac, Named>, modem: Mac) -> Option<Named>
    ensures named { (q : Mac) → lookup (is_same_mac q) modems.new.entries
        ≡ cond (is_same_mac modem q) None (lookup (is_same_mac q) modems.old.entries) }
    ensures counts { (p : Named → Bool)
        → count_by p (values_of modems.new.entries) + weighs p result
        ≡ count_by p (values_of modems.old.entries) }
    ensures room { spare modems.old ≤ spare modems.new }
{
    modems.remove(&modem)
}

// Counts once less what was named before.
fn leave(
    subscribers: &mut HashMap<u32, u64>,
    classes: &mut HashMap<u32, u64>,
    before: Option<Named>,
)
    ensures subscribers { (n : ℕ) → tally subscribers.new.entries n
        ≡ tally subscribers.old.entries n - weighs (names_subscriber n) before }
    ensures classes { (n : ℕ) → tally classes.new.entries n
        ≡ tally classes.old.entries n - weighs (names_class n) before }
    ensures room { spare subscribers.old ≤ spare subscribers.new }
    ensures room_of_classes { spare classes.old ≤ spare classes.new }
{
    let Some(named) = before else { return };
    lower(subscribers, named.subscriber);
    lower(classes, named.class);
}
