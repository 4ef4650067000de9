ghost use Rattle.std.specs.Prelude.{◌≡◌, ◌+◌, ◌≤◌, ◌∷◌, ◌++◌, [], min, MatchResult, IfOk, OnOk};
ghost use Rattle.std.specs.Option.{option_map};
ghost use Rattle.off_defs.specs.Counts.{most_count, one_more};
ghost use Rattle.off_defs.specs.Told.{one_exact};
ghost use Rattle.off_defs.specs.Tables.{row_at, next_entry, write_all};
ghost use Rattle.off_outside.specs.KeeperCalls.{Looks, Commits, WasCounted};
ghost use Rattle.off_keepmem.specs.KeeperInMemory.{keeper_seen, KeeperTells, empty_keeper};
ghost use Rattle.off_keepmem.specs.KeeperInMemory.{MemRead, MemUndone, MemLooks, MemCommits};
ghost use Rattle.off_keepmem.specs.KeeperInMemory.{SameButSpare};
ghost use Rattle.off_keepmem.specs.Puts.{puts_in, is_put};

use crate::planned::Planned;
use crate::table::Table;
use off_base::NoMemory;
use off_defs::{Key, Row, Write, Writes};
use off_outside::{Calls, Failed, Failing, KeepErr, Keeper, one_more};
use std::alloc::Global;
use std::marker::Model;

/// A keeper that holds its tables in memory, on shelves of rows. A call looks where the row stood
/// last, and else through the list of shelves and then through one of them, by halves.
#[derive(Drop)]
pub struct MemKeeper {
    rows: Table,
    failing: Failing,
    faults: u64,
    commits: u64,
}

impl Model for MemKeeper {
    ghost use Rattle.std.specs.FinMap as map;
    ghost use Rattle.off_keepmem.specs.KeeperInMemory.{MemKeeperHeld};
    ghost use Rattle.off_keepmem.specs.KeeperCode.{keeper_code};
    ghost use Rattle.off_keepmem.specs.Entries.{Rises};

    ghost Value = { MemKeeperHeld };

    ghost coded = { keeper_code };

    ghost view = { λ m. record {
      tables = map.from_sorted m.rows.entries;
      spare = m.rows.spare;
      calls = m.failing;
      faults = m.faults;
      commits = m.commits;
    } };

    ghost invariant = { λ m. Rises m.rows.entries };
}

/// Writes for which a keeper has taken all memory. Contracts see the list of them.
#[derive(Drop)]
pub struct Plan {
    writes: Vec<Planned>,
}

impl Model for Plan {
    ghost use Rattle.std.specs.Prelude.{List};
    ghost use Rattle.std.specs.Coded.{codes};
    ghost use Rattle.off_defs.specs.declared.writes.Write.{Write};
    ghost use Rattle.off_defs.specs.contracts.writes.Write as write;

    ghost Value = { List Write };

    ghost coded = { Prim.hlevel (codes, write.the_row.coded) };

    ghost view = { λ p. p.writes.items };
}

impl MemKeeper {
    /// A keeper of empty tables, whose calls of the listed numbers fail. It takes no memory.
    #[tactic(auto, using(crate::proofs::MemKeeperLemmas::none_rules))]
    pub fn new(alloc: Global, fails: Calls) -> MemKeeper
        ensures empty { result ≡ empty_keeper fails }
        ensures tells { KeeperTells result (⟦<MemKeeper as Keeper>⟧.seen result) }
    {
        MemKeeper {
            rows: Table::new(alloc),
            failing: Failing::new(fails),
            faults: 0,
            commits: 0,
        }
    }

    /// How many calls there have been of `get`, `next` and `commit`, also of those that failed.
    pub fn calls(&self) -> u64
        ensures count { result ≡ self.now.calls.made }
        ensures told { (⟦<MemKeeper as Keeper>⟧.seen self.now).calls ≡ result }
    {
        self.failing.made()
    }

    /// Takes all the memory that these writes want, and changes no tables, also after `NoMemory`.
    /// It isn't counted as a call.
    pub fn plan(&mut self, alloc: Global, writes: &Writes) -> Result<Plan, NoMemory>
        ensures plan { IfOk result (λ plan. plan ≡ writes.now) }
        ensures room { OnOk result (puts_in writes.now ≤ self.new.spare) }
        ensures rest { SameButSpare (puts_in writes.now) self.old self.new }
    {
        let planned = copied(alloc, writes)?;
        self.ready(alloc, planned)
    }

    /// The same for writes that are given away: their rows are moved, and none is copied.
    pub fn plan_owned(&mut self, alloc: Global, writes: Vec<Write>) -> Result<Plan, NoMemory>
        ensures plan { IfOk result (λ plan. plan ≡ writes.items) }
        ensures room { OnOk result (puts_in writes.items ≤ self.new.spare) }
        ensures rest { SameButSpare (puts_in writes.items) self.old self.new }
    {
        let planned = moved(alloc, writes)?;
        self.ready(alloc, planned)
    }

    /// The same where the rows are as they will be kept.
    fn ready(&mut self, alloc: Global, writes: Vec<Planned>) -> Result<Plan, NoMemory>
        ensures plan { IfOk result (λ plan. plan ≡ writes.items) }
        ensures room { OnOk result (puts_in writes.items ≤ self.new.spare) }
        ensures rest { SameButSpare (puts_in writes.items) self.old self.new }
    {
        let puts = count_puts(&writes);
        self.rows.reserve(alloc, puts)?;
        Ok(Plan { writes })
    }

    /// Does the writes of a plan, in order, and then gives back all empty shelves but eight. It
    /// takes no memory, and isn't counted as a call.
    #[tactic(auto, using(crate::proofs::MemKeeperLemmas::all_held))]
    pub fn apply(&mut self, plan: Plan)
        requires { puts_in plan ≤ self.old.spare }
        ensures tables { self.new.tables ≡ write_all self.old.tables plan }
        ensures calls { self.new.calls ≡ self.old.calls }
        ensures faults { self.new.faults ≡ self.old.faults }
        ensures commits { self.new.commits ≡ self.old.commits }
        ensures few { self.new.spare ≤ 8 }
        ensures spent { min self.old.spare 8 ≤ self.new.spare + puts_in plan }
    {
        self.rows.write_all(plan.writes);
        self.rows.trim();
    }

    /// Counts a call, and fails where it is listed.
    fn count_call(&mut self) -> Result<(), KeepErr>
        ensures did { MatchResult result (λ _. MemRead self.old self.new)
            (λ err. MemUndone err self.old self.new) }
        ensures fits { self.old.faults ≤ most_count }
    {
        let faults = self.faults;
        if self.failing.call() {
            self.faults = one_more(faults);
            return Err(KeepErr::Failed);
        }
        Ok(())
    }

    /// The row of a key, and where it stands is remembered for the next look. It isn't counted as a
    /// call.
    #[tactic(auto, using(crate::proofs::MemKeeperLemmas::row_held))]
    pub fn row(&mut self, alloc: Global, key: Key) -> Result<Option<Row>, NoMemory>
        ensures row { IfOk result (λ row. row ≡ row_at self.old.tables key) }
        ensures same { self.new ≡ self.old }
    {
        self.rows.look(alloc, &key)
    }

    /// The next entry of a walk. It isn't counted as a call.
    #[tactic(auto, using(crate::proofs::MemKeeperLemmas::next_held))]
    pub fn entry_behind(
        &self,
        alloc: Global,
        place: Option<Key>,
    ) -> Result<Option<(Key, Row)>, NoMemory>
        ensures { IfOk result (λ entry. entry ≡ next_entry place self.now.tables) }
    {
        match self.rows.next(place) {
            Some(entry) => Ok(Some((entry.key, entry.row.copy(alloc)?))),
            None => Ok(None),
        }
    }

    fn look_up(&mut self, alloc: Global, key: Key) -> Result<Option<Row>, KeepErr>
        ensures { MemLooks result self.old self.new (λ row tables. row ≡ row_at tables key) }
    {
        self.count_call()?;
        Ok(self.row(alloc, key)?)
    }

    fn walk_on(&mut self, alloc: Global, place: Option<Key>) -> Result<Option<(Key, Row)>, KeepErr>
        ensures { MemLooks result self.old self.new
            (λ entry tables. entry ≡ next_entry place tables) }
    {
        self.count_call()?;
        Ok(self.entry_behind(alloc, place)?)
    }

    fn do_all(&mut self, alloc: Global, writes: &Writes) -> Result<(), KeepErr>
        ensures did { MemCommits result self.old self.new writes.now }
    {
        self.count_call()?;
        let plan = self.plan(alloc, writes)?;
        self.apply(plan);
        self.commits = one_more(self.commits);
        Ok(())
    }
}

impl Keeper for MemKeeper {
    ghost seen = { λ m. keeper_seen m };

    fn get(&mut self, alloc: Global, key: &Key) -> Result<Option<Row>, KeepErr>
        ensures told { Looks result (keeper_seen self.old) (keeper_seen self.new)
            (λ row tables. row ≡ row_at tables key.now) }
        ensures counted { WasCounted (keeper_seen self.old) (keeper_seen self.new) }
        ensures exact { MemLooks result self.old self.new
            (λ row tables. row ≡ row_at tables key.now) }
    {
        self.look_up(alloc, *key)
    }

    fn next(&mut self, alloc: Global, after: Option<&Key>) -> Result<Option<(Key, Row)>, KeepErr>
        ensures told { Looks result (keeper_seen self.old) (keeper_seen self.new)
            (λ entry tables. entry ≡ next_entry (option_map (λ key. key.now) after.entry) tables) }
        ensures counted { WasCounted (keeper_seen self.old) (keeper_seen self.new) }
        ensures exact { MemLooks result self.old self.new
            (λ entry tables. entry ≡ next_entry (option_map (λ key. key.now) after.entry) tables) }
    {
        self.walk_on(alloc, after.copied())
    }

    fn commit(&mut self, alloc: Global, writes: &Writes) -> Result<(), KeepErr>
        ensures told { Commits result (keeper_seen self.old) (keeper_seen self.new) writes.now }
        ensures counted { WasCounted (keeper_seen self.old) (keeper_seen self.new) }
        ensures exact { MemCommits result self.old self.new writes.now }
    {
        self.do_all(alloc, writes)
    }

    #[tactic(auto, using(off_outside::proofs::KeeperLemmas::stages_commit))]
    fn stage(&mut self, alloc: Global, writes: &Writes) -> Result<(), KeepErr> {
        self.commit(alloc, writes)
    }

    #[tactic(auto, using(off_outside::proofs::KeeperLemmas::secured_none))]
    fn secure(&mut self) -> Result<(), Failed> {
        Ok(())
    }

    fn waits(&self) -> bool {
        false
    }

    fn moment(&self) -> u64 {
        0
    }

    ghost one_tables = { λ m up. one_exact m.tables };

    ghost rests = { λ m tables told opened might. absurd might };
}

// The same writes again, with their rows as they will be kept.
fn copied(alloc: Global, writes: &Writes) -> Result<Vec<Planned>, NoMemory>
    ensures { IfOk result (λ copies. copies.items ≡ writes.now) }
{
    let mut copies = Vec::new(alloc);
    for i in 0..writes.len() {
        let write = writes.get(i);
        push(&mut copies, Planned::copy(alloc, write)?)?;
    }
    Ok(copies)
}

// Writes that are given away, with their rows as they will be kept.
fn moved(alloc: Global, writes: Vec<Write>) -> Result<Vec<Planned>, NoMemory>
    ensures { IfOk result (λ planned. planned.items ≡ writes.items) }
{
    let mut planned = Vec::new(alloc);
    for write in writes {
        push(&mut planned, Planned::new(alloc, write)?)?;
    }
    Ok(planned)
}

fn push(planned: &mut Vec<Planned>, write: Planned) -> Result<(), NoMemory>
    ensures { OnOk result (planned.new.items ≡ planned.old.items ++ write ∷ []) }
{
    match planned.push(write) {
        Ok(()) => Ok(()),
        Err(_refused) => Err(NoMemory),
    }
}

// How many of the writes put a row.
fn count_puts(writes: &[Planned]) -> usize
    ensures { result ≡ puts_in writes.now }
{
    let mut puts = 0;
    for write in writes {
        puts += usize::from(write.puts_a_row());
    }
    puts
}
