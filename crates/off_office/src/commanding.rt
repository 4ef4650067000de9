ghost use Rattle.std.specs.Prelude.{◌≡◌, ◌≤◌, IsTrue, MatchResult, IfOk, OnOk, OnErr};
ghost use Rattle.off_defs.specs.State.{held_at};
ghost use Rattle.off_defs.specs.Told.{Told};
ghost use Rattle.off_orders.specs.Sound.{is_sound};
ghost use Rattle.off_order_laws.specs.Laws.{secret_fits};
ghost use Rattle.off_accounts.specs.Deciding.{most_calls};
ghost use Rattle.off_accounts.specs.Walking.{WalksWithin};
ghost use Rattle.off_outside.specs.KeeperCalls.{Reads, Settled, NotCommitted, IsWritten, Spent};
ghost use Rattle.off_office.specs.Asking.{SpentWithin, command_calls, most_commits};
ghost use Rattle.off_office.specs.Asking.{commit_calls, CommandWalks};
ghost use Rattle.off_office.specs.Conditions.{StaysFit, Follows, any_tables};
ghost use Rattle.off_office.specs.Answering.{IsPlanned, NotPlanned, Commanded, NotCommanded};
ghost use Rattle.off_office.specs.Answering.{CountsRows};

use crate::office::Office;
use off_account_rules::Counts;
use off_accounts::{AccountErr, Planned};
use off_base::Moment;
use off_commands::decide;
use off_defs::Writes;
use off_orders::{Command, Reply};
use off_outside::{KeepErr, Keeper};
use std::alloc::Global;

impl Office {
    /// Does one of a clerk's commands, at the later of its moment and the office's, or refuses it
    /// by the first of its rules that is broken. An import is one command: it's done whole or not
    /// at all, and answered with its number of rows.
    ///
    /// After an error the tables are as before. `Failed` comes only where the keeper counted a
    /// fault in this call. Connections and transfers stay as they are.
    pub fn command<K: Keeper>(
        &mut self,
        keeper: &mut K,
        at: Moment,
        c: &Command,
    ) -> Result<Reply, AccountErr>
        requires sound { IsTrue (is_sound c.now) }
        ensures told { MatchResult result
            (λ done. Commanded c.now done self.new.held.now self.old self.new
            (K.seen keeper.old) (K.seen keeper.new))
            (λ err. NotCommanded c.now err self.new.held.now self.old
            (K.seen keeper.old) (K.seen keeper.new)) }
        ensures held { self.new.held ≡ held_at self.old.held at.0 }
        ensures counts { OnErr result (self.new.counts ≡ self.old.counts) }
        ensures kept { OnErr result (self.new.kept ≡ self.old.kept) }
        ensures agreements { OnErr result (self.new.agreements ≡ self.old.agreements) }
        ensures pools { OnErr result (self.new.pools ≡ self.old.pools) }
        ensures device_pools { OnErr result (self.new.device_pools ≡ self.old.device_pools) }
        ensures users { OnErr result (self.new.users ≡ self.old.users) }
        ensures devices { OnErr result (self.new.devices ≡ self.old.devices) }
        ensures rows { IfOk result (λ done. CountsRows c.now done) }
        ensures good { OnOk result (IsTrue (secret_fits c.now)
            → Told (K.seen keeper.old).tables (K.seen keeper.new).tables
            (StaysFit self.old self.new)) }
        ensures spent { SpentWithin (command_calls c.now)
            (K.seen keeper.old) (K.seen keeper.new) }
        ensures walks { CommandWalks c.now (K.seen keeper.old) (K.seen keeper.new) }
    {
        self.reach(at);
        let planned = self.plan(keeper, c)?;
        self.settle(keeper, &planned.writes, &planned.counts)?;
        Ok(planned.reply)
    }

    // What a command is to do at the office's moment, with all room for it in hand. It commits
    // nothing.
    pub(crate) fn plan<K: Keeper>(&self, keeper: &mut K, c: &Command) -> Result<Planned, AccountErr>
        requires sound { IsTrue (is_sound c.now) }
        ensures told { MatchResult result
            (λ planned. Reads (IsPlanned self.entry.now c.now planned)
            (K.seen keeper.old) (K.seen keeper.new))
            (λ err. NotPlanned self.entry.now c.now err
            (K.seen keeper.old) (K.seen keeper.new)) }
        ensures rows { IfOk result (λ planned. CountsRows c.now planned.reply) }
        ensures commits { IfOk result
            (λ planned. commit_calls planned.writes ≤ most_commits c.now) }
        ensures spent { SpentWithin (most_calls c.now) (K.seen keeper.old) (K.seen keeper.new) }
        ensures walks { WalksWithin c.now (K.seen keeper.old) (K.seen keeper.new) }
    {
        match decide(self.alloc, keeper, &self.counts, &self.users, self.now, c) {
            Ok(planned) => Ok(planned),
            Err(err) => Err(err),
        }
    }

    // Does what was planned, whatever service planned it: takes room for what the office keeps of
    // the tables, does the writes in one commit, where there are any, and then brings what is kept
    // behind them, which takes no memory. Bodies of files are forgotten of which a row was written,
    // and so is the agreement that a row may have ended.
    pub(crate) fn settle<K: Keeper>(
        &mut self,
        keeper: &mut K,
        writes: &Writes,
        counts: &Counts,
    ) -> Result<(), KeepErr>
        ensures told { MatchResult result
            (λ _. Settled writes.now (K.seen keeper.old) (K.seen keeper.new))
            (λ err. NotCommitted (IsWritten writes.now) err
            (K.seen keeper.old) (K.seen keeper.new)) }
        ensures ok { OnOk result (Follows any_tables self.old self.new counts.now writes.now) }
        ensures err { OnErr result (self.new ≡ self.old) }
        ensures spent { Spent (commit_calls writes.now) (K.seen keeper.old) (K.seen keeper.new) }
    {
        self.runs.ready(writes)?;
        let of_devices = self.device_runs.ready(self.alloc, writes)?;
        self.users.ready(writes)?;
        self.devices.ready(writes)?;
        commit_all(self.alloc, keeper, writes)?;
        self.counts = *counts;
        self.kept.forget(writes);
        self.agreements.forget(writes);
        self.runs.apply(writes);
        self.device_runs.apply(&of_devices);
        self.users.apply(writes);
        self.devices.follow(writes);
        Ok(())
    }
}

/// Does writes in one commit, if there are any.
pub(crate) fn commit_all<K: Keeper>(
    alloc: Global,
    keeper: &mut K,
    writes: &Writes,
) -> Result<(), KeepErr>
    ensures told { MatchResult result
        (λ _. Settled writes.now (K.seen keeper.old) (K.seen keeper.new))
        (λ err. NotCommitted (IsWritten writes.now) err (K.seen keeper.old) (K.seen keeper.new)) }
    ensures spent { Spent (commit_calls writes.now) (K.seen keeper.old) (K.seen keeper.new) }
{
    if writes.is_empty() {
        return Ok(());
    }
    keeper.commit(alloc, writes)
}
