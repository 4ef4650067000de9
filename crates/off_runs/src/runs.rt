//! Runs of free addresses, laid out from the expiries of all addresses of a pool.

ghost use Rattle.std.specs.Prelude.{◌≡◌, ◌≤◌, ◌<◌, ◌^◌, ◌+◌, ◌++◌, ◌∷◌, length, vec_len};
ghost use Rattle.std.specs.Prelude.{ℕ, Bool, true, IsTrue, MatchOption, IfSome, Some, slice_get};
ghost use Rattle.std.specs.Prelude.{take, drop, suc};
ghost use Rattle.std.specs.List.{All};
ghost use Rattle.std.specs.Vec.{vec_capacity};
ghost use Rattle.off_account_rules.specs.Rows.{has_pool_size};
ghost use Rattle.off_runs.specs.Runs.{AreRuns, in_pool, is_open, listed, with_run};
ghost use Rattle.off_runs.specs.Held.{NoneOpen, IsLeastOpen};
ghost use Rattle.off_runs.specs.Changes.{first_of, but_address, with_expiry};
ghost use Rattle.off_runs.specs.Changes.{ends_before, runs_without};

use off_base::{Ip4, Moment};
use off_defs::Pool;

/// Addresses in a row, from the first to the last.
#[derive(Clone, Copy, PartialEq, Eq)]
pub struct Run {
    pub first: Ip4,
    pub last: Ip4,
}

/// Lays out the runs of a pool's addresses whose leases have ended by the moment, and gives the
/// soonest expiry of those that are ahead.
///
/// Each run but the last has a live address behind it, so 2,048 runs are enough for 4,096
/// addresses.
pub(crate) fn lay_out(now: Moment, pool: &Pool, expiries: &[u64], runs: &mut Vec<Run>) -> u64
    requires size { IsTrue (has_pool_size pool.now) }
    requires len { length expiries.now ≡ 4096 }
    requires room { 2048 ≤ vec_capacity runs.old }
    ensures runs { AreRuns pool.now
        (is_open (listed pool.now.first.0 expiries.now) now.0 pool.now) runs.new.items }
    ensures soonest { (a : ℕ) → in_pool pool.now a ≡ true
        → now.0 < listed pool.now.first.0 expiries.now a
        → result ≤ listed pool.now.first.0 expiries.now a }
    ensures capacity { vec_capacity runs.old ≤ vec_capacity runs.new }
{
    runs.clear();
    let first = pool.first.0 as u64;
    let last = pool.last.0 as u64;
    let end = last + 1;
    let mut start = first;
    let mut soonest = u64::MAX;
    for at in first..end {
        let expiry = expiries[(at - first) as usize];
        if expiry > now.0 {
            end_run(runs, start, at);
            start = at + 1;
            soonest = soonest.min(expiry);
        }
    }
    end_run(runs, start, end);
    soonest
}

// Ends the run that was begun, where it has an address.
fn end_run(runs: &mut Vec<Run>, start: u64, end: u64)
    requires order { start ≤ end }
    requires small { end ≤ 2 ^ 32 }
    requires room { start < end → vec_len runs.old < vec_capacity runs.old }
    ensures items { runs.new.items ≡ with_run runs.old.items start end }
    ensures capacity { vec_capacity runs.old ≤ vec_capacity runs.new }
{
    if start < end {
        let run = Run {
            first: Ip4(start as u32),
            last: Ip4((end - 1) as u32),
        };
        let _is_done = runs.push(run).is_ok();
    }
}

/// Has runs that were laid out at a moment follow where the lease of an address ends at another
/// time than before, and tells whether they could. They can't where the address gets free, nor
/// where a run would be parted in two, and there is no room for one more.
pub(crate) fn follow(
    runs: &mut Vec<Run>,
    address: Ip4,
    laid_at: Moment,
    before: u64,
    expiry: u64,
) -> bool
    ensures done { (pool : Pool) (held : ℕ → ℕ) → held address.0 ≡ before
        → AreRuns pool (is_open held laid_at.0 pool) runs.old.items → result ≡ true
        → AreRuns pool (is_open (with_expiry address.0 expiry held) laid_at.0 pool)
        runs.new.items }
    ensures capacity { vec_capacity runs.old ≤ vec_capacity runs.new }
{
    if expiry <= laid_at.0 {
        before <= laid_at.0
    } else if before > laid_at.0 {
        true
    } else {
        take_out(runs, address)
    }
}

// Takes an address out of the run that has it, if one has, and tells whether that's done.
fn take_out(runs: &mut Vec<Run>, address: Ip4) -> bool
    ensures done { (pool : Pool) (free : ℕ → Bool) → AreRuns pool free runs.old.items
        → result ≡ true → AreRuns pool (but_address address.0 free) runs.new.items }
    ensures capacity { vec_capacity runs.old ≤ vec_capacity runs.new }
{
    let place = place_up_to(runs, address);
    if place == runs.len() {
        return true;
    }
    let run = runs[place];
    if address.0 < run.first.0 {
        return true;
    }
    cut(runs, place, run, address)
}

// Where the first run stands that doesn't end before an address: past the end, where all do.
fn place_up_to(runs: &Vec<Run>, address: Ip4) -> usize
    ensures within { result ≤ vec_len runs.now }
    ensures front { All (ends_before address.0) (take result runs.now.items) }
    ensures here { IfSome (slice_get runs.now.items result) (λ run. address.0 ≤ run.last.0) }
{
    let mut place = 0;
    'seek: while place < runs.len() && runs[place].last.0 < address.0 {
        place += 1;
    }
    place
}

// Takes an address out of the run at a place.
fn cut(runs: &mut Vec<Run>, place: usize, run: Run, address: Ip4) -> bool
    requires at { slice_get runs.old.items place ≡ Some run }
    requires low { run.first.0 ≤ address.0 }
    requires high { address.0 ≤ run.last.0 }
    ensures done { result ≡ true
        → runs.new.items ≡ runs_without address.0 place run runs.old.items }
    ensures capacity { vec_capacity runs.old ≤ vec_capacity runs.new }
{
    if run.first.0 < address.0 {
        let lower = Run {
            first: run.first,
            last: Ip4(address.0 - 1),
        };
        if address.0 < run.last.0 {
            let upper = Run {
                first: Ip4(address.0 + 1),
                last: run.last,
            };
            return part(runs, place, lower, upper);
        }
        runs[place] = lower;
    } else if address.0 < run.last.0 {
        runs[place] = Run {
            first: Ip4(address.0 + 1),
            last: run.last,
        };
    } else {
        let _run = runs.remove(place);
    }
    true
}

// Puts two runs in place of one, where there is room.
fn part(runs: &mut Vec<Run>, place: usize, lower: Run, upper: Run) -> bool
    requires { place < vec_len runs.old }
    ensures done { result ≡ true → runs.new.items
        ≡ take place runs.old.items ++ lower ∷ upper ∷ drop (suc place) runs.old.items }
    ensures capacity { vec_capacity runs.old ≤ vec_capacity runs.new }
{
    if runs.len() == runs.capacity() {
        return false;
    }
    runs[place] = upper;
    runs.insert(place, lower).is_ok()
}

/// The first address of runs, or `None` where there are none.
pub(crate) fn first_address(runs: &Vec<Run>) -> Option<Ip4>
    ensures { result ≡ first_of runs.now.items }
{
    match runs.first() {
        Some(run) => Some(run.first),
        None => None,
    }
}

/// The first of a pool's addresses whose lease has ended by the moment, or `None` where none has.
pub(crate) fn first_open(now: Moment, pool: &Pool, expiries: &[u64]) -> Option<Ip4>
    requires size { IsTrue (has_pool_size pool.now) }
    requires len { length expiries.now ≡ 4096 }
    ensures { let expiry = listed pool.now.first.0 expiries.now in
        MatchOption result (NoneOpen expiry now.0 pool.now)
        (IsLeastOpen expiry now.0 pool.now) }
{
    let first = pool.first.0 as u64;
    let end = pool.last.0 as u64 + 1;
    for at in first..end {
        if expiries[(at - first) as usize] <= now.0 {
            return Some(Ip4(at as u32));
        }
    }
    None
}
