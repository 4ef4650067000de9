//! Pools come and go. Those that go are put aside until all writes are done, since their leases may
//! lie in a pool that comes.

ghost use Rattle.std.specs.Prelude.{◌≡◌, ◌≤◌, ◌<◌, ◌+◌, ◌++◌, [], ◌∷◌, ℕ, Option, None};
ghost use Rattle.std.specs.Prelude.{IsTrue, IfSome, drop, vec_len};
ghost use Rattle.std.specs.Ordering.{nat_cmp, is_gt, is_eq};
ghost use Rattle.std.specs.List.{insert, prefix_len};
ghost use Rattle.std.specs.Vec.{vec_capacity};
ghost use Rattle.off_defs.specs.declared.tables.Pool.{Pool};
ghost use Rattle.off_account_rules.specs.Rows.{pool_fits};
ghost use Rattle.off_runs.specs.Held.{Ground};
ghost use Rattle.off_runs.specs.Shelf.{Shelved, left_of, gone_of, is_first, placed, with_pool};

use crate::pool_runs::PoolRuns;
use crate::pools::{gather, hub_numbered};
use off_defs::Pool;
use std::cmp::Ordering;

/// The pool of a number goes, and one that is given takes its place, with the hub of the number and
/// with the leases that any pool has of its addresses. There's a spare for it.
pub(crate) fn take_pool(
    pools: &mut Vec<PoolRuns>,
    aside: &mut Vec<PoolRuns>,
    spare: &mut Vec<PoolRuns>,
    number: u32,
    pool: Option<Pool>,
)
    requires size { IfSome pool (λ pool. IsTrue (pool_fits pool)) }
    requires room { vec_len pools.old + vec_len aside.old + vec_len spare.old
        ≤ vec_capacity pools.old }
    requires room_aside { vec_len pools.old + vec_len aside.old + vec_len spare.old
        ≤ vec_capacity aside.old }
    requires spare { IfSome pool (λ _. 1 ≤ vec_len spare.old) }
    ensures shelved { (g : Ground) (by : ℕ → Option Pool)
        → Shelved g by pools.old.items aside.old.items
        → Shelved g (with_pool by number pool) pools.new.items aside.new.items }
    ensures room { vec_capacity pools.old ≤ vec_capacity pools.new }
    ensures room_aside { vec_capacity aside.old ≤ vec_capacity aside.new }
    ensures all { vec_len pools.new + vec_len aside.new + vec_len spare.new
        ≡ vec_len pools.old + vec_len aside.old + vec_len spare.old }
    ensures kept { vec_capacity spare.old ≤ vec_capacity spare.new }
    ensures spent { vec_len spare.old ≤ vec_len spare.new + 1 }
    ensures unspent { pool ≡ None → vec_len spare.new ≡ vec_len spare.old }
{
    retire(pools, aside, number);
    let given = match pool {
        None => return,
        Some(given) => given,
    };
    let Some(mut fresh) = spare.pop() else {
        return;
    };
    fresh.begin(number, given, hub_numbered(aside, number));
    gather(&mut fresh, pools);
    gather(&mut fresh, aside);
    put_in(pools, number, fresh);
}

// Puts the pool of a number aside, if there is one.
fn retire(pools: &mut Vec<PoolRuns>, aside: &mut Vec<PoolRuns>, number: u32)
    requires { vec_len pools.old + vec_len aside.old ≤ vec_capacity aside.old }
    ensures left { pools.new.items ≡ left_of number pools.old.items }
    ensures gone { aside.new.items ≡ aside.old.items ++ gone_of number pools.old.items }
    ensures room { vec_capacity pools.new ≡ vec_capacity pools.old }
    ensures room_aside { vec_capacity aside.old ≤ vec_capacity aside.new }
    ensures all { vec_len pools.new + vec_len aside.new ≡ vec_len pools.old + vec_len aside.old }
{
    let place = place_of(pools, number);
    if is_at(pools, place, number) {
        let gone = pools.remove(place);
        push_aside(aside, gone);
    }
}

/// Appends a pool where there is room for it.
pub(crate) fn push_aside(aside: &mut Vec<PoolRuns>, gone: PoolRuns)
    requires { vec_len aside.old < vec_capacity aside.old }
    ensures items { aside.new.items ≡ aside.old.items ++ gone ∷ [] }
    ensures len { vec_len aside.new ≡ vec_len aside.old + 1 }
    ensures capacity { vec_capacity aside.old ≤ vec_capacity aside.new }
{
    let _is_done = aside.push(gone).is_ok();
}

/// All that are aside are spares again.
pub(crate) fn put_back(aside: &mut Vec<PoolRuns>, spare: &mut Vec<PoolRuns>)
    requires { vec_len aside.old + vec_len spare.old ≤ vec_capacity spare.old }
    ensures none { vec_len aside.new ≡ 0 }
    ensures all { vec_len spare.new ≡ vec_len aside.old + vec_len spare.old }
    ensures room { vec_capacity aside.old ≤ vec_capacity aside.new }
    ensures kept { vec_capacity spare.old ≤ vec_capacity spare.new }
{
    'back: while let Some(gone) = aside.pop() {
        push_aside(spare, gone);
    }
}

// Puts a pool in its place.
fn put_in(pools: &mut Vec<PoolRuns>, number: u32, fresh: PoolRuns)
    requires number { fresh.number ≡ number }
    requires room { vec_len pools.old < vec_capacity pools.old }
    ensures items { pools.new.items ≡ placed fresh pools.old.items }
    ensures len { vec_len pools.new ≡ vec_len pools.old + 1 }
    ensures capacity { vec_capacity pools.old ≤ vec_capacity pools.new }
{
    let place = place_of(pools, number);
    insert_at(pools, place, fresh);
}

// Inserts a pool where there is room for it.
fn insert_at(pools: &mut Vec<PoolRuns>, place: usize, fresh: PoolRuns)
    requires within { place ≤ vec_len pools.old }
    requires room { vec_len pools.old < vec_capacity pools.old }
    ensures items { pools.new.items ≡ insert pools.old.items place fresh }
    ensures len { vec_len pools.new ≡ vec_len pools.old + 1 }
    ensures capacity { vec_capacity pools.old ≤ vec_capacity pools.new }
{
    let _is_done = pools.insert(place, fresh).is_ok();
}

// Where the pool of a number stands, or is to be put.
fn place_of(pools: &Vec<PoolRuns>, number: u32) -> usize
    ensures place { result ≡ prefix_len (λ p. is_gt (nat_cmp number p.number)) pools.now.items }
    ensures within { result ≤ vec_len pools.now }
{
    let mut place = 0;
    'seek: while place < pools.len() && is_above(number, pools[place].number()) {
        place += 1;
    }
    place
}

// Whether the pool of the number stands at the place.
fn is_at(pools: &Vec<PoolRuns>, place: usize, number: u32) -> bool
    ensures { result ≡ is_first number (drop place pools.now.items) }
{
    place < pools.len() && is_same(number, pools[place].number())
}

fn is_above(number: u32, other: u32) -> bool
    ensures { result ≡ is_gt (nat_cmp number other) }
{
    number.cmp(&other) == Ordering::Greater
}

fn is_same(number: u32, other: u32) -> bool
    ensures { result ≡ is_eq (nat_cmp number other) }
{
    number.cmp(&other) == Ordering::Equal
}
