//! Numbers with a count of each. A number that isn't there counts as 0.

ghost use Rattle.std.specs.Prelude.{◌≡◌, ◌≤◌, ◌<◌, ◌+◌, ◌-◌, ◌^◌, ◌==◌, ℕ, cond};
ghost use Rattle.std.specs.HashMap.{spare};
ghost use Rattle.off_users.specs.Users.{tally};

use std::collections::HashMap;

/// How often the number is counted.
pub(crate) fn count_at(counts: &HashMap<u32, u64>, number: u32) -> u64
    ensures { result ≡ tally counts.now.entries number }
{
    match counts.get(&number) {
        Some(count) => *count,
        None => 0,
    }
}

/// Counts the number once more. It takes no memory.
pub(crate) fn raise(counts: &mut HashMap<u32, u64>, number: u32)
    requires room { 0 < spare counts.old }
    requires fits { tally counts.old.entries number + 1 < 2 ^ 64 }
    ensures counts { (n : ℕ) → tally counts.new.entries n
        ≡ tally counts.old.entries n + cond (number == n) 1 0 }
    ensures room { spare counts.old ≤ spare counts.new + 1 }
{
    let count = count_at(counts, number);
    let _is_done = counts.insert(number, count + 1).is_ok();
}

/// Counts the number once less. It takes no memory.
pub(crate) fn lower(counts: &mut HashMap<u32, u64>, number: u32)
    ensures counts { (n : ℕ) → tally counts.new.entries n
        ≡ tally counts.old.entries n - cond (number == n) 1 0 }
    ensures room { spare counts.old ≤ spare counts.new }
{
    let count = count_at(counts, number);
    if count <= 1 {
        let _gone = counts.remove(&number);
        return;
    }
    if let Some(place) = counts.get_mut(&number) {
        *place = count - 1;
    }
}
