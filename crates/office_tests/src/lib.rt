//! What no script can say: a keeper that tells nothing and whose entries don't rise, impossible
//! rows behind the opening test, drills over a keeper that forgets, `Office::command` by itself, a
//! commit for which memory is refused; the service of devices over a keeper alone; who uses
//! what, behind random writes; and a modem's file, whose blocks are read by a call that no program
//! makes. `lease_tests` has what is of leases alone.
//!
//! There is nothing here but tests. They show that calls succeed with ample memory, which no
//! contract can say. All other examples are data: `office_script`.
#![tactic(auto)]

#[cfg(test)]
mod behind;
#[cfg(test)]
mod commands;
#[cfg(test)]
mod desk;
#[cfg(test)]
mod files;
#[cfg(test)]
mod forgetting;
#[cfg(test)]
mod kept;
#[cfg(test)]
mod lying;
#[cfg(test)]
mod silence;
#[cfg(test)]
mod straying;
#[cfg(test)]
mod users;
