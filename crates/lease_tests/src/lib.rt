//! What no script can say of leases: queries over a keeper alone; free addresses behind random
//! writes; and what a client's message does, beside a plain program of it (`plain_leases`), over
//! random rows.
//!
//! There is nothing here but tests. They show that calls succeed with ample memory, which no
//! contract can say. All other examples are data: `office_script`.
#![tactic(auto)]

#[cfg(test)]
mod drafts;
#[cfg(test)]
mod free;
#[cfg(test)]
mod lease_rows;
#[cfg(test)]
mod querying;
#[cfg(test)]
mod trials;
