//! Journals over a disk in memory, stopped at each call and at each byte, whatever a crash leaves:
//! what an opening finds, as the worked examples of the journal's file have it.
//!
//! There is nothing here but tests. They show that calls succeed with ample memory, which no
//! contract can say, and that the images that the disk picks tell wrong orders of writes from the
//! right one.
#![tactic(auto)]

#[cfg(test)]
mod crashes;
#[cfg(test)]
mod files;
#[cfg(test)]
mod journals;
