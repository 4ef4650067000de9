//! Laws of the grammar. What the functions do is of no use; their contracts are the laws.
ghost use Rattle.off_tlv.specs.Fault.{HasOneReading, HasReading};

use crate::extents::extent;

/// A file has at most one reading or one first fault, never both and never two.
#[tactic(auto, using(crate::proofs::GrammarLemmas::one_reading))]
pub fn a_file_has_one_reading()
    ensures { HasOneReading }
{}

/// A file has a reading or a first fault.
#[tactic(auto, using(crate::proofs::ReadingLemmas::has_reading))]
pub fn a_file_has_a_reading_or_a_fault(file: &[u8])
    ensures { HasReading file.now }
{
    let _found = extent(file);
}
