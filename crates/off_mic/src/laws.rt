//! Laws of sealed files. The functions do nothing; their contracts are the laws.
ghost use Rattle.off_mic.specs.Laws.{SealedIsOne, SealedVerifies, SealedStays, VerdictTells};

/// Settings have one sealed file under a secret.
pub fn settings_have_one_sealed_file()
    ensures { SealedIsOne }
{}

/// A sealed file is by the grammar the settings with both values, and both are right.
pub fn a_sealed_file_verifies()
    ensures { SealedVerifies }
{}

/// Sealing a sealed file again gives the same bytes.
pub fn a_sealed_file_stays()
    ensures { SealedStays }
{}

/// Both answers on a file are yes exactly where both of its values are right.
pub fn a_verdict_tells()
    ensures { VerdictTells }
{}
