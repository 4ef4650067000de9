ghost use Rattle.std.specs.Prelude.{◌≡◌, ◌≤◌, length};
ghost use Rattle.off_import_rules.specs.Faults.{fault_word, fault_status};
ghost use Rattle.off_import_rules.specs.declared.faults.ImportErr.TheVariants.{Fault};

/// The first fault of an import, in the order of reading.
#[derive(Clone, Copy, PartialEq, Eq)]
pub enum ImportFault {
    /// There is no first record, or it isn't the names of the columns.
    Header,
    /// The row of this number, from 1 behind the header, hasn't four fields.
    Width(u32),
    /// In the row of the first number, the field in the column of the second, from 1, can't be
    /// read.
    Field(u32, u32),
    /// There are more rows than an import may have.
    TooMany,
}

/// Why bytes are no import.
#[derive(Clone, Copy, PartialEq, Eq)]
pub enum ImportErr {
    Fault(ImportFault),
    /// Memory was wanted, and refused.
    Memory,
}

impl From<ImportFault> for ImportErr {
    ghost from_gives = { λ fault err. err ≡ Fault fault };

    fn from(fault: ImportFault) -> ImportErr {
        ImportErr::Fault(fault)
    }
}

impl ImportFault {
    /// The fault's word in the answer to a clerk, in ASCII.
    pub fn word(self) -> &'static [u8]
        ensures exact { result.now ≡ fault_word self }
        ensures short { length result.now ≤ 20 }
    {
        match self {
            ImportFault::Header => b"header",
            ImportFault::Width(_) => b"width",
            ImportFault::Field(_, _) => b"import-field",
            ImportFault::TooMany => b"too-many",
        }
    }

    /// The answer's status (RFC 9110, section 15).
    pub fn status(self) -> u16
        ensures { result ≡ fault_status self }
    {
        422
    }
}
