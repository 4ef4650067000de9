use off_account_rules::Counts;
use off_base::Moment;
use off_defs::Writes;
use off_orders::{Reply, Rule};
use off_outside::KeepErr;

/// What a command is to do.
#[derive(Drop)]
pub struct Planned {
    /// What is to be written.
    pub writes: Writes,
    /// What is to be answered once it's written.
    pub reply: Reply,
    /// How many rows there are of each kind once it's written.
    pub counts: Counts,
}

/// What is known where a command comes: how many rows there are, and the moment.
#[derive(Clone, Copy, PartialEq, Eq)]
pub(crate) struct Asked {
    pub counts: Counts,
    pub at: Moment,
}

/// Why a command isn't to be done.
#[derive(Clone, Copy, PartialEq, Eq)]
pub enum AccountErr {
    /// A rule is broken. In an import the rows count from 1, and row 0 means none of them.
    Refused { row: u32, rule: Rule },
    /// The keeper failed, and counted a fault.
    Failed,
    /// Memory was wanted, and refused.
    Memory,
}

impl From<KeepErr> for AccountErr {
    ghost use Rattle.std.specs.Prelude.{◌≡◌};
    ghost use Rattle.off_accounts.specs.Deciding.{not_kept};

    ghost from_gives = { λ kept err. err ≡ not_kept kept };

    fn from(kept: KeepErr) -> AccountErr {
        match kept {
            KeepErr::Memory => AccountErr::Memory,
            KeepErr::Failed => AccountErr::Failed,
        }
    }
}
