ghost use Rattle.std.specs.Prelude.{◌≡◌};
ghost use Rattle.off_clerk_rules.specs.declared.faults.CommandErr.TheVariants.{Fault};

use crate::names::Name;
use off_http::HttpFault;
use off_import_rules::ImportFault;
use off_orders::Rule;

/// Why a request is no command.
#[derive(Clone, Copy, PartialEq, Eq)]
pub enum ClerkErr {
    /// No row that a clerk may see stands at the path.
    NoPath,
    /// The path has no such method (RFC 9110, section 15.5.6).
    NoMethod,
    /// The body isn't one JSON object (RFC 8259).
    NotJson,
    /// The body has no such field, and every field before it is good.
    Field(Name),
    /// The field is of another kind, or out of its range, and every field before it is good.
    Value(Name),
    /// The body of an import can't be read.
    Import(ImportFault),
}

/// Why a request gives no command.
#[derive(Clone, Copy, PartialEq, Eq)]
pub enum CommandErr {
    /// It is none, and the clerk is told so.
    Fault(ClerkErr),
    /// Memory was wanted, and refused.
    Memory,
}

impl From<ClerkErr> for CommandErr {
    ghost from_gives = { λ fault err. err ≡ Fault fault };

    fn from(fault: ClerkErr) -> CommandErr {
        CommandErr::Fault(fault)
    }
}

/// Why a clerk's request isn't done.
#[derive(Clone, Copy, PartialEq, Eq)]
pub enum Fault {
    /// The request is no command.
    Clerk(ClerkErr),
    /// The bytes are no request.
    Http(HttpFault),
    /// A rule of the command is broken.
    Rule {
        /// The row of an import at which it is, from 1 on, or 0 where no row is meant.
        row: u32,
        rule: Rule,
    },
}
