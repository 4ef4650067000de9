//! The rules by which a message is refused, in their order.

ghost use Rattle.std.specs.Prelude.{◌≡◌};
ghost use Rattle.off_asking.specs.Claims.{refused_by};
ghost use Rattle.off_lease_rules.specs.Rules.{late};
ghost use Rattle.off_lease.specs.Stages.{own_rules, row_rules};

use crate::judging::{has_cut_part, has_other_serial, is_for_another, is_no_modem, relays_another};
use off_asking::{
    Asked, asks, claims_wrongly, first_broken, has_no_form, is_discover, is_served, lacks_record,
};
use off_base::Ip4;
use off_lease_rules::{Case, DhcpWord};

/// The first rule that is broken of those that need no row.
pub(crate) fn own_refusal(m: &Asked<'_>) -> Option<DhcpWord>
    ensures { result ≡ refused_by (own_rules m.now) }
{
    first_broken(&[
        (DhcpWord::NotServed, !is_served(m)),
        (DhcpWord::RequestForm, has_no_form(m)),
        (DhcpWord::PartCut, has_cut_part(m)),
        (DhcpWord::RelayMismatch, relays_another(m)),
        (DhcpWord::NotAModem, is_no_modem(m)),
    ])
}

/// The first rule that is broken of those that need the rows of the client.
pub(crate) fn row_refusal(m: &Asked<'_>, case: &Case) -> Option<DhcpWord>
    ensures { result ≡ refused_by (row_rules m.now case.now) }
{
    first_broken(&[
        (DhcpWord::NoRelayPool, asks(m) && case.pool.is_none()),
        (DhcpWord::NoSite, asks(m) && case.site.is_none()),
        (DhcpWord::UnknownModem, asks(m) && case.modem.is_none()),
        (
            DhcpWord::SerialMismatch,
            asks(m) && has_other_serial(m, &case.modem),
        ),
        (DhcpWord::OtherServer, is_for_another(m, &case.site)),
    ])
}

/// The first rule that is broken of those that need the address that the message is about.
pub(crate) fn late_refusal(m: &Asked<'_>, case: &Case, chosen: Option<Ip4>) -> Option<DhcpWord>
    ensures { result ≡ refused_by (late m.now case.now chosen) }
{
    first_broken(&[
        (DhcpWord::PoolFull, is_discover(m) && chosen.is_none()),
        (DhcpWord::NoRecord, lacks_record(m, case.held)),
        (
            DhcpWord::NotYourAddress,
            claims_wrongly(m, case.held, case.pool),
        ),
    ])
}
