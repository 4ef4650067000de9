//! The rules by which a device's message is refused, in their order.

ghost use Rattle.std.specs.Prelude.{◌≡◌};
ghost use Rattle.off_asking.specs.Claims.{refused_by};
ghost use Rattle.off_cpe_rules.specs.Rules.{late};
ghost use Rattle.off_cpe.specs.Stages.{own_rules, row_rules};

use crate::judging::{has_service, is_for_another, is_full};
use off_asking::{
    Asked, asks, claims_wrongly, first_broken, has_no_form, is_discover, is_served, lacks_record,
};
use off_base::Ip4;
use off_cpe_rules::{DeviceCase, DeviceWord};

/// The first rule that is broken of those that need no row.
pub(crate) fn own_refusal(m: &Asked<'_>) -> Option<DeviceWord>
    ensures { result ≡ refused_by (own_rules m.now) }
{
    first_broken(&[
        (DeviceWord::NotServed, !is_served(m)),
        (DeviceWord::Form, has_no_form(m)),
    ])
}

/// The first rule that is broken of those that need the rows of the modem.
pub(crate) fn row_refusal(m: &Asked<'_>, case: &DeviceCase) -> Option<DeviceWord>
    ensures { result ≡ refused_by (row_rules m.now case.now) }
{
    first_broken(&[
        (DeviceWord::NoPool, asks(m) && case.pool.is_none()),
        (DeviceWord::Suspended, asks(m) && !has_service(case)),
        (DeviceWord::Offline, !case.is_online),
        (DeviceWord::OtherServer, is_for_another(m, case)),
        (DeviceWord::Limit, asks(m) && is_full(case)),
    ])
}

/// The first rule that is broken of those that need the address that the message is about.
pub(crate) fn late_refusal(
    m: &Asked<'_>,
    case: &DeviceCase,
    chosen: Option<Ip4>,
) -> Option<DeviceWord>
    ensures { result ≡ refused_by (late m.now case.now chosen) }
{
    first_broken(&[
        (DeviceWord::PoolFull, is_discover(m) && chosen.is_none()),
        (DeviceWord::NoRecord, lacks_record(m, case.own)),
        (DeviceWord::NotYours, claims_wrongly(m, case.own, case.pool)),
    ])
}
