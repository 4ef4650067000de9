//! Each condition under which a device's message is refused, by itself.

ghost use Rattle.std.specs.Prelude.{◌≡◌};
ghost use Rattle.off_cpe_rules.specs.Rules.{has_service, is_full, is_for_another};

use off_asking::{Asked, gives_back, is_request, names_another_server};
use off_cpe_rules::DeviceCase;

/// Whether the modem's subscriber has service.
pub(crate) fn has_service(case: &DeviceCase) -> bool
    ensures { result ≡ has_service case.now }
{
    match &case.subscriber {
        Some(subscriber) => subscriber.active,
        None => false,
    }
}

/// Whether other devices have as many addresses as the subscriber may.
pub(crate) fn is_full(case: &DeviceCase) -> bool
    ensures { result ≡ is_full case.now }
{
    match &case.subscriber {
        Some(subscriber) => u64::from(subscriber.cpes) <= case.others,
        None => false,
    }
}

/// Whether the message is for another server.
pub(crate) fn is_for_another(m: &Asked<'_>, case: &DeviceCase) -> bool
    ensures { result ≡ is_for_another m.now case.now }
{
    (is_request(m) || gives_back(m)) && names_another_server(m, &case.site)
}
