//! Each condition under which a modem's message is refused, by itself.

ghost use Rattle.std.specs.Prelude.{◌≡◌, ◌==◌, ◌&&◌, not, length};
ghost use Rattle.std.specs.Str.{bytes_eq};
ghost use Rattle.off_account_rules.specs.Rows.{passes};
ghost use Rattle.off_asking.specs.Asking.{serial_number};
ghost use Rattle.off_asking.specs.Claims.{names_another_server};
ghost use Rattle.off_lease_rules.specs.Rules.{has_cut_part, relays_another, is_no_modem};
ghost use Rattle.off_lease_rules.specs.Rules.{has_other_serial, is_for_a_server};

use off_asking::{
    Asked, asks, client, form_of, gives_back, is_discover, is_relay_cut, is_request, is_selecting,
    is_vendor_cut, names_another_server, relays_other, says_modem, says_other, says_other_serial,
};
use off_defs::{Modem, Site};

pub(crate) fn has_cut_part(m: &Asked<'_>) -> bool
    ensures { result ≡ has_cut_part m.now }
{
    (asks(m) && is_vendor_cut(m)) || is_relay_cut(m)
}

pub(crate) fn relays_another(m: &Asked<'_>) -> bool
    ensures { result ≡ relays_another m.now }
{
    relays_other(m, client(m))
}

pub(crate) fn is_no_modem(m: &Asked<'_>) -> bool
    ensures { result ≡ is_no_modem m.now }
{
    (is_discover(m) && !says_modem(m)) || (is_request(m) && says_other(m))
}

/// Whether the client says another serial number than its row, where both have one.
pub(crate) fn has_other_serial(m: &Asked<'_>, modem: &Option<Modem>) -> bool
    ensures { result ≡ passes (has_other_serial m.now) modem.now }
{
    match modem {
        Some(modem) => differs_in_serial(m, modem.serial.as_slice()),
        None => false,
    }
}

fn differs_in_serial(m: &Asked<'_>, serial: &[u8]) -> bool
    ensures { result ≡ (not (length serial.now == 0)
        && passes (λ said. not (bytes_eq said serial.now)) (serial_number m.now)) }
{
    !serial.is_empty() && says_other_serial(m, serial)
}

/// Whether a message that is for one server alone is for another one.
pub(crate) fn is_for_another(m: &Asked<'_>, site: &Option<Site>) -> bool
    ensures { result ≡ (is_for_a_server m.now && passes (names_another_server m.now) site.now) }
{
    is_for_a_server(m) && names_another_server(m, site)
}

fn is_for_a_server(m: &Asked<'_>) -> bool
    ensures { result ≡ is_for_a_server m.now }
{
    (is_request(m) && is_selecting(form_of(m))) || gives_back(m)
}
