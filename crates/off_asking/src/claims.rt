//! Conditions under which a message is refused whichever client it is of, each by itself.

ghost use Rattle.std.specs.Prelude.{◌≡◌, ◌==◌, not};
ghost use Rattle.off_account_rules.specs.Rows.{passes, has_address};
ghost use Rattle.off_account_rules.specs.Good.{is_address};
ghost use Rattle.off_asking.specs.Claims.{is_served, has_no_form, names_another_server};
ghost use Rattle.off_asking.specs.Claims.{claims_own, claims_in_pool};
ghost use Rattle.off_asking.specs.Claims.{lacks_record, claims_wrongly};
ghost use Rattle.off_asking.specs.Asking.{at_address};

use crate::asking::{
    Asked, asks, claimed, form_of, gives_back, is_formless, is_request, is_selecting,
};
use crate::forms::Named;
use off_base::Ip4;
use off_defs::{Pool, Site};

/// Whether the office serves messages of this kind.
pub fn is_served(m: &Asked<'_>) -> bool
    ensures { result ≡ is_served m.now }
{
    asks(m) || gives_back(m)
}

/// Whether a REQUEST has none of the three forms.
pub fn has_no_form(m: &Asked<'_>) -> bool
    ensures { result ≡ has_no_form m.now }
{
    is_request(m) && is_formless(form_of(m))
}

/// Whether the message names another server than the site's.
pub fn names_another_server(m: &Asked<'_>, site: &Option<Site>) -> bool
    ensures { result ≡ passes (names_another_server m.now) site.now }
{
    match site {
        Some(site) => is_another(m.server(), site.server),
        None => false,
    }
}

fn is_another(named: Named, server: Ip4) -> bool
    ensures { result ≡ passes (λ other. not (other.0 == server.0)) (at_address named) }
{
    match named {
        Named::At(other) => other.0 != server.0,
        Named::Absent | Named::Malformed => false,
    }
}

/// Whether the client claims an address of which the office has no record.
pub fn lacks_record(m: &Asked<'_>, own: Option<Ip4>) -> bool
    ensures { result ≡ lacks_record m.now own }
{
    (is_request(m) && !is_selecting(form_of(m)) && own.is_none())
        || (gives_back(m) && !claims_own(m, own))
}

/// Whether a REQUEST claims an address that isn't the client's own, or not one of its pool.
pub fn claims_wrongly(m: &Asked<'_>, own: Option<Ip4>, pool: Option<Pool>) -> bool
    ensures { result ≡ claims_wrongly m.now own pool }
{
    is_request(m) && !(claims_own(m, own) && claims_in_pool(m, pool))
}

fn claims_own(m: &Asked<'_>, own: Option<Ip4>) -> bool
    ensures { result ≡ claims_own m.now own }
{
    match claimed(m) {
        Some(address) => is_own(own, address),
        None => false,
    }
}

fn is_own(own: Option<Ip4>, address: Ip4) -> bool
    ensures { result ≡ passes (is_address address) own }
{
    match own {
        Some(own) => own.0 == address.0,
        None => false,
    }
}

fn claims_in_pool(m: &Asked<'_>, pool: Option<Pool>) -> bool
    ensures { result ≡ claims_in_pool m.now pool }
{
    match claimed(m) {
        Some(address) => lies_in(pool, address),
        None => false,
    }
}

fn lies_in(pool: Option<Pool>, address: Ip4) -> bool
    ensures { result ≡ passes (λ pool. has_address pool address) pool }
{
    match pool {
        Some(pool) => pool.first.0 <= address.0 && address.0 <= pool.last.0,
        None => false,
    }
}
