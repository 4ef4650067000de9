ghost use Rattle.std.specs.Prelude.{◌≡◌, MatchResult, Ok, IsTrue, IfOk};
ghost use Rattle.off_documents.specs.Documents.{data_of};
ghost use Rattle.off_orders.specs.Sound.{is_sound_pool};
ghost use Rattle.off_account_rules.specs.Rows.{subscriber_fits};
ghost use Rattle.off_clerk_rules.specs.Commands.{GivesWanted, GivesFault, object_in, site_in};
ghost use Rattle.off_clerk_rules.specs.Commands.{subscriber_in};
ghost use Rattle.off_clerk_rules.specs.Commands.{add_on_in, modem_in, class_in, pool_in};
ghost use Rattle.off_clerk_rules.specs.Commands.{hub_of_pool_in};

use crate::fields::{address, flag, number, number_or, offset, relay, secret, small, text};
use crate::trees::settings;
use json::Scratch;
use off_clerk_rules::{ClerkErr, CommandErr, Name};
use off_defs::{
    Class, LEAST_PREFIX, MOST_DEVICES, MOST_PREFIX, Modem, Pool, SharedSettings, Site, Subscriber,
};
use off_documents::{Document, DocumentErr, Part};
use std::alloc::Global;

/// The JSON object that a body is.
pub fn object_of<'a>(
    alloc: Global,
    body: &'a [u8],
    scratch: &'a mut Scratch,
) -> Result<Document<'a>, CommandErr>
    ensures { MatchResult result (λ document. object_in body.now ≡ Ok (data_of document))
        (GivesFault (object_in body.now)) }
{
    match Document::read(alloc, body, scratch) {
        Ok(document) => {
            if document.root().is_object() {
                Ok(document)
            } else {
                Err(CommandErr::Fault(ClerkErr::NotJson))
            }
        }
        Err(DocumentErr::NotJson) => Err(CommandErr::Fault(ClerkErr::NotJson)),
        Err(DocumentErr::Memory) => Err(CommandErr::Memory),
    }
}

// Each of these reads the fields of a body, in the order in which their faults count.

/// How an office serves the modems of a hub.
pub fn site_of(body: &Part<'_, '_>) -> Result<Site, ClerkErr>
    ensures { result ≡ site_in (data_of body.now) }
{
    let server = address(body, Name::Server)?;
    let secret = secret(body, Name::Secret)?;
    let offset = offset(body, Name::Offset)?;
    let lease = number(body, Name::Lease)?;
    let log = address(body, Name::Log)?;
    Ok(Site {
        server,
        secret,
        offset,
        lease,
        log,
    })
}

/// A subscriber.
pub fn subscriber_of(body: &Part<'_, '_>) -> Result<Subscriber, ClerkErr>
    ensures exact { result ≡ subscriber_in (data_of body.now) }
    ensures sound { IfOk result (λ subscriber. IsTrue (subscriber_fits subscriber)) }
{
    let active = flag(body, Name::Active)?;
    let cpes = small(body, Name::Cpes, 1, MOST_DEVICES)?;
    let name = text(body, Name::Name)?;
    Ok(Subscriber { active, cpes, name })
}

/// The settings of an add-on.
pub fn add_on_of(alloc: Global, body: &Part<'_, '_>) -> Result<SharedSettings, CommandErr>
    ensures { GivesWanted (add_on_in (data_of body.now)) result }
{
    settings(alloc, body, Name::Settings)
}

/// A modem.
pub fn modem_of(body: &Part<'_, '_>) -> Result<Modem, ClerkErr>
    ensures { result ≡ modem_in (data_of body.now) }
{
    let subscriber = number(body, Name::Subscriber)?;
    let class = number(body, Name::Class)?;
    let serial = text(body, Name::Serial)?;
    Ok(Modem {
        subscriber,
        class,
        serial,
    })
}

/// A class of service.
pub fn class_of(alloc: Global, body: &Part<'_, '_>) -> Result<Class, CommandErr>
    ensures { GivesWanted (class_in (data_of body.now)) result }
{
    let name = text(body, Name::Name)?;
    let settings = settings(alloc, body, Name::Settings)?;
    Ok(Class { name, settings })
}

/// A pool of addresses, of modems or of devices.
pub fn pool_of(body: &Part<'_, '_>) -> Result<Pool, ClerkErr>
    ensures exact { result ≡ pool_in (data_of body.now) }
    ensures sound { IfOk result (λ pool. IsTrue (is_sound_pool pool)) }
{
    let first = address(body, Name::First)?;
    let last = address(body, Name::Last)?;
    let prefix = small(body, Name::Prefix, LEAST_PREFIX, MOST_PREFIX)?;
    let router = address(body, Name::Router)?;
    let relay = relay(body, Name::Relay)?;
    Ok(Pool {
        first,
        last,
        prefix,
        router,
        relay,
    })
}

/// The pool's hub, which is the hub 0 where the body names none.
pub fn hub_of_pool(body: &Part<'_, '_>) -> Result<u32, ClerkErr>
    ensures { result ≡ hub_of_pool_in (data_of body.now) }
{
    number_or(0, body, Name::Hub)
}
