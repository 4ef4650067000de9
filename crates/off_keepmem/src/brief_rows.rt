ghost use Rattle.std.specs.Prelude.{◌≡◌, IfSome};
ghost use Rattle.off_keepmem.specs.KeptRows.{modem_kept, subscriber_kept};

use crate::brief::Brief;
use off_defs::{Modem, Subscriber};

/// A modem whose serial number has so few bytes that it's kept on a shelf itself.
#[derive(Drop)]
pub(crate) struct BriefModem {
    subscriber: u32,
    class: u32,
    serial: Brief<15>,
}

/// A subscriber whose name has so few bytes that it's kept on a shelf itself.
#[derive(Drop)]
pub(crate) struct BriefSubscriber {
    active: bool,
    cpes: u8,
    name: Brief<21>,
}

impl BriefModem {
    /// The same modem, if its serial number is brief.
    pub(crate) fn of(modem: &Modem) -> Option<BriefModem>
        ensures { IfSome result (λ brief. modem_kept brief ≡ modem.now) }
    {
        match Brief::of(&modem.serial) {
            Some(serial) => Some(BriefModem {
                subscriber: modem.subscriber,
                class: modem.class,
                serial,
            }),
            None => None,
        }
    }

    /// The modem.
    pub(crate) fn modem(&self) -> Modem
        ensures { result ≡ modem_kept self.now }
    {
        Modem {
            subscriber: self.subscriber,
            class: self.class,
            serial: self.serial.text(),
        }
    }
}

impl BriefSubscriber {
    /// The same subscriber, if the name is brief.
    pub(crate) fn of(subscriber: &Subscriber) -> Option<BriefSubscriber>
        ensures { IfSome result (λ brief. subscriber_kept brief ≡ subscriber.now) }
    {
        match Brief::of(&subscriber.name) {
            Some(name) => Some(BriefSubscriber {
                active: subscriber.active,
                cpes: subscriber.cpes,
                name,
            }),
            None => None,
        }
    }

    /// The subscriber.
    pub(crate) fn subscriber(&self) -> Subscriber
        ensures { result ≡ subscriber_kept self.now }
    {
        Subscriber {
            active: self.active,
            cpes: self.cpes,
            name: self.name.text(),
        }
    }
}
