ghost use Rattle.std.specs.Prelude.{◌≡◌, IfOk};

use crate::tables::{Class, Modem, Row, Site, Subscriber};
use off_base::NoMemory;
use std::alloc::Global;

/// The same row again.
pub fn copy_row(_alloc: Global, r: &Row) -> Result<Row, NoMemory>
    ensures { IfOk result (λ copy. copy ≡ r.now) }
{
    match r {
        Row::Site(site) => Ok(Row::Site(site.copy())),
        Row::Subscriber(subscriber) => Ok(Row::Subscriber(subscriber.copy())),
        Row::AddOn(settings) => Ok(Row::AddOn(settings.share()?)),
        Row::Modem(modem) => Ok(Row::Modem(modem.copy())),
        Row::Class(class) => Ok(Row::Class(class.copy()?)),
        Row::Pool(pool) => Ok(Row::Pool(*pool)),
        Row::Lease(lease) => Ok(Row::Lease(*lease)),
        Row::Held(address) => Ok(Row::Held(*address)),
        Row::Batch(batch) => Ok(Row::Batch(*batch)),
        Row::PoolHub(hub) => Ok(Row::PoolHub(*hub)),
        Row::Device(lease) => Ok(Row::Device(*lease)),
    }
}

impl Site {
    /// The same site again.
    pub fn copy(&self) -> Site
        ensures { result ≡ self.now }
    {
        Site {
            server: self.server,
            secret: self.secret.copy(),
            offset: self.offset,
            lease: self.lease,
            log: self.log,
        }
    }
}

impl Subscriber {
    /// The same subscriber again.
    pub fn copy(&self) -> Subscriber
        ensures { result ≡ self.now }
    {
        Subscriber {
            active: self.active,
            cpes: self.cpes,
            name: self.name.copy(),
        }
    }
}

impl Modem {
    /// The same modem again.
    pub fn copy(&self) -> Modem
        ensures { result ≡ self.now }
    {
        Modem {
            subscriber: self.subscriber,
            class: self.class,
            serial: self.serial.copy(),
        }
    }
}

impl Class {
    /// The same class again.
    pub fn copy(&self) -> Result<Class, NoMemory>
        ensures { IfOk result (λ copy. copy ≡ self.now) }
    {
        Ok(Class {
            name: self.name.copy(),
            settings: self.settings.share()?,
        })
    }
}
