ghost use Rattle.std.specs.Prelude.{◌≡◌};
ghost use Rattle.off_orders.specs.Shown.{shown_row};

use off_defs::{Class, Lease, Modem, Pool, Row, SharedSettings, Site, Subscriber};

/// A row as a clerk is shown it. What a modem holds, the batches, the hubs of pools and the leases
/// of devices are the office's own.
#[derive(Drop)]
pub enum ShownRow {
    Site(Site),
    Subscriber(Subscriber),
    /// The settings of an add-on.
    AddOn(SharedSettings),
    Modem(Modem),
    Class(Class),
    Pool(Pool),
    Lease(Lease),
}

impl ShownRow {
    /// The row as it is shown, or None where it is one of the office's own.
    pub fn of(row: Row) -> Option<ShownRow>
        ensures { result ≡ shown_row row }
    {
        match row {
            Row::Site(site) => Some(ShownRow::Site(site)),
            Row::Subscriber(subscriber) => Some(ShownRow::Subscriber(subscriber)),
            Row::AddOn(settings) => Some(ShownRow::AddOn(settings)),
            Row::Modem(modem) => Some(ShownRow::Modem(modem)),
            Row::Class(class) => Some(ShownRow::Class(class)),
            Row::Pool(pool) => Some(ShownRow::Pool(pool)),
            Row::Lease(lease) => Some(ShownRow::Lease(lease)),
            Row::Held(_) => None,
            Row::Batch(_) => None,
            Row::PoolHub(_) => None,
            Row::Device(_) => None,
        }
    }
}
