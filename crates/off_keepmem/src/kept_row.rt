ghost use Rattle.std.specs.Prelude.{◌≡◌, IfOk, IfSome};
ghost use Rattle.off_keepmem.specs.KeptRows.{row_kept};

use crate::brief_rows::{BriefModem, BriefSubscriber};
use off_base::{Ip4, NoMemory};
use off_defs::{DeviceLease, Lease, Row};
use off_rows::copy_row;
use std::alloc::Global;
use std::marker::Model;

/// A row as a shelf keeps it: a small one on the shelf itself, which takes no memory of its own and
/// is read where its key was found, and any other in a box. Contracts see the row.
#[derive(Drop)]
pub(crate) struct KeptRow {
    form: RowForm,
}

/// Where a row is kept. What is kept on the shelf has at most 24 bytes, as a device's lease has.
#[derive(Drop)]
enum RowForm {
    Lease(Lease),
    Held(Ip4),
    PoolHub(u32),
    Device(DeviceLease),
    Modem(BriefModem),
    Subscriber(BriefSubscriber),
    Boxed(Box<Row>),
}

impl Model for KeptRow {
    ghost use Rattle.off_defs.specs.declared.tables.Row.{Row};
    ghost use Rattle.off_defs.specs.contracts.tables.Row as row;
    ghost use Rattle.off_keepmem.specs.KeptRows.{row_kept};

    ghost Value = { Row };

    ghost coded = { row.the_row.coded };

    ghost view = { λ k. row_kept k.form };
}

impl KeptRow {
    /// A row that is given away. It's moved into a box, unless it is small.
    pub(crate) fn new(alloc: Global, row: Row) -> Result<KeptRow, NoMemory>
        ensures { IfOk result (λ kept. kept ≡ row) }
    {
        match on_shelf(&row) {
            Some(form) => Ok(KeptRow { form }),
            None => boxed(alloc, row),
        }
    }

    /// A row again. It's copied into a box, unless it is small.
    pub(crate) fn copy_of(alloc: Global, row: &Row) -> Result<KeptRow, NoMemory>
        ensures { IfOk result (λ kept. kept ≡ row.now) }
    {
        match on_shelf(row) {
            Some(form) => Ok(KeptRow { form }),
            None => boxed(alloc, copy_row(alloc, row)?),
        }
    }

    /// The row again, for whoever asked for it.
    pub(crate) fn copy(&self, alloc: Global) -> Result<Row, NoMemory>
        ensures { IfOk result (λ row. row ≡ self.now) }
    {
        match &self.form {
            RowForm::Lease(lease) => Ok(Row::Lease(*lease)),
            RowForm::Held(address) => Ok(Row::Held(*address)),
            RowForm::PoolHub(hub) => Ok(Row::PoolHub(*hub)),
            RowForm::Device(lease) => Ok(Row::Device(*lease)),
            RowForm::Modem(brief) => Ok(Row::Modem(brief.modem())),
            RowForm::Subscriber(brief) => Ok(Row::Subscriber(brief.subscriber())),
            RowForm::Boxed(row) => copy_row(alloc, row),
        }
    }
}

// A row as it's kept on the shelf itself, if it is small.
fn on_shelf(row: &Row) -> Option<RowForm>
    ensures { IfSome result (λ form. row_kept form ≡ row.now) }
{
    match row {
        Row::Lease(lease) => Some(RowForm::Lease(*lease)),
        Row::Held(address) => Some(RowForm::Held(*address)),
        Row::PoolHub(hub) => Some(RowForm::PoolHub(*hub)),
        Row::Device(lease) => Some(RowForm::Device(*lease)),
        Row::Modem(modem) => BriefModem::of(modem).map(RowForm::Modem),
        Row::Subscriber(subscriber) => BriefSubscriber::of(subscriber).map(RowForm::Subscriber),
        _ => None,
    }
}

// A row that is moved into a box.
fn boxed(alloc: Global, row: Row) -> Result<KeptRow, NoMemory>
    ensures { IfOk result (λ kept. kept ≡ row) }
{
    match Box::new(alloc, row) {
        Ok(boxed) => Ok(KeptRow {
            form: RowForm::Boxed(boxed),
        }),
        Err(_refused) => Err(NoMemory),
    }
}
