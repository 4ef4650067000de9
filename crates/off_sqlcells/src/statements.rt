ghost use Rattle.std.specs.Prelude.{◌≡◌, ◌≢◌, ◌≤◌, ◌<◌, ◌⊎◌, List, ℕ, [], ◌∷◌, length, false};
ghost use Rattle.std.specs.Prelude.{IfOk, IfErr, MatchOption};
ghost use Rattle.std.specs.Option.{option_map};
ghost use Rattle.sqlite_value.specs.declared.value.Value.TheVariants.{Blob as Octets};
ghost use Rattle.sqlite_value.specs.Order.{column};
ghost use Rattle.sqlite.specs.Held.{state};
ghost use Rattle.sqlite.specs.State.{HasCleanDisk, Shown, FailsToQuery};
ghost use Rattle.off_cells.specs.CellsSeen.{CellMap, cell_at, next_cell};
ghost use Rattle.off_sqlcells.specs.Statements.{get_text, first_text, next_text};
ghost use Rattle.off_sqlcells.specs.Statements.{walk_text, walk_params};
ghost use Rattle.off_sqlcells.specs.Statements.{Gets, Nexts};
ghost use Rattle.off_sqlcells.specs.declared.refusals.Refused.TheVariants.{Memory};
ghost use Rattle.off_sqlcells.specs.Refusals.{FailsToLook, FailsToCopy};
ghost use Rattle.off_sqlcells.specs.Refusals.{ShowNoValue, ShowNoCell, IsNoCell};
ghost use Rattle.off_sqlcells.specs.Stands.{IsSteady, StillTells, Looked};

use crate::refusals::Refused;
use off_base::Bytes;
use off_rows::KeyBytes;
use sqlite::{Alter, Connection, Error, Row};
use sqlite_value::value::ValueRef;
use std::alloc::Global;

// The value under a key.
pub(crate) fn find_val<S: Alter>(
    conn: &mut Connection<S>,
    alloc: Global,
    ident: &[u8],
) -> Result<Option<Bytes>, Refused>
    ensures mode { conn.old.in_transaction ≡ false → conn.new.in_transaction ≡ false }
    ensures kept { IsSteady S.Store
        → StillTells (state S.Store conn.old) (state S.Store conn.new) }
    ensures found { IsSteady S.Store
        → IfOk result (λ val. Looked (state S.Store conn.old) (state S.Store conn.new)
        (λ m. val ≡ cell_at m ident.now)) }
    ensures cause { IsSteady S.Store → IfErr result (FailsToLook get_text
        (Octets ident.now ∷ []) ShowNoValue
        (state S.Store conn.old) (state S.Store conn.new)) }
{
    match rows_with(conn, ident) {
        Ok(rows) => val_of(alloc, &rows),
        Err(err) => Err(Refused::from(err)),
    }
}

fn rows_with<S: Alter>(conn: &mut Connection<S>, ident: &[u8]) -> Result<Vec<Row>, Error>
    ensures mode { conn.old.in_transaction ≡ false → conn.new.in_transaction ≡ false }
    ensures shown { HasCleanDisk (state S.Store conn.new) → IfOk result (λ rows.
        Shown get_text (Octets ident.now ∷ []) (state S.Store conn.old)
        (state S.Store conn.new) rows.items) }
    ensures fails { HasCleanDisk (state S.Store conn.new) → IfErr result
        (FailsToQuery get_text (Octets ident.now ∷ []) (state S.Store conn.old)
        (state S.Store conn.new)) }
{
    conn.query_all(
        "SELECT val FROM office WHERE ident = ?1",
        &[ValueRef::Blob(ident)],
    )
}

fn val_of(alloc: Global, rows: &Vec<Row>) -> Result<Option<Bytes>, Refused>
    ensures cause { IfErr result (FailsToCopy (ShowNoValue rows.now.items)) }
    ensures read { IfOk result (λ val. (ident : List ℕ) (m : CellMap) → Gets ident m rows.now.items
        → val ≡ cell_at m ident) }
{
    if rows.is_empty() {
        return Ok(None);
    }
    let val = blob_of(alloc, &rows[0], 0)?;
    Ok(Some(val))
}

// The cell of the least key, or of the least key above one.
pub(crate) fn find_behind<S: Alter>(
    conn: &mut Connection<S>,
    alloc: Global,
    after: Option<&KeyBytes>,
) -> Result<Option<(KeyBytes, Bytes)>, Refused>
    ensures mode { conn.old.in_transaction ≡ false → conn.new.in_transaction ≡ false }
    ensures kept { IsSteady S.Store
        → StillTells (state S.Store conn.old) (state S.Store conn.new) }
    ensures found { IsSteady S.Store
        → IfOk result (λ cell. Looked (state S.Store conn.old) (state S.Store conn.new)
        (λ m. cell ≡ next_cell (option_map (λ key. key.now) after.entry) m)) }
    ensures cause { let place = option_map (λ key. key.now) after.entry in IsSteady S.Store
        → IfErr result (FailsToLook (walk_text place) (walk_params place) ShowNoCell
        (state S.Store conn.old) (state S.Store conn.new)) }
{
    match after {
        Some(key) => find_above(conn, alloc, key.as_slice()),
        None => find_first(conn, alloc),
    }
}

fn find_first<S: Alter>(
    conn: &mut Connection<S>,
    alloc: Global,
) -> Result<Option<(KeyBytes, Bytes)>, Refused>
    ensures mode { conn.old.in_transaction ≡ false → conn.new.in_transaction ≡ false }
    ensures kept { IsSteady S.Store
        → StillTells (state S.Store conn.old) (state S.Store conn.new) }
    ensures found { IsSteady S.Store
        → IfOk result (λ cell. Looked (state S.Store conn.old) (state S.Store conn.new)
        (λ m. cell ≡ next_cell None m)) }
    ensures cause { IsSteady S.Store → IfErr result (FailsToLook first_text [] ShowNoCell
        (state S.Store conn.old) (state S.Store conn.new)) }
{
    match first_rows(conn) {
        Ok(rows) => first_cell(alloc, &rows),
        Err(err) => Err(Refused::from(err)),
    }
}

fn first_rows<S: Alter>(conn: &mut Connection<S>) -> Result<Vec<Row>, Error>
    ensures mode { conn.old.in_transaction ≡ false → conn.new.in_transaction ≡ false }
    ensures shown { HasCleanDisk (state S.Store conn.new) → IfOk result (λ rows.
        Shown first_text [] (state S.Store conn.old) (state S.Store conn.new) rows.items) }
    ensures fails { HasCleanDisk (state S.Store conn.new) → IfErr result
        (FailsToQuery first_text [] (state S.Store conn.old) (state S.Store conn.new)) }
{
    conn.query_all("SELECT ident, val FROM office ORDER BY ident LIMIT 1", &[])
}

// The cell of the least key above these bytes.
fn find_above<S: Alter>(
    conn: &mut Connection<S>,
    alloc: Global,
    after: &[u8],
) -> Result<Option<(KeyBytes, Bytes)>, Refused>
    ensures mode { conn.old.in_transaction ≡ false → conn.new.in_transaction ≡ false }
    ensures kept { IsSteady S.Store
        → StillTells (state S.Store conn.old) (state S.Store conn.new) }
    ensures found { IsSteady S.Store
        → IfOk result (λ cell. Looked (state S.Store conn.old) (state S.Store conn.new)
        (λ m. cell ≡ next_cell (Some after.now) m)) }
    ensures cause { IsSteady S.Store → IfErr result (FailsToLook next_text
        (Octets after.now ∷ []) ShowNoCell
        (state S.Store conn.old) (state S.Store conn.new)) }
{
    match rows_above(conn, after) {
        Ok(rows) => first_cell(alloc, &rows),
        Err(err) => Err(Refused::from(err)),
    }
}

fn rows_above<S: Alter>(conn: &mut Connection<S>, after: &[u8]) -> Result<Vec<Row>, Error>
    ensures mode { conn.old.in_transaction ≡ false → conn.new.in_transaction ≡ false }
    ensures shown { HasCleanDisk (state S.Store conn.new) → IfOk result (λ rows.
        Shown next_text (Octets after.now ∷ []) (state S.Store conn.old)
        (state S.Store conn.new) rows.items) }
    ensures fails { HasCleanDisk (state S.Store conn.new) → IfErr result
        (FailsToQuery next_text (Octets after.now ∷ []) (state S.Store conn.old)
        (state S.Store conn.new)) }
{
    conn.query_all(
        "SELECT ident, val FROM office WHERE ident > ?1 ORDER BY ident LIMIT 1",
        &[ValueRef::Blob(after)],
    )
}

fn first_cell(alloc: Global, rows: &Vec<Row>) -> Result<Option<(KeyBytes, Bytes)>, Refused>
    ensures cause { IfErr result (FailsToCopy (ShowNoCell rows.now.items)) }
    ensures read { IfOk result (λ cell. (place : _) (m : CellMap) → Nexts place m rows.now.items
        → cell ≡ next_cell place m) }
{
    if rows.is_empty() {
        return Ok(None);
    }
    let cell = cell_of(alloc, &rows[0])?;
    Ok(Some(cell))
}

fn cell_of(alloc: Global, row: &Row) -> Result<(KeyBytes, Bytes), Refused>
    ensures cause { IfErr result (FailsToCopy (IsNoCell row.now)) }
    ensures read { IfOk result (λ cell. (column row.now 0 ≡ Octets cell.0)
        × (column row.now 1 ≡ Octets cell.1)) }
{
    let ident = blob_of(alloc, row, 0)?;
    let Some(key) = key_of(ident.as_slice()) else {
        return Err(Refused::Store);
    };
    let val = blob_of(alloc, row, 1)?;
    Ok((key, val))
}

// The bytes in a column.
fn blob_of(alloc: Global, row: &Row, at: usize) -> Result<Bytes, Refused>
    ensures cause { IfErr result
        (FailsToCopy ((bytes : List ℕ) → column row.now at ≢ Octets bytes)) }
    ensures read { IfOk result (λ bytes. column row.now at ≡ Octets bytes) }
{
    let value = row.get_ref(at)?;
    match value {
        ValueRef::Blob(bytes) => copied(alloc, bytes),
        _ => Err(Refused::Store),
    }
}

fn copied(alloc: Global, bytes: &[u8]) -> Result<Bytes, Refused>
    ensures cause { IfErr result (λ refused. refused ≡ Memory) }
    ensures read { IfOk result (λ copy. copy ≡ bytes.now) }
{
    let mut copy = Bytes::new(alloc);
    copy.push_all(bytes)?;
    Ok(copy)
}

// A key of 1 to 9 bytes.
fn key_of(ident: &[u8]) -> Option<KeyBytes>
    ensures { MatchOption result ((length ident.now ≡ 0) ⊎ (9 < length ident.now))
        (λ key. key ≡ ident.now) }
{
    let len = ident.len();
    if len == 0 {
        return None;
    }
    if 9 < len {
        return None;
    }
    Some(padded(ident))
}

fn padded(ident: &[u8]) -> KeyBytes
    requires least { 1 ≤ length ident.now }
    requires most { length ident.now ≤ 9 }
    ensures { result ≡ ident.now }
{
    let mut bytes = [0; 9];
    let len = ident.len();
    bytes[..len].copy_from_slice(ident);
    KeyBytes {
        bytes,
        len: len as u8,
    }
}
