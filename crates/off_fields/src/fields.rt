ghost use Rattle.std.specs.Prelude.{◌≡◌, ◌≤◌, ◌≢◌, MatchResult, Some, None, IfOk};
ghost use Rattle.off_documents.specs.Documents.{data_of};
ghost use Rattle.serde_json.specs.Find.{get, as_bool};
ghost use Rattle.off_clerk_rules.specs.declared.faults.ClerkErr.TheVariants.{Field};
ghost use Rattle.off_clerk_rules.specs.Names.{name_text};
ghost use Rattle.off_clerk_rules.specs.Paths.{last_number};
ghost use Rattle.off_clerk_rules.specs.Fields.{field_in, field_or, number_in, offset_in, text_in};
ghost use Rattle.off_clerk_rules.specs.Fields.{address_in, relay_in, hex_in};

use crate::values::{address_of, number_of, offset_of, relay_of, secret_of, text_of};
use off_base::{Ip4, Secret, Short};
use off_clerk_rules::{ClerkErr, Name};
use off_documents::Part;

/// The greatest number of 32 bits.
pub const LAST_NUMBER: u64 = 4_294_967_295;

// Each of these reads the field of a body.

pub(crate) fn flag(body: &Part<'_, '_>, name: Name) -> Result<bool, ClerkErr>
    ensures { result ≡ field_in name as_bool (data_of body.now) }
{
    let value = member(body, name)?;
    value.as_bool().ok_or(ClerkErr::Value(name))
}

// A number of 32 bits.
pub(crate) fn number(body: &Part<'_, '_>, name: Name) -> Result<u32, ClerkErr>
    ensures { result ≡ field_in name (number_in 0 last_number) (data_of body.now) }
{
    let value = member(body, name)?;
    match number_of(&value, 0, LAST_NUMBER) {
        Some(number) => Ok(number as u32),
        None => Err(ClerkErr::Value(name)),
    }
}

// A number of 32 bits that may be missing.
pub(crate) fn number_or(default: u32, body: &Part<'_, '_>, name: Name) -> Result<u32, ClerkErr>
    ensures { result ≡ field_or default name (number_in 0 last_number) (data_of body.now) }
{
    let Ok(value) = member(body, name) else {
        return Ok(default);
    };
    match number_of(&value, 0, LAST_NUMBER) {
        Some(number) => Ok(number as u32),
        None => Err(ClerkErr::Value(name)),
    }
}

// A number of one byte.
pub(crate) fn small(body: &Part<'_, '_>, name: Name, least: u8, most: u8) -> Result<u8, ClerkErr>
    ensures exact { result ≡ field_in name (number_in least most) (data_of body.now) }
    ensures least { IfOk result (λ number. least ≤ number) }
    ensures most { IfOk result (λ number. number ≤ most) }
{
    let value = member(body, name)?;
    match number_of(&value, u64::from(least), u64::from(most)) {
        Some(number) => Ok(number as u8),
        None => Err(ClerkErr::Value(name)),
    }
}

pub(crate) fn offset(body: &Part<'_, '_>, name: Name) -> Result<i32, ClerkErr>
    ensures { result ≡ field_in name offset_in (data_of body.now) }
{
    let value = member(body, name)?;
    offset_of(&value).ok_or(ClerkErr::Value(name))
}

pub(crate) fn text(body: &Part<'_, '_>, name: Name) -> Result<Short, ClerkErr>
    ensures { result ≡ field_in name text_in (data_of body.now) }
{
    let value = member(body, name)?;
    match text_of(&value) {
        Some(text) => Ok(text),
        None => Err(ClerkErr::Value(name)),
    }
}

pub(crate) fn address(body: &Part<'_, '_>, name: Name) -> Result<Ip4, ClerkErr>
    ensures { result ≡ field_in name address_in (data_of body.now) }
{
    let value = member(body, name)?;
    address_of(&value).ok_or(ClerkErr::Value(name))
}

pub(crate) fn relay(body: &Part<'_, '_>, name: Name) -> Result<Ip4, ClerkErr>
    ensures exact { result ≡ field_in name relay_in (data_of body.now) }
    ensures given { IfOk result (λ address. address.0 ≢ 0) }
{
    let value = member(body, name)?;
    relay_of(&value).ok_or(ClerkErr::Value(name))
}

pub(crate) fn secret(body: &Part<'_, '_>, name: Name) -> Result<Secret, ClerkErr>
    ensures { result ≡ field_in name (hex_in 64) (data_of body.now) }
{
    let value = member(body, name)?;
    match secret_of(&value) {
        Some(secret) => Ok(secret),
        None => Err(ClerkErr::Value(name)),
    }
}

// The field's value, of whatever kind.
pub(crate) fn member<'t, 'a>(body: &Part<'t, 'a>, name: Name) -> Result<Part<'t, 'a>, ClerkErr>
    ensures { MatchResult result
        (λ value. get (name_text name) (data_of body.now) ≡ Some (data_of value))
        (λ err. (err ≡ Field name) × (get (name_text name) (data_of body.now) ≡ None)) }
{
    match body.get(name.text()) {
        Some(value) => Ok(value),
        None => Err(ClerkErr::Field(name)),
    }
}
