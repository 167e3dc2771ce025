//! Header fields: builds a header map, and reads the caller from it or from the head itself.
ghost use Rattle.std.specs.Prelude.{◌≡◌, OnOk, OnErr};
ghost use Rattle.std.specs.Result.{IsErrOf};
ghost use Rattle.http_header.specs.FieldName.{IsFieldName};
ghost use Rattle.http_header.specs.FieldValue.{IsFieldValue};
ghost use Rattle.http_header.specs.HeaderMap.{RefusesAppend, get_all};
ghost use Rattle.http_header.specs.Token.{lowercase};
ghost use Rattle.land_wire.specs.Fields.{AreWithin, caller_in, fields_at, only_value, caller_party_in};
ghost use Rattle.land_wire.specs.Fields.{caller_role_in};
ghost use Rattle.land_wire.specs.Fields.{with_field};
ghost use Rattle.land_wire_json.specs.Bodies.WireFaults.{map_ok};

use crate::framing::named::{Occurrence, find_field};
use crate::numbers::read_number;
use http_header::{
    HeaderMap, HeaderMapError, HeaderName, HeaderNameError, HeaderValue, HeaderValueError,
};
use httparse::spans::HeaderSpan;
use land_core::caller::Caller;
use land_core::role::Role;
use land_wire_json::bodies::wire_fault::WireFault;
use land_wire_json::bodies::words::role_of;
use std::alloc::Global;

/// The reason that a field was not added.
#[derive(Clone, Copy, Debug, PartialEq, Eq)]
pub enum FieldFault {
    /// The name is not a token (RFC 9110, section 5.1) of at most 65_535 bytes.
    Name,
    /// The value has a byte that is not allowed in values (RFC 9110, section 5.5).
    Value,
    /// The map has no capacity for more names or values.
    Full,
    /// Out of memory.
    NoMemory,
}

/// Appends a field of a head to a header map. After an error the map is unchanged.
pub fn append_field(
    alloc: Global,
    fields: &mut HeaderMap,
    name: &[u8],
    value: &[u8],
) -> Result<(), FieldFault>
    ensures ok { OnOk result (fields.new ≡ with_field fields.old (name.now, value.now)) }
    ensures err { OnErr result (fields.new ≡ fields.old) }
    ensures name { IsErrOf result FieldFault.Name → ¬ (IsFieldName name.now) }
    ensures value { IsErrOf result FieldFault.Value → ¬ (IsFieldValue value.now) }
    ensures full { IsErrOf result FieldFault.Full → RefusesAppend fields.old (lowercase name.now) }
{
    let name = match HeaderName::from_bytes(alloc, name) {
        Ok(name) => name,
        Err(HeaderNameError::Invalid) => return Err(FieldFault::Name),
        Err(HeaderNameError::OutOfMemory) => return Err(FieldFault::NoMemory),
    };
    let value = match HeaderValue::from_bytes(alloc, value) {
        Ok(value) => value,
        Err(HeaderValueError::Invalid) => return Err(FieldFault::Value),
        Err(HeaderValueError::OutOfMemory) => return Err(FieldFault::NoMemory),
    };
    match fields.append(name, value) {
        Ok(_) => Ok(()),
        Err(HeaderMapError::MaxSizeReached) => Err(FieldFault::Full),
        Err(HeaderMapError::OutOfMemory) => Err(FieldFault::NoMemory),
    }
}

/// Reads the caller from the fields `Register-Party` and `Register-Role`. Names of fields are compared
/// without case.
///
/// Errors: 131 if a field is absent or repeated, 132 if the party is not a number, 134 if the role is
/// unknown. The faults of the party come first.
pub fn read_caller(fields: &HeaderMap) -> Result<Caller, WireFault>
    ensures { result ≡ caller_in fields.now }
{
    let party = read_party(fields)?;
    let role = read_role(fields)?;
    Ok(Caller { party, role })
}

/// Reads the party in the field `Register-Party`. Errors: 131 if it is absent or repeated; 132 if it is not a
/// number.
pub fn read_party(fields: &HeaderMap) -> Result<u64, WireFault>
    ensures { result ≡ caller_party_in fields.now }
{
    read_number(only_value(fields, "register-party")?)
}

/// Reads the role in the field `Register-Role`. Errors: 131 if it is absent or repeated; 134 if it is not a
/// role.
pub fn read_role(fields: &HeaderMap) -> Result<Role, WireFault>
    ensures { result ≡ caller_role_in fields.now }
{
    role_of(only_value(fields, "register-role")?)
}

/// Reads the caller from the fields at these spans of a head, with the errors of `read_caller`. It builds no
/// map.
pub fn caller_at(head: &[u8], fields: &[HeaderSpan]) -> Result<Caller, WireFault>
    requires { AreWithin head.now fields.now }
    ensures { result ≡ caller_in (fields_at head.now fields.now) }
{
    Ok(Caller {
        party: party_at(head, fields)?,
        role: role_at(head, fields)?,
    })
}

fn party_at(head: &[u8], fields: &[HeaderSpan]) -> Result<u64, WireFault>
    requires { AreWithin head.now fields.now }
    ensures { result ≡ caller_party_in (fields_at head.now fields.now) }
{
    read_number(value_at(head, fields, "register-party")?)
}

fn role_at(head: &[u8], fields: &[HeaderSpan]) -> Result<Role, WireFault>
    requires { AreWithin head.now fields.now }
    ensures { result ≡ caller_role_in (fields_at head.now fields.now) }
{
    role_of(value_at(head, fields, "register-role")?)
}

fn value_at<'h>(head: &'h [u8], fields: &[HeaderSpan], name: &str) -> Result<&'h [u8], WireFault>
    requires { AreWithin head.now fields.now }
    ensures { map_ok (λ value. value.now) result
        ≡ only_value (get_all (fields_at head.now fields.now) (lowercase name.now)) }
{
    match find_field(head, fields, name) {
        Occurrence::Once(value) => Ok(value.of(head)),
        Occurrence::Absent => Err(WireFault::Field),
        Occurrence::Repeated => Err(WireFault::Field),
    }
}

fn only_value<'m>(fields: &'m HeaderMap, name: &str) -> Result<&'m [u8], WireFault>
    ensures { map_ok (λ value. value.now) result ≡ only_value (get_all fields.now (lowercase name.now)) }
{
    let all = fields.get_all(name);
    let mut values = all.iter();
    let Some(value) = values.next() else {
        return Err(WireFault::Field);
    };
    match values.next() {
        Some(_) => Err(WireFault::Field),
        None => Ok(value.as_bytes()),
    }
}
