//! The fields of a request that decide on its reply.
ghost use Rattle.std.specs.Prelude.{◌≡◌, IfOk, IfErr, Ok, Err, option_map, map};
ghost use Rattle.http_wire.specs.FieldPairs.{as_pair};
ghost use Rattle.centre_desk.specs.Fields.{values_of, only_of, front_asked, header_of, credentials_of, credentials_by};
ghost use Rattle.centre_desk.specs.declared.fields.Repeated.{Repeated};

use exact_time::{Bytes, OutOfMemory};
use http_digest::Credentials;
use http_wire::{Field, Request, is_named, length_in};
use service_paths::Access;
use std::alloc::Global;

/// There are two fields of a name that may stand once.
#[derive(Clone, Copy, Debug, PartialEq, Eq, Drop)]
pub struct Repeated;

// The value of the one field of a name, if there is one.
fn only_value<'a>(headers: &'a [Field], name: &[u8]) -> Result<Option<&'a [u8]>, Repeated>
    ensures once { IfOk result (λ found. only_of (values_of name.now (map as_pair headers.now)) ≡ Ok (option_map (λ value. value.now) found)) }
    ensures twice { IfErr result (λ repeated. only_of (values_of name.now (map as_pair headers.now)) ≡ Err repeated) }
{
    let mut found = None;
    'fields: for field in headers {
        if is_named(field, name) {
            if found.is_some() {
                return Err(Repeated);
            }
            found = Some(field.value.as_slice());
        }
    }
    Ok(found)
}

/// How many entries a reply has to rest on, as the request's field X-Archive-Front says; 0 where it has none. None where
/// it isn't one field of 1 to 18 digits.
pub(crate) fn front_asked(headers: &[Field]) -> Option<u64>
    ensures { result ≡ front_asked (map as_pair headers.now) }
{
    match only_value(headers, b"x-archive-front") {
        Ok(Some(value)) => length_in(value),
        Ok(None) => Some(0),
        Err(Repeated) => None,
    }
}

fn copied(alloc: Global, bytes: &[u8]) -> Result<Bytes, OutOfMemory>
    ensures { IfOk result (λ copy. copy ≡ bytes.now) }
{
    let mut copy = Bytes::new(alloc);
    copy.extend(bytes)?;
    Ok(copy)
}

// The value of the field Authorization; two of them have a value of no bytes, which spells no credentials.
fn header_of(alloc: Global, headers: &[Field]) -> Result<Option<Bytes>, OutOfMemory>
    ensures { IfOk result (λ header. header ≡ header_of (map as_pair headers.now)) }
{
    match only_value(headers, b"authorization") {
        Ok(Some(value)) => Ok(Some(copied(alloc, value)?)),
        Ok(None) => Ok(None),
        Err(Repeated) => Ok(Some(Bytes::new(alloc))),
    }
}

/// What a request says to show who sends it (RFC 2617, section 3.2.2).
pub(crate) fn credentials_of(alloc: Global, request: &Request) -> Result<Credentials, OutOfMemory>
    ensures { IfOk result (λ credentials. credentials ≡ credentials_of request.now) }
{
    Ok(Credentials {
        header: header_of(alloc, request.headers.as_slice())?,
        method: copied(alloc, request.method.as_slice())?,
        target: copied(alloc, request.target.as_slice())?,
    })
}

/// The same where the path asks who asks.
pub(crate) fn credentials_by(
    alloc: Global,
    access: Access,
    request: &Request,
) -> Result<Option<Credentials>, OutOfMemory>
    ensures { IfOk result (λ credentials. credentials ≡ credentials_by access request.now) }
{
    match access {
        Access::Open => Ok(None),
        Access::Signed => Ok(Some(credentials_of(alloc, request)?)),
    }
}
