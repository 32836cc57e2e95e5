//! The two requests of a round.
ghost use Rattle.std.specs.Prelude.{◌≡◌, true, IfOk};
ghost use Rattle.epochs.specs.Fields.{is_user_name};
ghost use Rattle.http_digest.specs.Answers.{are_visible};
ghost use Rattle.http_wire.specs.FieldPairs.{as_pair};
ghost use Rattle.http_wire.specs.Heads.{is_lower_token, is_value};
ghost use Rattle.http_answers.specs.Requests.{request_bytes};
ghost use Rattle.follow_round.specs.Requests.{entries_target, first_request, second_request};

use exact_time::{Bytes, Many, OutOfMemory, Text};
use http_answers::Asked;
use http_digest::authorization_of;
use http_wire::Field;
use itoa::Buffer;
use std::alloc::Global;

fn bytes_of(alloc: Global, text: &[u8]) -> Result<Bytes, OutOfMemory>
    ensures { IfOk result (λ bytes. bytes ≡ text.now) }
{
    let mut bytes = Bytes::new(alloc);
    bytes.extend(text)?;
    Ok(bytes)
}

fn field_of(alloc: Global, name: &[u8], value: &[u8]) -> Result<Field, OutOfMemory>
    requires name { is_lower_token name.now ≡ true }
    requires value { is_value value.now ≡ true }
    ensures { IfOk result (λ field. as_pair field ≡ (name.now, value.now)) }
{
    Ok(Field {
        name: bytes_of(alloc, name)?,
        value: bytes_of(alloc, value)?,
    })
}

// The target that has the entries from that number on.
fn target_of(alloc: Global, wanted: u64) -> Result<Bytes, OutOfMemory>
    ensures { IfOk result (λ target. target ≡ entries_target wanted) }
{
    let mut target = bytes_of(alloc, b"/archive/1/entries?from=")?;
    let mut buffer = Buffer::new();
    target.extend(buffer.format(wanted).as_bytes())?;
    Ok(target)
}

/// The request without credentials.
pub(crate) fn first_asked(alloc: Global, wanted: u64) -> Result<Asked, OutOfMemory>
    ensures { IfOk result (λ asked. request_bytes asked ≡ first_request wanted) }
{
    let mut fields = Many::new(alloc);
    fields.push(field_of(alloc, b"host", b"localhost")?)?;
    Ok(Asked {
        method: bytes_of(alloc, b"GET")?,
        target: target_of(alloc, wanted)?,
        fields,
    })
}

/// The request that answers a challenge with this nonce.
pub(crate) fn second_asked(
    alloc: Global,
    user: &Text,
    ha1: &[u8; 32],
    wanted: u64,
    nonce: &Text,
) -> Result<Asked, OutOfMemory>
    requires user { is_user_name user.now ≡ true }
    requires nonce { are_visible nonce.now ≡ true }
    ensures { IfOk result (λ asked. request_bytes asked ≡ second_request user.now ha1.now wanted nonce.now) }
{
    let target = target_of(alloc, wanted)?;
    let answer = authorization_of(
        alloc,
        user.as_slice(),
        ha1,
        b"GET",
        target.as_slice(),
        nonce.as_slice(),
    )?;
    let mut fields = Many::new(alloc);
    fields.push(field_of(alloc, b"host", b"localhost")?)?;
    fields.push(field_of(alloc, b"authorization", answer.as_slice())?)?;
    Ok(Asked {
        method: bytes_of(alloc, b"GET")?,
        target,
        fields,
    })
}
