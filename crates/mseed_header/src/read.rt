ghost use Rattle.std.specs.Prelude.{◌≡◌, ℤ, ◌<◌, ◌≤◌, ◌<ℤ◌, ◌+ℤ◌, ◌↔◌, pos, negsuc, Bool, IsTrue, length, slice_index, Some, OnOk, IfOk, IfErr, IfSome, IsErrOf, MatchOption, MatchResult};
ghost use Rattle.std.specs.Int.{IsInRange};
ghost use Rattle.list_laws.specs.Only.{IsOnly};
ghost use Rattle.exact_time.specs.BTime.{IsBTime};
ghost use Rattle.mseed_header.specs.Blockettes.{HasChain, EndWithin, offsets_of, record_size, micros_of};
ghost use Rattle.mseed_header.specs.Fields.{time_at};
ghost use Rattle.mseed_header.specs.Header.{IsYear, IsName, IsRate, EndsInTime, HasHeader, RefusesBody, RefusesFields, RefusesRecord, little_of, correction, corrected_micros};
ghost use Rattle.mseed_header.specs.Quality.{quality_letter};
ghost use Rattle.mseed_header.specs.declared.header.Header.{Header};
ghost use Rattle.mseed_header.specs.declared.header.RecordFault.{RecordFault};
ghost use Rattle.channel_globs.specs.declared.nslc.Nslc.{Nslc};

use crate::blockettes::blockettes_in;
use crate::code_field::{code_in, location_in};
use crate::numbers::{i16_of, i32_of, u16_of};
use crate::quality::quality_of;
use crate::{Header, Quality, RecordFault, next};
use channel_globs::Nslc;
use exact_time::{BTime, Moment, Ratio, btime, cmp_sample_time};
use std::cmp::Ordering;

// 2600-01-01T00:00:00.
const END: Moment = Moment {
    micros: 19_880_899_200_000_000,
};

fn is_year(year: u16) -> bool
    ensures { IsTrue result ↔ IsInRange 1900 2055 year }
{
    1900 <= year && year <= 2055
}

// Whether the lowest byte of each number stands first.
fn order_of(bytes: &[u8]) -> Option<bool>
    requires { 48 ≤ length bytes.now }
    ensures order { IfSome result (λ little. little ≡ little_of bytes.now) }
    ensures year { MatchOption result (¬ (IsYear (little_of bytes.now) bytes.now)) (λ little. IsYear little bytes.now) }
{
    if is_year(u16_of(false, bytes, 20)) {
        return Some(false);
    }
    if is_year(u16_of(true, bytes, 20)) {
        return Some(true);
    }
    None
}

fn time_in(little: bool, bytes: &[u8]) -> BTime
    requires { 48 ≤ length bytes.now }
    ensures { result ≡ time_at little bytes.now }
{
    BTime {
        year: u16_of(little, bytes, 20),
        day: u16_of(little, bytes, 22),
        hour: bytes[24],
        minute: bytes[25],
        second: bytes[26],
        fraction: u16_of(little, bytes, 28),
    }
}

// The time correction that isn't in the start time yet, in 0.0001 s.
fn correction_in(little: bool, bytes: &[u8]) -> i32
    requires { 48 ≤ length bytes.now }
    ensures { result ≡ correction little bytes.now }
{
    if bytes[36] & 2 != 0 {
        return 0;
    }
    i32_of(little, bytes, 40)
}

// The start time with its correction, in microseconds since 1970.
fn start_in(little: bool, bytes: &[u8]) -> Option<i64>
    requires long { 48 ≤ length bytes.now }
    requires year { IsYear little bytes.now }
    ensures time { MatchOption result (¬ (IsBTime (time_at little bytes.now))) (λ _. IsBTime (time_at little bytes.now)) }
    ensures value { IfSome result (λ micros. micros ≡ corrected_micros little bytes.now) }
    ensures low { IfSome result (λ micros. negsuc 9_220_000_000_000_000_000 <ℤ micros) }
    ensures high { IfSome result (λ micros. micros <ℤ pos 9_220_000_000_000_000_000) }
{
    let Ok(time) = btime(time_in(little, bytes)) else {
        return None;
    };
    Some(time.micros + correction_in(little, bytes) as i64 * 100)
}

fn name_in(bytes: &[u8]) -> Option<Nslc>
    requires { 48 ≤ length bytes.now }
    ensures { MatchOption result ((name : Nslc) → ¬ (IsName bytes.now name)) (IsName bytes.now) }
{
    let station = code_in(&bytes[8..13])?;
    let location = location_in(&bytes[13..15])?;
    let channel = code_in(&bytes[15..18])?;
    let network = code_in(&bytes[18..20])?;
    Some(Nslc {
        network,
        station,
        location,
        channel,
    })
}

fn rate_in(little: bool, bytes: &[u8]) -> Ratio
    requires { 48 ≤ length bytes.now }
    ensures { IsRate little bytes.now result }
{
    if u16_of(little, bytes, 30) == 0 {
        return Ratio::of(0, 0);
    }
    Ratio::of(i16_of(little, bytes, 32), i16_of(little, bytes, 34))
}

// The fields before the number of samples.
#[derive(Clone, Copy)]
struct Fields {
    start: i64,
    quality: Quality,
    name: Nslc,
}

fn fields_in(little: bool, bytes: &[u8]) -> Result<Fields, RecordFault>
    requires long { 48 ≤ length bytes.now }
    requires year { IsYear little bytes.now }
    ensures time { OnOk result (IsBTime (time_at little bytes.now)) }
    ensures start { IfOk result (λ f. f.start ≡ corrected_micros little bytes.now) }
    ensures low { IfOk result (λ f. negsuc 9_220_000_000_000_000_000 <ℤ f.start) }
    ensures high { IfOk result (λ f. f.start <ℤ pos 9_220_000_000_000_000_000) }
    ensures quality { IfOk result (λ f. quality_letter f.quality ≡ slice_index bytes.now 6) }
    ensures name { IfOk result (λ f. IsName bytes.now f.name) }
    ensures err { IfErr result (RefusesFields little bytes.now) }
{
    let Some(start) = start_in(little, bytes) else {
        return Err(RecordFault::Time);
    };
    let Some(quality) = quality_of(bytes[6]) else {
        return Err(RecordFault::Quality);
    };
    let Some(name) = name_in(bytes) else {
        return Err(RecordFault::Code);
    };
    Ok(Fields {
        start,
        quality,
        name,
    })
}

// The record's length, and the microseconds that belong to its start.
#[derive(Clone, Copy)]
struct Body {
    length: u32,
    micros: i8,
}

fn body_in(little: bool, bytes: &[u8]) -> Result<Body, RecordFault>
    requires { 48 ≤ length bytes.now }
    ensures chain { OnOk result (HasChain little bytes.now) }
    ensures length { IfOk result (λ b. record_size little bytes.now (offsets_of little bytes.now) ≡ Some b.length) }
    ensures within { IfOk result (λ b. EndWithin little bytes.now b.length (offsets_of little bytes.now)) }
    ensures whole { IfOk result (λ b. b.length ≤ length bytes.now) }
    ensures micros { IfOk result (λ b. b.micros ≡ micros_of little bytes.now (offsets_of little bytes.now)) }
    ensures err { IfErr result (RefusesBody little bytes.now) }
{
    let blockettes = blockettes_in(little, bytes)?;
    let Some(length) = blockettes.size else {
        return Err(RecordFault::NoBlockette1000);
    };
    if (length as usize) < blockettes.end {
        return Err(RecordFault::Chain);
    }
    if bytes.len() < length as usize {
        return Err(RecordFault::Short);
    }
    Ok(Body {
        length,
        micros: blockettes.micros,
    })
}

// The start with the microseconds of its blockette 1001.
fn start_with(start: i64, micros: i8) -> Moment
    requires low { negsuc 9_220_000_000_000_000_000 <ℤ start }
    requires high { start <ℤ pos 9_220_000_000_000_000_000 }
    ensures { result.micros ≡ start +ℤ micros }
{
    Moment {
        micros: start + micros as i64,
    }
}

fn ends_in_time(header: &Header) -> bool
    ensures { IsTrue result ↔ EndsInTime header.now.start.micros header.now.samples header.now.rate }
{
    cmp_sample_time(next(header), END) != Ordering::Greater
}

fn header_in(bytes: &[u8]) -> Result<Header, RecordFault>
    ensures { MatchResult result (HasHeader bytes.now) (RefusesRecord bytes.now) }
{
    if bytes.len() < 48 {
        return Err(RecordFault::Short);
    }
    let Some(little) = order_of(bytes) else {
        return Err(RecordFault::Year);
    };
    let fields = fields_in(little, bytes)?;
    let body = body_in(little, bytes)?;
    let header = Header {
        name: fields.name,
        quality: fields.quality,
        start: start_with(fields.start, body.micros),
        samples: u16_of(little, bytes, 30),
        rate: rate_in(little, bytes),
        length: body.length,
        little,
    };
    if !ends_in_time(&header) {
        return Err(RecordFault::Reach);
    }
    Ok(header)
}

/// The header of the record that the bytes begin with, or the first test that isn't passed. Bytes
/// behind the record decide nothing where there is a record.
pub fn read_header(bytes: &[u8]) -> Result<Header, RecordFault>
    ensures ok { IfOk result (HasHeader bytes.now) }
    ensures refused { (fault : RecordFault) → IsErrOf result fault ↔ RefusesRecord bytes.now fault }
    ensures exact { IsOnly (HasHeader bytes.now) (RefusesRecord bytes.now) result }
{
    header_in(bytes)
}
