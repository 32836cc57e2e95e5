//! Takes an input in pieces, and puts the records that a query asks for on a shelf. What was cut into
//! records isn't held any longer, and pieces behind one in which a record is refused aren't held at all.
ghost use Rattle.std.specs.Prelude.{◌≡◌, ◌+◌, ◌^◌, ◌<◌, ◌≤◌, ◌↔◌, ℕ, IsTrue, List, [], ◌++◌, length, take, drop, OnOk, IfOk, IfErr, Err};
ghost use Rattle.std.specs.Io.KnownBytes.{Consumes, IsAtEnd};
ghost use Rattle.mseed_header.specs.Header.{IsRecord};
ghost use Rattle.mseed_header.specs.Records.{IsPlaced};
ghost use Rattle.mseed_header.specs.declared.row.Row.{Row};
ghost use Rattle.centre_select.specs.Answers.{epoch};
ghost use Rattle.streams.specs.Effects.{OnlyTakes};
ghost use Rattle.centre_select.specs.Intake.{with_asked, Passes, IsCutTo, IsLasting, IsRestRefused, HasCounted, PieceStops, HasTaken, IntakeStops};
ghost use Rattle.centre_select.specs.Limits.{most_input};

use crate::MAX_INPUT;
use crate::ending::{SelectRefusal, SelectStop};
use dataselect::{DataQuery, Shelf};
use exact_time::{Bytes, Moment, OutOfMemory};
use mseed_header::{Header, RecordFault, Row, read_header};
use std::alloc::Global;
use streams::Source;

// How many bytes a call of `take` is lent.
const PIECE: usize = 65_536;

// Puts a record on the shelf where the query asks for it, as a row of entry 0 at the moment 0.
fn shelve_asked<H: Shelf>(
    alloc: Global,
    query: &DataQuery,
    shelf: &mut H,
    header: Header,
    image: &[u8],
    place: u32,
) -> Result<(), OutOfMemory>
    requires few { length (H.rows shelf.old) < 2 ^ 32 }
    requires head { IsRecord image.now header }
    ensures { OnOk result ((row : Row) → row.header ≡ header → row.image ≡ image.now → IsPlaced 0 epoch place row
        → H.rows shelf.new ≡ with_asked query.now (H.rows shelf.old) row) }
{
    if !query.asks(&header) {
        return Ok(());
    }
    let row = Row::of(alloc, header, image, 0, place, Moment { micros: 0 })?;
    shelf.insert(row)?;
    Ok(())
}

// How far bytes were cut into records.
#[derive(Clone, Copy)]
struct Cut {
    // How many bytes the records have.
    used: usize,
    // The number of the next record.
    place: u32,
    // Why there is no further record; none where there are no more bytes.
    fault: Option<RecordFault>,
}

// Shelves the records that stand whole in front, numbered from `first` on.
fn shelve_front<H: Shelf>(
    alloc: Global,
    query: &DataQuery,
    shelf: &mut H,
    bytes: &[u8],
    first: u32,
) -> Result<Cut, OutOfMemory>
    requires few { first + length bytes.now < 2 ^ 32 }
    requires room { length (H.rows shelf.old) + length bytes.now < 2 ^ 32 }
    ensures within { IfOk result (λ cut. cut.used ≤ length bytes.now) }
    ensures passes { IfOk result (λ cut. Passes query.now bytes.now first (H.rows shelf.old) (drop cut.used bytes.now) cut.place (H.rows shelf.new)) }
    ensures fault { IfOk result (λ cut. IsCutTo (drop cut.used bytes.now) cut.fault) }
{
    let mut rest = bytes;
    let mut place = first;
    'records: while !rest.is_empty() {
        let header = match read_header(rest) {
            Ok(header) => header,
            Err(fault) => {
                return Ok(Cut {
                    used: bytes.len() - rest.len(),
                    place,
                    fault: Some(fault),
                });
            }
        };
        let (image, after) = rest.split_at(header.length as usize);
        shelve_asked(alloc, query, shelf, header, image, place)?;
        place += 1;
        rest = after;
    }
    Ok(Cut {
        used: bytes.len(),
        place,
        fault: None,
    })
}

// Drops bytes in front.
fn drop_front(alloc: Global, bytes: &mut Bytes, used: usize) -> Result<(), OutOfMemory>
    requires { used ≤ length bytes.old }
    ensures { OnOk result (bytes.new ≡ drop used bytes.old) }
{
    if used == 0 {
        return Ok(());
    }
    let mut rest = Bytes::new(alloc);
    rest.extend(&bytes.as_slice()[used..])?;
    *bytes = rest;
    Ok(())
}

// What was taken and isn't cut into records yet.
#[derive(Drop)]
struct Intake {
    rest: Bytes,
    // The number of the next record.
    place: u32,
    // Why the rest isn't cut; none where there is no rest.
    fault: Option<RecordFault>,
}

impl Intake {
    // Takes a piece where there is no rest: the piece itself is cut, and only its rest is kept.
    fn take_first<H: Shelf>(
        &mut self,
        alloc: Global,
        query: &DataQuery,
        shelf: &mut H,
        piece: &[u8],
    ) -> Result<(), OutOfMemory>
        requires empty { self.old.rest ≡ [] }
        requires few { self.old.place + length piece.now < 2 ^ 32 }
        requires room { length (H.rows shelf.old) + length piece.now < 2 ^ 32 }
        ensures passes { OnOk result (Passes query.now piece.now self.old.place (H.rows shelf.old) self.new.rest self.new.place (H.rows shelf.new)) }
        ensures fault { OnOk result (IsCutTo self.new.rest self.new.fault) }
    {
        let cut = shelve_front(alloc, query, shelf, piece, self.place)?;
        self.rest.extend(&piece[cut.used..])?;
        self.place = cut.place;
        self.fault = cut.fault;
        Ok(())
    }

    // Takes a piece behind the rest.
    fn take_more<H: Shelf>(
        &mut self,
        alloc: Global,
        query: &DataQuery,
        shelf: &mut H,
        piece: &[u8],
    ) -> Result<(), OutOfMemory>
        requires few { self.old.place + length self.old.rest + length piece.now < 2 ^ 32 }
        requires room { length (H.rows shelf.old) + length self.old.rest + length piece.now < 2 ^ 32 }
        ensures passes { OnOk result (Passes query.now (self.old.rest ++ piece.now) self.old.place (H.rows shelf.old) self.new.rest self.new.place (H.rows shelf.new)) }
        ensures fault { OnOk result (IsCutTo self.new.rest self.new.fault) }
    {
        self.rest.extend(piece)?;
        let cut = shelve_front(alloc, query, shelf, self.rest.as_slice(), self.place)?;
        drop_front(alloc, &mut self.rest, cut.used)?;
        self.place = cut.place;
        self.fault = cut.fault;
        Ok(())
    }

    // Takes a piece.
    fn take<H: Shelf>(
        &mut self,
        alloc: Global,
        query: &DataQuery,
        shelf: &mut H,
        piece: &[u8],
    ) -> Result<(), OutOfMemory>
        requires few { self.old.place + length self.old.rest + length piece.now < 2 ^ 32 }
        requires room { length (H.rows shelf.old) + length self.old.rest + length piece.now < 2 ^ 32 }
        ensures passes { OnOk result (Passes query.now (self.old.rest ++ piece.now) self.old.place (H.rows shelf.old) self.new.rest self.new.place (H.rows shelf.new)) }
        ensures fault { OnOk result (IsCutTo self.new.rest self.new.fault) }
    {
        if self.rest.is_empty() {
            return self.take_first(alloc, query, shelf, piece);
        }
        self.take_more(alloc, query, shelf, piece)
    }
}

// What the end of an input of `total` bytes says of the rest.
fn end_of(intake: &Intake, total: usize) -> Result<(), SelectStop>
    requires fits { length intake.now.rest ≤ total }
    requires fault { IsCutTo intake.now.rest intake.now.fault }
    ensures ok { OnOk result (intake.now.rest ≡ []) }
    ensures err { IfErr result (IsRestRefused intake.now.rest total) }
{
    match intake.fault {
        None => Ok(()),
        Some(fault) => Err(SelectStop::Refused(SelectRefusal::Record {
            at: total - intake.rest.len(),
            fault,
        })),
    }
}

// Whether a refusal stays, whatever bytes come behind: each does but that for bytes that are missing.
fn is_lasting(fault: Option<RecordFault>) -> bool
    ensures { IsTrue result ↔ IsLasting fault }
{
    match fault {
        None | Some(RecordFault::Short) => false,
        Some(_) => true,
    }
}

// Takes the next piece behind `total` bytes, and says how many bytes it has: none at the end.
fn next_piece<S: Source>(
    source: &mut S,
    piece: &mut [u8],
    total: usize,
) -> Result<usize, SelectStop>
    requires some { 0 < length piece.old }
    requires within { total ≤ most_input }
    ensures bound { IfOk result (λ count. count ≤ length piece.new) }
    ensures bytes { IfOk result (λ count. Consumes (S.view source.old).left (S.view source.new).left (take count piece.new)) }
    ensures within { IfOk result (λ count. total + count ≤ most_input) }
    ensures end { IfOk result (λ count. count ≡ 0 → IsAtEnd (S.view source.new).left) }
    ensures stops { IfErr result (PieceStops (S.view source.old) (S.view source.new) total) }
    ensures takes { OnlyTakes (S.view source.old) (S.view source.new) (result ≡ Err SelectStop.ReadFault) }
{
    let Ok(count) = source.take(piece) else {
        return Err(SelectStop::ReadFault);
    };
    if MAX_INPUT - total < count {
        return Err(SelectStop::Refused(SelectRefusal::InputTooLong));
    }
    Ok(count)
}

// Takes all that is left behind `total` bytes, and keeps none of it.
fn count_rest<S: Source>(source: &mut S, piece: &mut [u8], total: usize) -> Result<(), SelectStop>
    requires some { 0 < length piece.old }
    requires within { total ≤ most_input }
    ensures counted { OnOk result (HasCounted (S.view source.old).left (S.view source.new).left total) }
    ensures stops { IfErr result (PieceStops (S.view source.old) (S.view source.new) total) }
    ensures takes { OnlyTakes (S.view source.old) (S.view source.new) (result ≡ Err SelectStop.ReadFault) }
{
    let mut counted = total;
    'pieces: loop {
        let count = next_piece(source, piece, counted)?;
        if count == 0 {
            return Ok(());
        }
        counted += count;
    }
}

/// Takes all that the source has, up to [`MAX_INPUT`] bytes, and puts those of its records on an empty shelf
/// that the query asks for, in order. A record that is refused is told of once the input is read to its
/// end; the pieces until then are counted and not kept, unless it is refused for missing bytes.
pub fn take_records<S: Source, H: Shelf>(
    alloc: Global,
    query: &DataQuery,
    source: &mut S,
    shelf: &mut H,
) -> Result<(), SelectStop>
    requires empty { H.rows shelf.old ≡ [] }
    ensures taken { OnOk result (HasTaken query.now (S.view source.old).left (S.view source.new).left (H.rows shelf.new)) }
    ensures stops { IfErr result (IntakeStops (S.view source.old) (S.view source.new)) }
    ensures takes { OnlyTakes (S.view source.old) (S.view source.new) (result ≡ Err SelectStop.ReadFault) }
{
    let mut intake = Intake {
        rest: Bytes::new(alloc),
        place: 0,
        fault: None,
    };
    let mut total = 0;
    let mut piece = [0; PIECE];
    'pieces: while !is_lasting(intake.fault) {
        let count = next_piece(source, &mut piece, total)?;
        if count == 0 {
            return end_of(&intake, total);
        }
        total += count;
        intake.take(alloc, query, shelf, &piece[..count])?;
    }
    count_rest(source, &mut piece, total)?;
    end_of(&intake, total)
}
