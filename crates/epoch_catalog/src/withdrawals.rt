//! The withdrawals that are written as one channel, found by its name and by time.
ghost use Rattle.std.specs.Prelude.{◌≡◌, ◌+◌, ◌<◌, ◌≤◌, ◌++◌, ℕ, true, false, List, [], Option, Some, None, Contains, All, IsSomeAnd, IfOk, map, length, vec_len, vec_capacity};
ghost use Rattle.std.specs.List.{slice_get};
ghost use Rattle.std.specs.List.Sorted.{IsPermutation, IsSortedBy, IsStrictlySortedBy};
ghost use Rattle.std.specs.Ordering.{is_lt};
ghost use Rattle.channel_globs.specs.Names.{name_cmp};
ghost use Rattle.epochs.specs.Lines.{LineValues};
ghost use Rattle.epochs.specs.Views.{values_of_line};
ghost use Rattle.epoch_rules.specs.Catalog.{IsCatalog};
ghost use Rattle.epoch_catalog.specs.Withdrawals.{location_in, is_marked, name_in, later, marks_from, marks_at, head_cmp, AreRising, IsGroup, IsGrouped, IsHeadOf, IsWithdrawalIndex};

use crate::families::{Bounds, Family, family_bounds};
use crate::wide::is_one_name;
use channel_globs::{Code, Nslc};
use epochs::{Globs, Line};
use exact_time::{Moment, OutOfMemory};
use std::alloc::Global;

/// The mark of a withdrawal that is written as one channel.
#[derive(Clone, Copy, Debug)]
pub struct Mark {
    /// The start of the withdrawal, in microseconds.
    pub start: Moment,
    /// The latest end, in microseconds, of this withdrawal and of those of its channel that are marked before it; None where
    /// one of them has no end.
    pub reach: Option<Moment>,
    /// The place of the withdrawal among the lines.
    pub place: usize,
}

/// A channel that some withdrawals are written as: where its marks begin among all, and how many they are.
#[derive(Clone, Copy, Debug)]
pub struct NameMark {
    pub name: Nslc,
    pub first: usize,
    pub count: usize,
}

/// What a withdrawal that is written as one channel gives to its mark.
#[derive(Clone, Copy, Debug)]
pub struct Head {
    pub name: Nslc,
    pub start: Moment,
    pub end: Option<Moment>,
    pub place: usize,
}

// The code of a location that a text names.
fn location_of(text: &[u8]) -> Option<Code>
    ensures { 1 ≤ length (location_in text.now) → length (location_in text.now) ≤ 8 → result ≡ Some (location_in text.now) }
{
    if text.is_empty() || text == b"--".as_slice() {
        Some(Code::blank())
    } else {
        Code::of(text)
    }
}

// The channel that four texts are written as.
fn name_of(channels: &Globs) -> Option<Nslc>
    ensures { 1 ≤ length channels.now.network.text → length channels.now.network.text ≤ 8
        → 1 ≤ length channels.now.station.text → length channels.now.station.text ≤ 8
        → 1 ≤ length (location_in channels.now.location.text) → length (location_in channels.now.location.text) ≤ 8
        → 1 ≤ length channels.now.channel.text → length channels.now.channel.text ≤ 8
        → result ≡ Some (record { network = channels.now.network.text; station = channels.now.station.text; location = location_in channels.now.location.text; channel = channels.now.channel.text }) }
{
    Some(Nslc {
        network: Code::of(channels.network.text.as_slice())?,
        station: Code::of(channels.station.text.as_slice())?,
        location: location_of(channels.location.text.as_slice())?,
        channel: Code::of(channels.channel.text.as_slice())?,
    })
}

// What the line at a place gives to its mark, where it is a withdrawal that is written as one channel.
fn head_of(line: &Line, place: usize) -> Option<Head>
    ensures { is_marked (values_of_line line.now) ≡ true → IsSomeAnd result (λ h. IsHeadOf (values_of_line line.now) place h) }
{
    let Line::Wdr(withdrawal) = line else {
        return None;
    };
    if !is_one_name(&withdrawal.channels) {
        return None;
    }
    let name = name_of(&withdrawal.channels)?;
    Some(Head {
        name,
        start: withdrawal.times.start,
        end: withdrawal.times.end,
        place,
    })
}

// Notes what the lines of some bounds give to their marks, for which there is room.
fn note_heads(heads: &mut Vec<Head>, lines: &[Line], bounds: Bounds)
    requires within { bounds.first + bounds.count ≤ length lines.now }
    requires empty { heads.old.items ≡ [] }
    requires room { length lines.now ≤ vec_capacity heads.old }
    ensures noted { (k : ℕ) (e : LineValues) → bounds.first ≤ k → k < bounds.first + bounds.count → slice_get (map values_of_line lines.now) k ≡ Some e
        → is_marked e ≡ true → (h : Head) × Contains heads.new.items h × IsHeadOf e k h }
    ensures few { length heads.new.items ≤ length lines.now }
{
    'places: for place in bounds.first..bounds.first + bounds.count {
        if let Some(head) = head_of(&lines[place], place) {
            heads.push_reserved(head);
        }
    }
}

// Puts heads in the order of their names, and those of a name in that of their starts.
fn sort_heads(heads: &mut Vec<Head>)
    ensures sorted { IsSortedBy (λ a b. is_lt (head_cmp a b)) heads.new.items }
    ensures moved { IsPermutation heads.old.items heads.new.items }
{
    heads.sort_unstable_by(|a, b| a.name.cmp(&b.name).then(a.start.cmp(&b.start)));
}

// The later of two ends; none where one of them is absent.
fn later(end: Option<Moment>, other: Option<Moment>) -> Option<Moment>
    ensures { result ≡ later end other }
{
    match (end, other) {
        (Some(end), Some(other)) => Some(if end.micros <= other.micros {
            other
        } else {
            end
        }),
        _ => None,
    }
}

// Marks the heads of one name, which ascend by start, behind other marks, for which there is room. They reach an end at least.
fn mark_heads(marks: &mut Vec<Mark>, end: Option<Moment>, heads: &[Head])
    requires { vec_len marks.old + length heads.now ≤ vec_capacity marks.old }
    ensures marks { marks.new.items ≡ marks.old.items ++ marks_from end heads.now }
    ensures len { vec_len marks.new ≡ vec_len marks.old + length heads.now }
    ensures capacity { vec_capacity marks.new ≡ vec_capacity marks.old }
{
    let mut reach = end;
    let mut rest = heads;
    'heads: while let Some((head, behind)) = rest.split_first() {
        reach = later(reach, head.end);
        marks.push_reserved(Mark {
            start: head.start,
            reach,
            place: head.place,
        });
        rest = behind;
    }
}

// Marks heads, which are in order, name by name.
fn mark_names(names: &mut Vec<NameMark>, marks: &mut Vec<Mark>, heads: &[Head])
    requires sorted { IsSortedBy (λ a b. is_lt (head_cmp a b)) heads.now }
    requires names_empty { names.old.items ≡ [] }
    requires marks_empty { marks.old.items ≡ [] }
    requires names_room { length heads.now ≤ vec_capacity names.old }
    requires marks_room { length heads.now ≤ vec_capacity marks.old }
    ensures rises { IsStrictlySortedBy (λ a b. name_cmp a.name b.name) names.new.items }
    ensures groups { All (IsGroup marks.new.items) names.new.items }
    ensures held { (h : Head) → Contains heads.now h → IsGrouped names.new.items marks.new.items h }
{
    let mut rest = heads;
    'names: while let Some(head) = rest.first() {
        let name = head.name;
        let count = rest.partition_point(|other| other.name.cmp(&name).is_le());
        names.push_reserved(NameMark {
            name,
            first: marks.len(),
            count,
        });
        mark_heads(marks, head.end, &rest[..count]);
        rest = &rest[count..];
    }
}

/// The marks of the withdrawals that are written as one channel each: those of a channel stand together, ascending by
/// start.
#[derive(Debug, Drop)]
pub struct Withdrawals {
    pub names: Vec<NameMark>,
    pub marks: Vec<Mark>,
}

/// Room for the marks of so many withdrawals.
#[derive(Drop)]
pub struct Room {
    heads: Vec<Head>,
    names: Vec<NameMark>,
    marks: Vec<Mark>,
}

/// Room for the marks of so many withdrawals.
pub fn room_for(alloc: Global, most: usize) -> Result<Room, OutOfMemory>
    ensures heads { IfOk result (λ room. (room.heads.items ≡ []) × (vec_capacity room.heads ≡ most)) }
    ensures names { IfOk result (λ room. (room.names.items ≡ []) × (vec_capacity room.names ≡ most)) }
    ensures marks { IfOk result (λ room. (room.marks.items ≡ []) × (vec_capacity room.marks ≡ most)) }
{
    Ok(Room {
        heads: Vec::with_capacity(alloc, most)?,
        names: Vec::with_capacity(alloc, most)?,
        marks: Vec::with_capacity(alloc, most)?,
    })
}

/// No marks. Takes no memory.
pub fn no_withdrawals(alloc: Global) -> Withdrawals
    ensures { IsWithdrawalIndex result.names.items result.marks.items [] }
{
    Withdrawals {
        names: Vec::new(alloc),
        marks: Vec::new(alloc),
    }
}

/// Marks the withdrawals among the lines of a catalog, for which there is room. Takes no memory.
pub fn mark_withdrawals(room: Room, lines: &[Line]) -> Withdrawals
    requires catalog { IsCatalog (map values_of_line lines.now) }
    requires heads { (room.heads.items ≡ []) × (length lines.now ≤ vec_capacity room.heads) }
    requires names { (room.names.items ≡ []) × (length lines.now ≤ vec_capacity room.names) }
    requires marks { (room.marks.items ≡ []) × (length lines.now ≤ vec_capacity room.marks) }
    ensures { IsWithdrawalIndex result.names.items result.marks.items (map values_of_line lines.now) }
{
    let mut heads = room.heads;
    let mut names = room.names;
    let mut marks = room.marks;
    note_heads(
        &mut heads,
        lines,
        family_bounds(lines, &Family::Withdrawals),
    );
    sort_heads(&mut heads);
    mark_names(&mut names, &mut marks, heads.as_slice());
    Withdrawals { names, marks }
}

/// The marks of the withdrawals that are written as a channel, ascending by start, found by halves among the channels.
pub fn marks_of<'a>(names: &[NameMark], marks: &'a [Mark], name: &Nslc) -> &'a [Mark]
    requires rises { IsStrictlySortedBy (λ a b. name_cmp a.name b.name) names.now }
    requires groups { All (IsGroup marks.now) names.now }
    ensures rising { AreRising result.now }
    ensures found { (n : NameMark) → Contains names.now n → n.name ≡ name.now → result.now ≡ marks_at n marks.now }
{
    match names.binary_search_by(|mark| mark.name.cmp(name)) {
        Ok(place) => {
            let found = &names[place];
            &marks[found.first..][..found.count]
        }
        Err(_) => &[],
    }
}
