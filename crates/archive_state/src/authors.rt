//! The numbers of each author's entries.
ghost use Rattle.std.specs.Prelude.{◌≡◌, ◌-◌, ◌≤◌, ◌++◌, ◌∷◌, [], List, ℕ, length, None, true, false, OnOk, if◌then◌else◌, vec_len, vec_capacity, ◌<◌, IfOk};
ghost use Rattle.std.specs.BTreeMap.{get_by};
ghost use Rattle.std.specs.List.{slice_get};
ghost use Rattle.std.specs.Str.{bytes_eq};
ghost use Rattle.epochs.specs.Kinds.{Text};
ghost use Rattle.archive_state.specs.Authors.{beside_key, numbers_in, has_room};

use exact_time::OutOfMemory;
use std::alloc::Global;
use std::collections::BTreeMap;

/// The numbers of an author's entries by the bytes of the author's name: those of sequence number 1, 2, 3 and so on.
pub type Authors = BTreeMap<Vec<u8>, Vec<u64>>;

/// The number of the author's entry with that sequence number, from 1.
pub fn number_at(authors: &Authors, author: &[u8], seq: u64) -> Option<u64>
    requires { 1 ≤ seq }
    ensures { result ≡ slice_get (numbers_in authors.now author.now) (seq - 1) }
{
    match authors.get(author) {
        Some(numbers) => numbers.as_slice().get((seq - 1) as usize).copied(),
        None => None,
    }
}

/// The author's last sequence number, or 0.
pub fn last_of(authors: &Authors, author: &[u8]) -> u64
    ensures { result ≡ length (numbers_in authors.now author.now) }
{
    match authors.get(author) {
        Some(numbers) => numbers.len() as u64,
        None => 0,
    }
}

fn copy_of(alloc: Global, bytes: &[u8]) -> Result<Vec<u8>, OutOfMemory>
    ensures { IfOk result (λ copy. copy.items ≡ bytes.now) }
{
    let mut copy = Vec::with_capacity(alloc, bytes.len())?;
    copy.extend_from_slice(bytes)?;
    Ok(copy)
}

// Room for a first number.
fn one_place(alloc: Global) -> Result<Vec<u64>, OutOfMemory>
    ensures none { IfOk result (λ numbers. numbers.items ≡ []) }
    ensures room { IfOk result (λ numbers. vec_len numbers < vec_capacity numbers) }
{
    let mut numbers = Vec::new(alloc);
    numbers.reserve(1)?;
    Ok(numbers)
}

// Adds an author without numbers.
fn begin(alloc: Global, authors: &mut Authors, author: &[u8]) -> Result<(), OutOfMemory>
    requires { get_by (beside_key author.now) authors.old ≡ None }
    ensures same { (a : Text) → numbers_in authors.new a ≡ numbers_in authors.old a }
    ensures room { OnOk result (has_room authors.new author.now ≡ true) }
{
    let name = copy_of(alloc, author)?;
    let numbers = one_place(alloc)?;
    match authors.insert(name, numbers) {
        Ok(_) => Ok(()),
        Err(_) => Err(OutOfMemory),
    }
}

/// Makes room for one more number of the author.
pub fn make_room(alloc: Global, authors: &mut Authors, author: &[u8]) -> Result<(), OutOfMemory>
    ensures same { (a : Text) → numbers_in authors.new a ≡ numbers_in authors.old a }
    ensures room { OnOk result (has_room authors.new author.now ≡ true) }
{
    if let Some(numbers) = authors.get_mut(author) {
        numbers.reserve(1)?;
        return Ok(());
    }
    begin(alloc, authors, author)
}

/// Puts a number behind the author's others, for which there is room.
pub fn put_number(authors: &mut Authors, author: &[u8], number: u64)
    requires { has_room authors.old author.now ≡ true }
    ensures { (a : Text) → numbers_in authors.new a ≡ (if bytes_eq author.now a then numbers_in authors.old a ++ number ∷ [] else numbers_in authors.old a) }
{
    if let Some(numbers) = authors.get_mut(author) {
        numbers.push_reserved(number);
    }
}
