//! Starts a hall.
ghost use Rattle.std.specs.Prelude.{◌≡◌, ◌++◌, ◌∷◌, [], ◌+◌, ◌≤◌, false, List, length, IfOk, IfErr, IfSome};
ghost use Rattle.std.specs.List.{AllByRecursion};
ghost use Rattle.disk_model.specs.View.{is_told};
ghost use Rattle.archive_entry.specs.declared.entry.Entry.{Entry};
ghost use Rattle.archive_log.specs.Opening.{IsStarted};
ghost use Rattle.archive_world.specs.Submitting.{Opens};
ghost use Rattle.snapshot_hall.specs.Starts.{IsNew};

use crate::hall::Hall;
use archive_entry::Entry;
use archive_history::{Book, Front, Naming, Opened};
use archive_log::Archive;
use archive_post::Intake;
use archive_state::Admit;
use committer::Committer;
use disk_model::Disk;
use exact_time::OutOfMemory;
use std::alloc::{AllocFailed, Global};
use std::mem::ManuallyDrop;
use std::sync::ledger::{Blank, Ledger, Share};
use std::sync::{Mutex, Wait};
use two_copies::{Carries, CopyWriter, HeldState, Place, Shares};

// So many places, each with a part of both ledgers, which have seen all that is shown.
#[tactic(auto, using(crate::proofs::Gathers::all_push))]
fn new_places<J: Naming, T: Carries<J> + Drop, L: Ledger, S: Ledger>(
    alloc: Global,
    writer: &CopyWriter<J, T>,
    none: &Front<J>,
    shown: &Front<J>,
    count: u64,
    made: &mut Share<L>,
    halts: &mut Share<S>,
) -> Option<Vec<Place<J, T, L, S>>>
    requires none { none.now ≡ [] }
    requires parts { (made.old.parts ≡ count) × (halts.old.parts ≡ count) }
    requires amounts { (made.old.amount ≡ 0) × (halts.old.amount ≡ 0) }
    ensures count { IfSome result (λ places. length places.items ≡ count) }
    ensures left { IfSome result (λ places. (made.new.parts ≡ 0) × (made.new.amount ≡ 0) × (halts.new.parts ≡ 0) × (halts.new.amount ≡ 0)) }
    ensures new { IfSome result (λ places. AllByRecursion (λ p. IsNew shown.now p.front p.shares p.caught) places.items) }
{
    let mut places = Vec::new(alloc);
    let mut n = 0;
    'places: while n < count {
        let shares = Shares::new(made.split_off(1, 0), halts.split_off(1, 0));
        let place = Place::new(writer, none, shown, shares)?;
        let Ok(()) = places.push(place) else {
            return None;
        };
        n += 1;
    }
    Some(places)
}

// A hall over two copies that hold the archive's history, and its places.
#[tactic(auto, using(crate::proofs::Told::opens_new))]
fn over<D: Disk, J: Naming, T: Carries<J> + Drop, L: Ledger, S: Ledger, R: Wait>(
    rt: &R,
    alloc: Global,
    archive: Archive<D>,
    admit: Admit,
    book: Book<J>,
    none: &Front<J>,
    latest: Front<J>,
    copies: (T, T),
    count: u64,
    made: Blank,
    halts: Blank,
) -> Result<(Hall<D, J, T, L, S>, Vec<Place<J, T, L, S>>), (D, OutOfMemory)>
    requires law { (h : List Entry) (e : Entry) → T.applied h (h, e) ≡ h ++ e ∷ [] }
    requires made { (made.name ≡ L.name) × (made.parts ≡ L.parts) × (L.parts ≡ count) }
    requires halts { (halts.name ≡ S.name) × (halts.parts ≡ S.parts) × (S.parts ≡ count) }
    requires count { (1 ≤ count) × (count ≤ 16) }
    requires none { none.now ≡ [] }
    requires opening { J.opening ≡ latest }
    requires started { IsStarted D.view archive latest admit }
    requires told { (J.told ≡ is_told (D.view archive.disk)) × (J.faults ≡ archive.faults) }
    requires copies { (T.state copies.0 ≡ latest) × (T.state copies.1 ≡ latest) }
    ensures count { IfOk result (λ hall. length hall.1.items ≡ count) }
    ensures new { IfOk result (λ hall. AllByRecursion (λ p. IsNew J.opening p.front p.shares p.caught) hall.1.items) }
    ensures steps { IfOk result (λ hall. Opens J.opening (λ p. p.front) hall.1.items) }
    ensures refused { IfErr result (λ refused. refused.0 ≡ archive.disk) }
{
    let (entries, mut made) = made.open::<L>();
    let (stops, mut halts) = halts.open::<S>();
    let Ok(writer) = CopyWriter::<J, T>::new(alloc, copies.0, copies.1, count as usize) else {
        return Err((archive.close(), OutOfMemory));
    };
    let Some(places) = new_places(alloc, &writer, none, &latest, count, &mut made, &mut halts)
    else {
        writer.take(rt);
        return Err((archive.close(), OutOfMemory));
    };
    let committer: Committer<D, J, T, L, S> = Committer {
        book,
        intake: Intake::of(archive, admit),
        front: latest.again(),
        latest,
        pending: None,
        writer: unsafe { ManuallyDrop::new_unchecked(writer) },
        made: entries,
        stops,
    };
    match Box::new(alloc, committer) {
        Ok(committer) => {
            let lock = Mutex::new(committer);
            Ok((Hall { lock, made, halts }, places))
        }
        Err(failed) => {
            let AllocFailed { value } = failed;
            let Committer {
                book: _,
                intake,
                latest: _,
                front: _,
                pending: _,
                writer,
                made: _,
                stops: _,
            } = value;
            ManuallyDrop::into_inner(writer).take(rt);
            Err((intake.close(), OutOfMemory))
        }
    }
}

impl<D: Disk, J: Naming, L: Ledger, S: Ledger> Hall<D, J, HeldState<J>, L, S> {
    /// A hall over an archive that was opened, with its entries and what judges the next one, and with so many places,
    /// from 1 to 16, which have seen these entries. The book and both ledgers are new ones. It gives the disk nothing.
    /// It waits for nobody.
    pub fn start<R: Wait>(
        rt: &R,
        alloc: Global,
        archive: Archive<D>,
        entries: &[Entry],
        admit: Admit,
        opened: Opened,
        count: u64,
        made: Blank,
        halts: Blank,
    ) -> Result<
        (
            Hall<D, J, HeldState<J>, L, S>,
            Vec<Place<J, HeldState<J>, L, S>>,
        ),
        (D, OutOfMemory),
    >
        requires started { IsStarted D.view archive entries.now admit }
        requires book { opened ≡ J.book }
        requires opening { J.opening ≡ entries.now }
        requires told { (J.told ≡ is_told (D.view archive.disk)) × (J.faults ≡ archive.faults) }
        requires made { (made.name ≡ L.name) × (made.parts ≡ L.parts) × (L.parts ≡ count) }
        requires halts { (halts.name ≡ S.name) × (halts.parts ≡ S.parts) × (S.parts ≡ count) }
        requires count { (1 ≤ count) × (count ≤ 16) }
        ensures count { IfOk result (λ hall. length hall.1.items ≡ count) }
        ensures new { IfOk result (λ hall. AllByRecursion (λ p. IsNew J.opening p.front p.shares p.caught) hall.1.items) }
        // Whichever world it is that a crash left so, it recovers, and each place reads all of it.
        ensures steps { IfOk result (λ hall. Opens J.opening (λ p. p.front) hall.1.items) }
        ensures refused { IfErr result (λ refused. refused.0 ≡ archive.disk) }
    {
        let (book, none) = opened.named::<J>();
        let mut latest = none.again();
        if !latest.begin(&book, entries) {
            // Never: nobody else has the book yet.
            return Err((archive.close(), OutOfMemory));
        }
        let first: HeldState<J> = match HeldState::of(alloc, entries, &latest) {
            Ok(first) => first,
            Err(OutOfMemory) => return Err((archive.close(), OutOfMemory)),
        };
        let second: HeldState<J> = match HeldState::of(alloc, entries, &latest) {
            Ok(second) => second,
            Err(OutOfMemory) => return Err((archive.close(), OutOfMemory)),
        };
        over::<D, J, HeldState<J>, L, S, R>(
            rt,
            alloc,
            archive,
            admit,
            book,
            &none,
            latest,
            (first, second),
            count,
            made,
            halts,
        )
    }
}
