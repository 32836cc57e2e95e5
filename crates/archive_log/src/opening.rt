//! Opens an archive from a disk, by reading alone.
ghost use Rattle.std.specs.Prelude.{ℕ, List, ◌≡◌, ◌≢◌, ◌++◌, ◌∷◌, [], ◌-◌, ◌≤◌, false, None, Some, ⊤, length, slice_get, IfOk, IfErr, IfSome, IsErrOf, MatchOption};
ghost use Rattle.disk_model.specs.View.{DiskRun, WhereTold, file_of};
ghost use Rattle.disk_model.specs.Effects.{OnlyReads, WritesNothing};
ghost use Rattle.archive_journal.specs.Journal.{WasRead};
ghost use Rattle.archive_entry.specs.Spelling.{Spells, spelling};
ghost use Rattle.archive_entry.specs.declared.entry.Entry.{Entry};
ghost use Rattle.archive_state.specs.Admits.{IsAdmit, StandsForSome};
ghost use Rattle.archive_log.specs.Archive.{archived_as};
ghost use Rattle.archive_log.specs.Histories.{IsHistory, IsNextEntry, SpellsNext, IsHistoryOf, payloads_of};
ghost use Rattle.archive_log.specs.Opening.{SpellsNoNext, IsBadPayload, IsBadAt, ExplainsOpen, ExplainsStart, IsOpened, IsReplicaOf, IsStarted, IsSyncedUnlessFailed, OpensUnwritten, disk_of, outcome_of};

use crate::archive::Archive;
use crate::fault::StartFault;
use archive_entry::{Entry, EntryFault, decode_counted};
use archive_journal::{InitFault, Journal};
use archive_state::Admit;
use disk_model::Disk;
use exact_time::{Many, OutOfMemory};
use std::alloc::Global;

impl<D: Disk> Archive<D> {
    /// Opens the archive that a disk holds, after a crash too: its history is the one that the file's bytes spell. It
    /// gives the archive, the entries, and what judges the next one. It begins with a sync, so that after every
    /// answer but `DiskFault` a crash leaves what a read gives, and gives the disk no write and no cut: the disk reads
    /// as before. Where the journal has no entry it is `Damaged` at 16, and where a payload isn't the spelling of the
    /// next lawful entry, at its gate.
    pub fn start(
        alloc: Global,
        disk: D,
    ) -> Result<(Archive<D>, Many<Entry>, Admit), (D, StartFault)>
        ensures started { IfOk result (λ opened. IsStarted D.view opened.0 opened.1 opened.2) }
        ensures history { WhereTold (D.view disk) (IfOk result (λ opened. IsHistoryOf (file_of (D.view disk)) opened.1)) }
        ensures since { IfOk result (λ opened. (D.view disk).faults ≤ opened.0.faults) }
        ensures fault { WhereTold (D.view disk) (IfErr (outcome_of result) (ExplainsStart (file_of (D.view disk)))) }
        // Unless the disk failed, each image is what a read gives, also where that is no archive.
        ensures synced { WhereTold (D.view disk) (IsSyncedUnlessFailed (D.view (disk_of result)) (file_of (D.view disk)) (outcome_of result)) }
        // At every moment of the call, every image is one that was there before.
        ensures disk { WritesNothing (D.view disk) (D.view (disk_of result)) (IsErrOf (outcome_of result) StartFault.DiskFault) }
    {
        match Journal::recover(alloc, disk) {
            Ok(journal) => start_from(alloc, journal),
            Err((disk, fault)) => Err((disk, StartFault::from(fault))),
        }
    }

    /// Opens what a replica goes on with: as a start, but the history may have no entry, and where the file has no byte a
    /// journal without entries is made in it. A file with bytes is given no write and no cut.
    pub fn open(alloc: Global, disk: D) -> Result<(Archive<D>, Many<Entry>, Admit), (D, StartFault)>
        ensures opened { IfOk result (λ opened. IsOpened D.view opened.0 opened.1 opened.2) }
        ensures history { WhereTold (D.view disk) (IfOk result (λ opened. IsReplicaOf (file_of (D.view disk)) opened.1)) }
        ensures since { IfOk result (λ opened. (D.view disk).faults ≤ opened.0.faults) }
        ensures fault { WhereTold (D.view disk) (IfErr (outcome_of result) (ExplainsOpen (file_of (D.view disk)))) }
        // At every moment of the call, every image of a file with bytes is one that was there before.
        ensures disk { DiskRun (D.view disk) (D.view (disk_of result)) (IsErrOf (outcome_of result) StartFault.DiskFault)
            (OpensUnwritten (D.view disk) (D.view (disk_of result))) }
    {
        let mut disk = disk;
        match disk.len() {
            Ok(0) => begin_in(alloc, disk),
            Ok(_) => go_on_in(alloc, disk),
            Err(_) => Err((disk, StartFault::DiskFault)),
        }
    }
}

// Makes a journal without entries in a file without bytes.
fn begin_in<D: Disk>(
    alloc: Global,
    disk: D,
) -> Result<(Archive<D>, Many<Entry>, Admit), (D, StartFault)>
    requires { WhereTold (D.view disk) (file_of (D.view disk) ≡ []) }
    ensures opened { IfOk result (λ opened. IsOpened D.view opened.0 opened.1 opened.2) }
    ensures none { WhereTold (D.view disk) (IfOk result (λ opened. opened.1 ≡ [])) }
    ensures since { IfOk result (λ opened. (D.view disk).faults ≤ opened.0.faults) }
    ensures fault { WhereTold (D.view disk) (IfErr (outcome_of result) (λ fault. fault ≡ StartFault.DiskFault)) }
    ensures disk { DiskRun (D.view disk) (D.view (disk_of result)) (IsErrOf (outcome_of result) StartFault.DiskFault) ⊤ }
{
    match Journal::init(alloc, disk) {
        Ok(journal) => {
            let entries = Many::new(alloc);
            Ok((archive_of(journal, &entries), entries, Admit::new(alloc)))
        }
        // A disk that tells is empty here.
        Err((disk, InitFault::NotEmpty(_))) => go_on_in(alloc, disk),
        Err((disk, InitFault::DiskFault)) => Err((disk, StartFault::DiskFault)),
    }
}

// Recovers a journal, which may have no payload.
fn go_on_in<D: Disk>(
    alloc: Global,
    disk: D,
) -> Result<(Archive<D>, Many<Entry>, Admit), (D, StartFault)>
    requires { WhereTold (D.view disk) (1 ≤ length (file_of (D.view disk))) }
    ensures opened { IfOk result (λ opened. IsOpened D.view opened.0 opened.1 opened.2) }
    ensures history { WhereTold (D.view disk) (IfOk result (λ opened. IsHistoryOf (file_of (D.view disk)) opened.1)) }
    ensures since { IfOk result (λ opened. (D.view disk).faults ≤ opened.0.faults) }
    ensures fault { WhereTold (D.view disk) (IfErr (outcome_of result) (ExplainsOpen (file_of (D.view disk)))) }
    ensures disk { WritesNothing (D.view disk) (D.view (disk_of result)) (IsErrOf (outcome_of result) StartFault.DiskFault) }
{
    match Journal::recover(alloc, disk) {
        Ok(journal) => read_from(alloc, journal),
        Err((disk, fault)) => Err((disk, StartFault::from(fault))),
    }
}

// The same of a recovered journal, which has to have an entry.
fn start_from<D: Disk>(
    alloc: Global,
    journal: Journal<D>,
) -> Result<(Archive<D>, Many<Entry>, Admit), (D, StartFault)>
    requires running { journal.stopped ≡ false }
    requires faults { journal.faults ≤ (D.view journal.disk).faults }
    ensures started { IfOk result (λ opened. IsStarted D.view opened.0 opened.1 opened.2) }
    ensures spelled { WhereTold (D.view journal.disk) (IfOk result (λ opened. payloads_of opened.1 ≡ journal.payloads)) }
    ensures since { IfOk result (λ opened. opened.0.faults ≡ journal.faults) }
    ensures damaged { WhereTold (D.view journal.disk)
        (IfErr (outcome_of result) (λ fault. (at : ℕ) → fault ≡ StartFault.Damaged at → IsBadAt journal.payloads at)) }
    ensures whole { IfErr (outcome_of result) (λ fault. fault ≢ StartFault.NotAJournal) }
    ensures disk { OnlyReads (D.view journal.disk) (D.view (disk_of result)) (IsErrOf (outcome_of result) StartFault.DiskFault) }
{
    if journal.count() == 0 {
        return Err((journal.close(), StartFault::Damaged(FIRST_GATE)));
    }
    read_from(alloc, journal)
}

// The archive of a recovered journal.
fn read_from<D: Disk>(
    alloc: Global,
    journal: Journal<D>,
) -> Result<(Archive<D>, Many<Entry>, Admit), (D, StartFault)>
    requires running { journal.stopped ≡ false }
    requires faults { journal.faults ≤ (D.view journal.disk).faults }
    ensures opened { IfOk result (λ opened. IsOpened D.view opened.0 opened.1 opened.2) }
    ensures as_many { IfOk result (λ opened. length opened.1 ≡ journal.count) }
    ensures spelled { WhereTold (D.view journal.disk) (IfOk result (λ opened. payloads_of opened.1 ≡ journal.payloads)) }
    ensures since { IfOk result (λ opened. opened.0.faults ≡ journal.faults) }
    ensures damaged { WhereTold (D.view journal.disk)
        (IfErr (outcome_of result) (λ fault. (at : ℕ) → fault ≡ StartFault.Damaged at → IsBadAt journal.payloads at × (1 ≤ length journal.payloads))) }
    ensures whole { IfErr (outcome_of result) (λ fault. fault ≢ StartFault.NotAJournal) }
    ensures disk { OnlyReads (D.view journal.disk) (D.view (disk_of result)) (IsErrOf (outcome_of result) StartFault.DiskFault) }
{
    let mut journal = journal;
    match read_all(alloc, &mut journal) {
        Ok((entries, admit)) => Ok((archive_of(journal, &entries), entries, admit)),
        Err(fault) => Err((journal.close(), fault)),
    }
}

// An archive over a journal whose payloads spell these entries.
fn archive_of<D: Disk>(journal: Journal<D>, entries: &Many<Entry>) -> Archive<D>
    requires running { journal.stopped ≡ false }
    requires history { IsHistory entries.now }
    requires spelled { WhereTold (D.view journal.disk) (payloads_of entries.now ≡ journal.payloads) }
    ensures archive { result ≡ archived_as journal None }
    ensures history { WhereTold (D.view journal.disk) (result.history ≡ entries.now) }
{
    Archive {
        journal,
        hand: None,
    }
}

// Reads all entries of a journal.
fn read_all<D: Disk>(
    alloc: Global,
    journal: &mut Journal<D>,
) -> Result<(Many<Entry>, Admit), StartFault>
    ensures read { WasRead D.view journal.old journal.new (IsErrOf result StartFault.DiskFault) }
    ensures history { IfOk result (λ found. IsHistory found.0 × IsAdmit found.1 found.0) }
    ensures all { IfOk result (λ found. length found.0 ≡ journal.old.count) }
    ensures spelled { WhereTold (D.view journal.old.disk) (IfOk result (λ found. payloads_of found.0 ≡ journal.old.payloads)) }
    ensures damaged { WhereTold (D.view journal.old.disk)
        (IfErr result (λ fault. (at : ℕ) → fault ≡ StartFault.Damaged at → IsBadAt journal.old.payloads at × (1 ≤ length journal.old.payloads))) }
    ensures whole { IfErr result (λ fault. fault ≢ StartFault.NotAJournal) }
{
    let count = journal.count();
    let mut entries = Many::new(alloc);
    let mut admit = Admit::new(alloc);
    let mut buffer = Vec::new(alloc);
    'entries: for n in 0..count {
        let entry = read_next(alloc, journal, &mut admit, &mut buffer, n + 1)?;
        entries.push(entry)?;
    }
    Ok((entries, admit))
}

// Reads payload n into the buffer: it is to spell the entry that comes next, which is taken in.
fn read_next<D: Disk>(
    alloc: Global,
    journal: &mut Journal<D>,
    admit: &mut Admit,
    buffer: &mut Vec<u8>,
    n: u64,
) -> Result<Entry, StartFault>
    requires number { (1 ≤ n) × (n ≤ journal.old.count) }
    requires stands { StandsForSome admit.old }
    ensures read { WasRead D.view journal.old journal.new (IsErrOf result StartFault.DiskFault) }
    ensures next { (h : List Entry) → IsAdmit admit.old h → IfOk result (IsNextEntry h) }
    ensures taken { (h : List Entry) → IsAdmit admit.old h → IfOk result (λ entry. IsAdmit admit.new (h ++ entry ∷ [])) }
    ensures spelled { WhereTold (D.view journal.old.disk) (IfOk result (λ entry. slice_get journal.old.payloads (n - 1) ≡ Some (spelling entry))) }
    ensures damaged { (h : List Entry) → IsAdmit admit.old h → WhereTold (D.view journal.old.disk)
        (IfErr result (λ fault. (at : ℕ) → fault ≡ StartFault.Damaged at → IsBadPayload h journal.old.payloads n at)) }
    ensures whole { IfErr result (λ fault. fault ≢ StartFault.NotAJournal) }
{
    journal.read_entry_into(n, buffer)?;
    let at = journal.offset(n);
    match next_in(alloc, admit, buffer.as_slice())? {
        Some(entry) => Ok(entry),
        None => Err(StartFault::Damaged(at)),
    }
}

// The entry that a payload spells, if it is the one that comes next, and takes it in.
fn next_in(alloc: Global, admit: &mut Admit, payload: &[u8]) -> Result<Option<Entry>, OutOfMemory>
    requires { StandsForSome admit.old }
    ensures entry { IfOk result (λ found. IfSome found (Spells payload.now)) }
    ensures next { (h : List Entry) → IsAdmit admit.old h
        → IfOk result (λ found. MatchOption found (SpellsNoNext h payload.now) (SpellsNext h payload.now)) }
    ensures taken { (h : List Entry) → IsAdmit admit.old h
        → IfOk result (λ found. IfSome found (λ entry. IsAdmit admit.new (h ++ entry ∷ []))) }
{
    let (entry, records) = match decode_counted(alloc, payload) {
        Ok(read) => read,
        Err(EntryFault::Bad { .. }) => return Ok(None),
        Err(EntryFault::OutOfMemory) => return Err(OutOfMemory),
    };
    if admit.note_next(&entry, records)? {
        Ok(Some(entry))
    } else {
        Ok(None)
    }
}

// Where the first gate stands, behind the magic.
const FIRST_GATE: u64 = 16;
