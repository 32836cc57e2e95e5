//! What holds of every entry, every payload and every body.
ghost use Rattle.std.specs.Prelude.{◌≡◌, ◌+◌, ◌≤◌, ◌++◌, ℕ, List, length, Result, true};
ghost use Rattle.list_laws.specs.Only.{IsOnly};
ghost use Rattle.exact_time.specs.Clock.{is_clock_moment};
ghost use Rattle.exact_time.specs.declared.moment.Moment.{Moment};
ghost use Rattle.epochs.specs.Revisions.{IsRevision, IsRevisionFault};
ghost use Rattle.mseed_header.specs.Octets.{AreOctets};
ghost use Rattle.mseed_header.specs.Records.{AreRecords, HasRecordCount, IsRefusedFirst};
ghost use Rattle.mseed_header.specs.declared.row.Row.{Row};
ghost use Rattle.archive_entry.specs.Batches.{AreBatchRows, batch_of, batch_rows};
ghost use Rattle.archive_entry.specs.Bodies.{revision_of};
ghost use Rattle.archive_entry.specs.Format.{IsEntryFault};
ghost use Rattle.archive_entry.specs.Payload.{entry_of_payload};
ghost use Rattle.archive_entry.specs.Spelling.{IsEntry, Spells, spelling};
ghost use Rattle.archive_entry.specs.declared.entry.Entry.{Entry};
ghost use Rattle.archive_entry.specs.declared.fault.EntryFault.{EntryFault};

/// No spelling of an entry begins that of another. So an entry's spelling tells where it ends, and no two entries
/// have the same one.
pub fn no_spelling_begins_another()
    ensures { (e d : Entry) (rest : List ℕ) → IsEntry e → IsEntry d → spelling e ++ rest ≡ spelling d → e ≡ d }
{}

/// What is spelled reads back, and has from 1 to 2,097,152 bytes, as a payload of a journal.
pub fn what_is_spelled_reads_back()
    ensures back { (e : Entry) → IsEntry e → entry_of_payload (spelling e) ≡ e }
    ensures size { (e : Entry) → length (spelling e) ≡ 30 + length e.author + length e.body }
    ensures fits { (e : Entry) → IsEntry e → (1 ≤ length (spelling e)) × (length (spelling e) ≤ 2_097_152) }
{}

/// Every payload spells exactly one entry, or exactly one field is the first that can't stand there.
pub fn a_payload_is_one_entry_or_has_one_fault()
    ensures { (payload : List ℕ) → AreOctets payload
        → (answer : Result Entry EntryFault) × IsOnly (Spells payload) (IsEntryFault payload) answer }
{}

/// What a batch says is the one right answer: how many records its bytes are, or the first that is refused; and its
/// rows are the records, so many, or none where one is refused.
pub fn a_batch_has_one_reading()
    ensures answer { (body : List ℕ) → AreOctets body → IsOnly (HasRecordCount body) (IsRefusedFirst body) (batch_of body) }
    ensures rows { (body : List ℕ) (entry : ℕ) (moment : Moment) → AreOctets body → is_clock_moment moment ≡ true
        → AreBatchRows body entry moment (batch_of body) (batch_rows entry moment body) }
    ensures only { (body : List ℕ) (entry : ℕ) (moment : Moment) (rows : List Row) → AreOctets body → is_clock_moment moment ≡ true
        → AreRecords body entry moment rows → batch_rows entry moment body ≡ rows }
{}

/// What a revision says is the one right answer: its lines, or its first fault.
pub fn a_revision_has_one_reading()
    ensures { (body : List ℕ) → IsOnly (IsRevision body) (IsRevisionFault body) (revision_of body) }
{}
