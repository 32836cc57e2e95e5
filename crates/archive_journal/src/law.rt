//! What the definitions of a journal's file say of every file.
ghost use Rattle.std.specs.Prelude.{◌≡◌, ℕ, List};
ghost use Rattle.archive_journal.specs.Frames.{IsBytes, Reading, Describes, reading_of};
ghost use Rattle.archive_journal.specs.Journal.{gate_of};

/// Every file of bytes is a journal of one list of payloads, or is damaged at one offset, or is no journal;
/// and `reading_of` says which. Of these readings no second one describes the file.
pub fn a_file_reads_in_one_way()
    ensures right { (file : List ℕ) → IsBytes file → Describes (reading_of file) file }
    ensures only { (file : List ℕ) (reading : Reading) → Describes reading file → reading_of file ≡ reading }
{}

/// The first gate stands behind the magic, also where there is no payload.
pub fn the_first_gate_stands_at_16()
    ensures { (payloads : List (List ℕ)) → gate_of payloads 1 ≡ 16 }
{}
