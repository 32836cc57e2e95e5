//! What holds of all bytes, and the order of qualities.
ghost use Rattle.std.specs.Prelude.{◌≡◌, ◌≢◌, ℕ, List, ◌++◌, Result};
ghost use Rattle.list_laws.specs.Only.{IsOnly};
ghost use Rattle.mseed_header.specs.Header.{HasHeader, RefusesRecord};
ghost use Rattle.mseed_header.specs.Octets.{AreOctets};
ghost use Rattle.mseed_header.specs.Quality.{quality_cmp};
ghost use Rattle.mseed_header.specs.Records.{HasRecordCount, IsRefusedFirst};
ghost use Rattle.mseed_header.specs.declared.header.Header.{Header};
ghost use Rattle.mseed_header.specs.declared.header.RecordFault.{RecordFault};
ghost use Rattle.mseed_header.specs.declared.quality.Quality.{Quality};

use crate::header::RecordFault;
use crate::quality::Quality;
use std::cmp::Ordering;

/// All bytes begin with the record of exactly one header, or have exactly one fault.
pub fn bytes_begin_with_one_header_or_have_one_fault()
    ensures { (bytes : List ℕ) → AreOctets bytes → (answer : Result Header RecordFault) × IsOnly (HasHeader bytes) (RefusesRecord bytes) answer }
{}

/// All bytes are records end to end, of exactly one number, or exactly one record is the first that is
/// refused, with exactly one fault.
pub fn bytes_are_records_or_one_is_the_first_refused()
    ensures { (bytes : List ℕ) → AreOctets bytes → (answer : Result ℕ (ℕ × RecordFault)) × IsOnly (HasRecordCount bytes) (IsRefusedFirst bytes) answer }
{}

/// A refusal other than for bytes that are missing stays, whatever bytes come behind.
pub fn a_refusal_stays()
    ensures { (bytes more : List ℕ) (fault : RecordFault) → fault ≢ RecordFault.Short → RefusesRecord bytes fault → RefusesRecord (bytes ++ more) fault }
{}

/// Qualities are ordered by their letters: D, M, Q, R. Qualities that stand equal are one.
pub fn qualities_are_in_order_of_their_letters()
    ensures order { (a b : Quality) → ⟦<Quality as Ord>⟧.cmp a b ≡ quality_cmp a b }
    ensures equal { (a b : Quality) → ⟦<Quality as Ord>⟧.cmp a b ≡ Ordering.Equal → a ≡ b }
{}
