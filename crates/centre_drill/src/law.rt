//! What the made records say.
ghost use Rattle.std.specs.Prelude.{ℕ, ◌<◌};
ghost use Rattle.mseed_header.specs.Header.{IsRecord};
ghost use Rattle.mseed_header.specs.declared.header.Header.{Header};
ghost use Rattle.centre_drill.specs.Records.{made_record, IsMadeHeader};

/// Record `i` is a whole record of miniSEED 2: of the network XX and the station S and the digit i mod 8, with the blank
/// location and the channel BHZ; of 100 samples at 20 Hz, from `5 (i div 8) + i div 80` seconds after
/// 2024-01-01T00:00:00 on.
pub fn a_made_record_says_its_place_and_time()
    ensures { (i : ℕ) → i < 200_000 → (h : Header) × IsRecord (made_record i) h × IsMadeHeader i h }
{}
