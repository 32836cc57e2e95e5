//! What the definition of a report says of every list of rows.
ghost use Rattle.std.specs.Prelude.{◌≡◌, ◌≤◌, ℤ, Bool, false, List};
ghost use Rattle.std.specs.List.{list_any};
ghost use Rattle.channel_globs.specs.declared.nslc.Nslc.{Nslc};
ghost use Rattle.mseed_header.specs.declared.header.Header.{Header};
ghost use Rattle.mseed_header.specs.declared.row.Row.{Row};
ghost use Rattle.coverage_report.specs.Covered.{covers, covered};

/// Of a day no more is covered than it has microseconds, so what several rows cover counts once. Which rows there are
/// decides, in whatever order and however often they are there. A row of rate 0 covers nothing.
pub fn covered_in_the_subjects_words()
    ensures bound { (rows : List Row) (name : Nslc) (day : ℤ) → covered rows name day ≤ 86_400_000_000 }
    ensures members { (rows others : List Row) → ((test : Row → Bool) → list_any test rows ≡ list_any test others)
        → (name : Nslc) (day : ℤ) → covered rows name day ≡ covered others name day }
    ensures still { (h : Header) (t : ℤ) → h.rate.num ≡ 0 → covers h t ≡ false }
{}
