ghost use Rattle.std.specs.Prelude.{◌≡◌, MatchOption};
ghost use Rattle.mseed_header.specs.Quality.{quality_letter};
ghost use Rattle.mseed_header.specs.declared.quality.Quality.{Quality};

/// The quality of a record (SEED 2.4, fixed section of data header, field 2), in the order of the
/// letters.
#[derive(Clone, Copy, Debug, PartialEq, Eq, PartialOrd, Ord)]
pub enum Quality {
    /// Not known.
    D,
    /// Modified.
    M,
    /// Controlled.
    Q,
    /// Raw.
    R,
}

/// The quality with that letter.
pub fn quality_of(letter: u8) -> Option<Quality>
    ensures { MatchOption result ((q : Quality) → ¬ (quality_letter q ≡ letter)) (λ q. quality_letter q ≡ letter) }
{
    match letter {
        b'D' => Some(Quality::D),
        b'M' => Some(Quality::M),
        b'Q' => Some(Quality::Q),
        b'R' => Some(Quality::R),
        _ => None,
    }
}
