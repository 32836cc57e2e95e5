//! What availability is asked for (fdsnws-availability 1.0, query parameters).

/// A set of qualities of records (`quality`).
#[derive(Clone, Copy, Debug, PartialEq, Eq)]
pub struct QualitySet {
    pub d: bool,
    pub r: bool,
    pub q: bool,
    pub m: bool,
}

/// Which records make one span although they differ (`merge`): those of several rates, of several qualities,
/// and those that overlap.
#[derive(Clone, Copy, Debug, PartialEq, Eq)]
pub struct Merges {
    pub rate: bool,
    pub quality: bool,
    pub overlap: bool,
}

/// The order of the lines of an answer (`orderby`). Each goes on by name, earliest, quality, rate and latest.
#[derive(Clone, Copy, Debug, PartialEq, Eq)]
pub enum AvailOrder {
    /// `nslc_time_quality_samplerate`.
    Name,
    /// `latestupdate`: the one that was updated first comes first.
    UpdatedUp,
    /// `latestupdate_desc`.
    UpdatedDown,
    /// `timespancount`: the one of fewest spans first.
    CountUp,
    /// `timespancount_desc`.
    CountDown,
}

/// The form of an answer (`format`).
#[derive(Clone, Copy, Debug, PartialEq, Eq)]
pub enum AvailForm {
    /// Columns under a header line.
    Text,
    /// Selection lines, as a body has them.
    Request,
}
