//! Limits.
ghost use Rattle.std.specs.Prelude.{◌≡◌, true};
ghost use Rattle.archive_state.specs.Limits.{is_limit};

/// How much an answer and an archive may have. The type keeps that each limit is from 1 to its greatest number.
#[derive(Clone, Copy, Debug)]
pub struct Limits {
    /// Bytes of an answer of records.
    pub max_bytes: u64,
    /// Lines of an answer of text.
    pub max_lines: u64,
    /// Records of all batches.
    pub max_records: u64,
    /// Bytes of all bodies.
    pub max_archive: u64,
    pub ghost bytes_in: { is_limit 67_108_864 max_bytes ≡ true },
    pub ghost lines_in: { is_limit 100_000 max_lines ≡ true },
    pub ghost records_in: { is_limit 2_097_152 max_records ≡ true },
    pub ghost archive_in: { is_limit 536_870_912 max_archive ≡ true },
}

impl Limits {
    /// The greatest limits.
    pub const FULL: Limits = Limits {
        max_bytes: 67_108_864,
        max_lines: 100_000,
        max_records: 2_097_152,
        max_archive: 536_870_912,
    };
}
