//! What the objects of a run are made from.
ghost use Rattle.std.specs.Prelude.{◌≤◌};

use exact_time::Text;

/// What the words say of the objects of the outside that a run needs.
#[derive(Debug, Drop)]
pub struct Outside {
    /// The path of the archive's file. None where the words are no command, or one that uses no archive.
    pub journal: Option<Text>,
    /// Whether the file is to be made where there is none.
    pub may_make: bool,
    /// The path of a second file: no command has one yet.
    pub second: Option<Text>,
    /// The address at which the first worker listens, or which it dials. None where there is neither.
    pub address: Option<Text>,
    /// Whether the first worker's port dials that address.
    pub dials: bool,
    /// How many workers there are, from 1 to 16.
    pub workers: u8,
    /// Behind how many sessions each worker ends, if it does.
    pub sessions: Option<u64>,
    pub ghost workers_in: { (1 ≤ workers) × (workers ≤ 16) },
}
