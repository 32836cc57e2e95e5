ghost use Rattle.std.specs.Prelude.{◌≡◌, ◌≤◌};

use crate::{Moment, Ratio};

/// The time of a sample: `start + k / rate` seconds, exactly, and `start` where the rate is 0.
#[derive(Clone, Copy, Debug)]
pub struct SampleTime {
    pub start: Moment,
    /// How many sample periods after the start.
    pub k: u32,
    pub rate: Ratio,
    pub ghost k_in: { k ≤ 65_535 },
    pub ghost still: { rate.num ≡ 0 → k ≡ 0 },
}
