ghost use Rattle.std.specs.Prelude.{◌≡◌};
ghost use Rattle.mseed_header.specs.Times.{last_index, next_index};

use crate::Header;
use exact_time::SampleTime;

/// The time of the last sample; the start where the rate is 0.
pub fn last(header: &Header) -> SampleTime
    ensures start { result.start ≡ header.now.start }
    ensures rate { result.rate ≡ header.now.rate }
    ensures index { result.k ≡ last_index header.now }
{
    let k = if header.rate.num == 0 {
        0
    } else {
        header.samples.saturating_sub(1)
    };
    SampleTime {
        start: header.start,
        k: k as u32,
        rate: header.rate,
    }
}

/// The time after the last sample; the start where the rate is 0.
pub fn next(header: &Header) -> SampleTime
    ensures start { result.start ≡ header.now.start }
    ensures rate { result.rate ≡ header.now.rate }
    ensures index { result.k ≡ next_index header.now }
{
    let k = if header.rate.num == 0 {
        0
    } else {
        header.samples
    };
    SampleTime {
        start: header.start,
        k: k as u32,
        rate: header.rate,
    }
}
