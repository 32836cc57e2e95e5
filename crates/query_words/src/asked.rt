//! The parts of a query that its words give.
ghost use Rattle.std.specs.Prelude.{◌≡◌, ◌+◌, ◌≤◌, ◌<◌, ℕ, length, get_or, set, codes, None, IfOk, IfErr, OnOk};
ghost use Rattle.query_words.specs.Options.{AreOptionWords, IsMade};
ghost use Rattle.channel_globs.specs.PatternText.{IsPatternList};

use dataselect::{DataQuery, Nodata, Selection};
use exact_time::Many;
use mseed_header::Quality;
use query_parameters::{ParameterValue, flag_in, minimum_in, nodata_in, quality_in};

/// The options of a query for waveforms.
#[derive(Clone, Copy, Debug)]
pub struct Options {
    pub nodata: Nodata,
    pub quality: Option<Quality>,
    pub minimum: u64,
    pub longest: bool,
}

/// The options of the words from that place on.
pub fn options_in(words: &[Option<ParameterValue>], first: usize) -> Options
    requires { first + 4 ≤ length words.now }
    ensures { AreOptionWords words.now first result }
{
    Options {
        nodata: nodata_in(&words[first]),
        quality: quality_in(&words[first + 1]),
        minimum: minimum_in(&words[first + 2]),
        longest: flag_in(&words[first + 3]),
    }
}

/// The query of some selections, with these options.
pub fn query_of(selections: Many<Selection>, options: Options) -> DataQuery
    ensures { IsMade selections options result }
{
    DataQuery {
        selections,
        quality: options.quality,
        minimum: options.minimum,
        longest: options.longest,
        nodata: options.nodata,
    }
}
