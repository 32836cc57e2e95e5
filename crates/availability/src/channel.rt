//! The spans of one channel.
use crate::span::TimeSpan;
use channel_globs::Nslc;
use exact_time::Many;

/// The time spans of a channel, in order of quality, rate and start.
#[derive(Debug, Drop)]
pub struct ChannelSpans {
    pub name: Nslc,
    pub spans: Many<TimeSpan>,
}
