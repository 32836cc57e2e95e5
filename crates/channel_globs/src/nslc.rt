use crate::Code;

/// The name of a channel, ordered by its fields, by bytes.
#[derive(Clone, Copy, Debug, PartialEq, Eq, PartialOrd, Ord)]
pub struct Nslc {
    pub network: Code,
    pub station: Code,
    /// The blank location is the code of two spaces.
    pub location: Code,
    pub channel: Code,
}

/// Which of the four codes of a name is meant.
#[derive(Clone, Copy, Debug, PartialEq, Eq)]
pub enum Part {
    Network,
    Station,
    Location,
    Channel,
}
