//! What is asked for.
use exact_time::Text;

/// The channels of a query, each code as a list of patterns between commas (FDSN Web Service Specifications 1.2,
/// dataselect, channel options). A location that is blank is `--` or no text.
#[derive(Debug, Drop)]
pub struct Codes {
    pub network: Text,
    pub station: Text,
    pub location: Text,
    pub channel: Text,
}
