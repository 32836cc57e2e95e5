/// The order of the events of an answer (FDSN Web Service Specifications 1.2, event, `orderby`).
#[derive(Clone, Copy, Debug, PartialEq, Eq)]
pub enum EventOrder {
    /// `time`: newest first.
    TimeDown,
    /// `time-asc`: oldest first.
    TimeUp,
    /// `magnitude`: greatest first.
    MagnitudeDown,
    /// `magnitude-asc`: least first.
    MagnitudeUp,
}
