use epochs::Event;

/// By what events are put in order: whether an event stands in the second part, a number within its part, and
/// its id.
#[derive(Clone, Copy, Debug)]
pub struct Rank<'a> {
    pub apart: bool,
    pub measure: i128,
    pub event: &'a Event,
}
