//! What was answered for a window.
use crate::window::Window;
use exact_time::Many;
use mseed_header::Row;

/// What a data centre answered for a window.
#[derive(Debug, Drop)]
pub struct WindowAnswer {
    pub window: Window,
    /// How many entries the archive had that answered.
    pub front: u64,
    /// The records of the answer, in its order.
    pub rows: Many<Row>,
}
