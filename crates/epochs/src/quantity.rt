//! The quantities that numbers of revision lines measure.

/// What a number measures, which says between what limits it may be.
#[derive(Clone, Copy, Debug, PartialEq, Eq)]
pub enum Quantity {
    /// Degrees, -90 to 90.
    Latitude,
    /// Degrees, -180 to 180.
    Longitude,
    /// Degrees clockwise from north, 0 to 360.
    Azimuth,
    /// Degrees down from the horizontal, -90 to 90.
    Dip,
    /// Samples per second, at least 0.
    Rate,
    /// Any number.
    Measure,
}
