//! Limits of numbers and places.
ghost use Rattle.std.specs.Prelude.{◌≡◌, ◌&&◌, int_le};
ghost use Rattle.dataselect.specs.Query.{holds};
ghost use Rattle.query_parameters.specs.Places.{is_within_limits, is_place_in, is_absent, is_everywhere};

use exact_time::Decimal;

/// Limits of a number, each of which it may have; an absent one is no limit.
#[derive(Clone, Copy, Debug, PartialEq, Eq)]
pub struct Limits2 {
    pub least: Option<Decimal>,
    pub most: Option<Decimal>,
}

/// Limits of a place, in degrees: latitudes from -90 to 90, longitudes from -180 to 180.
#[derive(Clone, Copy, Debug, PartialEq, Eq)]
pub struct Area {
    pub latitude: Limits2,
    pub longitude: Limits2,
}

fn is_at_least(number: Decimal, least: Option<Decimal>) -> bool
    ensures { result ≡ holds (λ d. int_le d.millionths number.millionths) least }
{
    match least {
        None => true,
        Some(least) => least.millionths <= number.millionths,
    }
}

fn is_at_most(number: Decimal, most: Option<Decimal>) -> bool
    ensures { result ≡ holds (λ d. int_le number.millionths d.millionths) most }
{
    match most {
        None => true,
        Some(most) => number.millionths <= most.millionths,
    }
}

impl Limits2 {
    /// Whether a number is in the limits, these included.
    pub fn contains(&self, number: Decimal) -> bool
        ensures { result ≡ is_within_limits self.now number.millionths }
    {
        is_at_least(number, self.least) && is_at_most(number, self.most)
    }

    /// Whether there is no limit.
    pub fn is_none(&self) -> bool
        ensures { result ≡ (is_absent self.now.least && is_absent self.now.most) }
    {
        self.least.is_none() && self.most.is_none()
    }
}

impl Area {
    /// Whether a place is in the area, its limits included.
    pub fn contains(&self, latitude: Decimal, longitude: Decimal) -> bool
        ensures { result ≡ is_place_in self.now latitude.millionths longitude.millionths }
    {
        self.latitude.contains(latitude) && self.longitude.contains(longitude)
    }

    /// Whether the area has no limit.
    pub fn is_everywhere(&self) -> bool
        ensures { result ≡ is_everywhere self.now }
    {
        self.latitude.is_none() && self.longitude.is_none()
    }
}
