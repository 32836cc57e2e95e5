//! A window in its halves.
ghost use Rattle.std.specs.Prelude.{◌≡◌, ◌≤ℤ◌, ◌<ℤ◌};
ghost use Rattle.split_fetch.specs.Halves.{middle_of, left_of, right_of, can_split};

use crate::window::Window;
use exact_time::Moment;

// The last moment of the first of its halves.
fn middle(window: Window) -> Moment
    requires forward { window.start.micros ≤ℤ window.end.micros }
    ensures value { result.micros ≡ middle_of window }
{
    let half = window.end.micros.abs_diff(window.start.micros) / 2;
    let micros = window.start.micros as i128 + half as i128;
    Moment {
        micros: micros as i64,
    }
}

impl Window {
    /// Whether it has more than one moment.
    pub fn can_split(self) -> bool
        ensures { result ≡ can_split self }
    {
        self.start.micros < self.end.micros
    }

    /// The first of its halves.
    pub fn left(self) -> Window
        requires { self.start.micros <ℤ self.end.micros }
        ensures { result ≡ left_of self }
    {
        Window {
            start: self.start,
            end: middle(self),
        }
    }

    /// The second of its halves.
    pub fn right(self) -> Window
        requires { self.start.micros <ℤ self.end.micros }
        ensures { result ≡ right_of self }
    {
        Window {
            start: Moment {
                micros: middle(self).micros + 1,
            },
            end: self.end,
        }
    }
}
