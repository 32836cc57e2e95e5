//! The lines of a revision, by their numbers.
ghost use Rattle.std.specs.Prelude.{◌≡◌, ◌≤◌, ◌<◌, length};
ghost use Rattle.archive_state.specs.Lines.{line_number};

use epochs::is_skipped;
use text_lines::cut_line;

/// The number, over all lines of a body, of the line that has this place among those that aren't skipped; 0 where
/// there is none.
pub fn line_number(body: &[u8], place: u64) -> u64
    requires { 1 ≤ place }
    ensures { result ≡ line_number body.now place }
{
    let mut left = body;
    let mut number = 1;
    let mut ahead = place;
    'lines: while !left.is_empty() {
        let (text, rest) = cut_line(left);
        if !is_skipped(text) {
            if ahead == 1 {
                return number;
            }
            ahead -= 1;
        }
        number += 1;
        left = rest;
    }
    0
}
