//! The lines of a text, one after another and without memory.
//!
//! What the crates above use: [`cut_line`] takes the first line from a text. By its clause the lines
//! that it gives, one after another, are those of std's `lines`: a line ends at a line feed, one
//! carriage return before that is no part of it, and the last line feed may be absent. The bytes
//! needn't be UTF-8.
#![tactic(auto)]

ghost use Rattle.std.specs.Prelude.{◌≡◌, ◌+◌, ◌<◌, ◌==◌, ◌∷◌, length, position, IfSome};
ghost use Rattle.std.specs.Str.Lines.{lines, strip_carriage_return};

// The line without one carriage return at its end.
fn without_return(line: &[u8]) -> &[u8]
    ensures { result.now ≡ strip_carriage_return line.now }
{
    match line {
        [rest @ .., b'\r'] => rest,
        _ => line,
    }
}

// The place of the first line feed.
fn line_feed(text: &[u8]) -> Option<usize>
    ensures value { result ≡ position (λ byte. byte == 10) text.now }
    ensures within { IfSome result (λ i. i < length text.now) }
{
    text.iter().position(|byte| *byte == b'\n')
}

/// The first line of a text, and what is behind it.
pub fn cut_line(text: &[u8]) -> (&[u8], &[u8])
    requires { 0 < length text.now }
    ensures cut { lines text.now ≡ result.0.now ∷ lines result.1.now }
    ensures shorter { length result.1.now < length text.now }
{
    let Some(end) = line_feed(text) else {
        return (text, &[]);
    };
    (without_return(&text[..end]), &text[end + 1..])
}
