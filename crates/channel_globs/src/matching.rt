//! Matching in at most (pattern + code) * pattern steps, and without memory.
ghost use Rattle.std.specs.Prelude.{◌≡◌, ◌↔◌, ◌∷◌, IsTrue};
ghost use Rattle.channel_globs.specs.Matching.{Matches, Leads, is_match, star};

/// What matching a pattern up to its first `*` comes to.
#[derive(Clone, Copy)]
pub enum Front<'a> {
    /// No `*` was met: the answer.
    Done(bool),
    /// The pattern behind the `*`, and the rest of the code.
    Star(&'a [u8], &'a [u8]),
}

fn match_front<'a>(pattern: &'a [u8], code: &'a [u8]) -> Front<'a>
    ensures { Leads pattern.entry.now code.entry.now result }
{
    let mut glob = pattern;
    let mut left = code;
    'bytes: loop {
        let [first, after @ ..] = glob else {
            return Front::Done(left.is_empty());
        };
        if *first == b'*' {
            return Front::Star(after, left);
        }
        let [byte, rest @ ..] = left else {
            return Front::Done(false);
        };
        if *first != b'?' && *first != *byte {
            return Front::Done(false);
        }
        glob = after;
        left = rest;
    }
}

// Whether a pattern that begins with `*` matches; `pattern` is what is behind it. Once a later `*` is
// reached, an earlier one need not be tried again.
fn matches_star(pattern: &[u8], code: &[u8]) -> bool
    ensures { IsTrue result ↔ Matches (star ∷ pattern.now) code.now }
{
    let mut glob = pattern;
    let mut left = code;
    'places: loop {
        match match_front(glob, left) {
            Front::Star(after, rest) => {
                glob = after;
                left = rest;
            }
            Front::Done(true) => return true,
            Front::Done(false) => {
                let [_, rest @ ..] = left else {
                    return false;
                };
                left = rest;
            }
        }
    }
}

// Whether a pattern matches a code, by the relation.
fn matches_at(pattern: &[u8], code: &[u8]) -> bool
    ensures { IsTrue result ↔ Matches pattern.now code.now }
{
    match match_front(pattern, code) {
        Front::Star(after, rest) => matches_star(after, rest),
        Front::Done(answer) => answer,
    }
}

/// Whether a pattern matches a code.
pub fn matches(pattern: &[u8], code: &[u8]) -> bool
    ensures { result ≡ is_match pattern.now code.now }
{
    matches_at(pattern, code)
}
