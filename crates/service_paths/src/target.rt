//! A target in two.
ghost use Rattle.std.specs.Prelude.{◌≡◌, ◌<◌, ◌==◌, length, position, IfSome};
ghost use Rattle.service_paths.specs.Paths.{question_mark, path_of, query_of};

/// A target in two (RFC 9112, section 3.2.1).
#[derive(Clone, Copy, Debug, PartialEq, Eq)]
pub struct Target<'a> {
    /// What stands before the first `?`.
    pub path: &'a [u8],
    /// What stands behind it.
    pub query: &'a [u8],
}

// The place of the first `?`.
fn mark_in(target: &[u8]) -> Option<usize>
    ensures value { result ≡ position (λ byte. byte == question_mark) target.now }
    ensures within { IfSome result (λ place. place < length target.now) }
{
    target.iter().position(|byte| *byte == b'?')
}

/// Splits a target: the path is what stands before the first `?`, the query what stands behind it, and
/// nothing where there is none (RFC 3986, section 3.4).
pub fn split_target(target: &[u8]) -> Target<'_>
    ensures path { result.path.now ≡ path_of target.now }
    ensures query { result.query.now ≡ query_of target.now }
{
    match mark_in(target) {
        Some(place) => Target {
            path: &target[..place],
            query: &target[place + 1..],
        },
        None => Target {
            path: target,
            query: &[],
        },
    }
}
