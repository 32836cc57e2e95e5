//! How many parameters a query string has.
ghost use Rattle.std.specs.Prelude.{◌≡◌, ◌↔◌, ◌+◌, ◌<◌, length, IsTrue};
ghost use Rattle.form_urlencoded.specs.Form.{raw_pairs};
ghost use Rattle.query_parameters.specs.Parameters.{pairs_of};

// How many parameters a query string may have.
const MOST_PARAMETERS: usize = 1000;

// How many parameters a query string has.
fn parameter_count(query: &[u8]) -> usize
    ensures { result ≡ length (raw_pairs query.now) }
{
    let mut count = 0;
    'pairs: for _pair in form_urlencoded::raw_pairs(query) {
        count += 1;
    }
    count
}

/// Whether a query string has more than 1000 parameters.
pub fn has_too_many(query: &[u8]) -> bool
    ensures { IsTrue result ↔ (1000 < length (pairs_of query.now)) }
{
    parameter_count(query) > MOST_PARAMETERS
}
