//! Comparison over all bytes.
ghost use Rattle.std.specs.Prelude.{◌≡◌, length};
ghost use Rattle.std.specs.Str.{bytes_eq};

// Whether texts of one length are equal: each pair of bytes is looked at, whatever those before it were.
fn same_all(first: &[u8], second: &[u8]) -> bool
    requires { length first.now ≡ length second.now }
    ensures { result ≡ bytes_eq first.now second.now }
{
    let mut differing: u8 = 0;
    'bytes: for place in 0..first.len() {
        differing |= first[place] ^ second[place];
    }
    differing == 0
}

/// Whether two texts are equal. Where they have one length, all bytes are looked at, so that the time doesn't
/// tell where they differ.
pub fn same_bytes(first: &[u8], second: &[u8]) -> bool
    ensures { result ≡ bytes_eq first.now second.now }
{
    if first.len() != second.len() {
        return false;
    }
    same_all(first, second)
}
