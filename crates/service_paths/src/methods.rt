//! Which methods are allowed.
ghost use Rattle.std.specs.Prelude.{◌≡◌};
ghost use Rattle.service_paths.specs.Paths.{is_allowed};

use http_replies::Allow;

/// Whether these methods have that one, byte for byte (RFC 9110, section 9.1: a method is case-sensitive).
pub fn is_allowed(methods: Allow, method: &[u8]) -> bool
    ensures { result ≡ is_allowed methods method.now }
{
    match methods {
        Allow::Get => method == b"GET".as_slice(),
        Allow::Post => method == b"POST".as_slice(),
        Allow::Both => method == b"GET".as_slice() || method == b"POST".as_slice(),
    }
}
