ghost use Rattle.std.specs.Prelude.{◌≡◌, ◌≤◌, ◌↔◌, List, ℕ, [], ◌∷◌, length, IsSome, IfSome, Some, nat_eq, refl};
ghost use Rattle.std.specs.Ordering.{nat_cmp};
ghost use Rattle.std.specs.Cmp.{partial_equiv_from_equiv};
ghost use Rattle.std.specs.Cmp.Lexicographic.{pointwise, slice_cmp, nat_list_eq_equiv, nat_list_cmp_total, texts_po, texts_ties};

use std::cmp::Ordering;
use std::marker::Model;

/// One to eight bytes: a network, station, location or channel code (SEED 2.4, fixed section of data
/// header, fields 4 to 7), or one pattern of a list. Ordered by bytes.
#[derive(Clone, Copy, Debug)]
pub struct Code {
    bytes: [u8; 8],
    len: u8,
}

impl Model for Code {
    ghost use Rattle.std.specs.Prelude.{◌≡◌, ◌≤◌, ◌-◌, ◌++◌, List, ℕ, length, take, drop, replicate};

    ghost Value = { List ℕ };

    ghost view = { λ c. take c.len c.bytes };

    ghost invariant = { λ c. (1 ≤ c.len) × (c.len ≤ 8) × (length c.bytes ≡ 8) × (drop c.len c.bytes ≡ replicate (8 - c.len) 0) };

    ghost use Rattle.std.proofs.Common.{arith, length-take-le};
    ghost use Rattle.channel_globs.specs.CodeBytes.{filled, filled-take};

    ghost inverse = { λ xs. record { bytes = filled xs; len = length xs } };

    ghost inverse_ok = { λ c h i. record {
      bytes = filled-take c.len c.bytes (Prim.omega (arith, h.1, h.2)) h.3 i;
      len = length-take-le c.len c.bytes (Prim.omega (arith, h.1, h.2)) i;
    } };
}

impl Code {
    /// The code of these bytes. None exactly where there is no byte or there are more than eight.
    pub fn of(bytes: &[u8]) -> Option<Code>
        ensures some { IsSome result ↔ ((1 ≤ length bytes.now) × (length bytes.now ≤ 8)) }
        ensures value { IfSome result (λ c. c ≡ bytes.now) }
    {
        if bytes.is_empty() || bytes.len() > 8 {
            return None;
        }
        let mut held = [0; 8];
        let len = bytes.len();
        held[..len].copy_from_slice(bytes);
        Some(Code {
            bytes: held,
            len: len as u8,
        })
    }

    /// The blank location: two spaces.
    pub fn blank() -> Code
        ensures { result ≡ 32 ∷ 32 ∷ [] }
    {
        Code {
            bytes: *b"  \0\0\0\0\0\0",
            len: 2,
        }
    }

    /// The bytes.
    pub fn as_slice(&self) -> &[u8]
        ensures value { result.now ≡ self.now }
        ensures some { 1 ≤ length self.now }
        ensures few { length self.now ≤ 8 }
    {
        &self.bytes[..self.len as usize]
    }
}

impl PartialEq for Code {
    ghost eq = { λ s t. pointwise nat_eq s t };

    ghost laws = { partial_equiv_from_equiv nat_list_eq_equiv };

    fn eq(&self, other: &Self) -> bool {
        // eight bytes are compared as one number
        self.len == other.len && self.bytes == other.bytes
    }
}

impl Eq for Code {
    ghost laws = { nat_list_eq_equiv };
}

impl PartialOrd for Code {
    ghost partial_cmp = { λ s t. Some (slice_cmp nat_cmp s t) };

    ghost laws = { texts_po };

    fn partial_cmp(&self, other: &Self) -> Option<Ordering> {
        Some(self.cmp(other))
    }
}

impl Ord for Code {
    ghost cmp = { λ s t. slice_cmp nat_cmp s t };

    ghost total = { nat_list_cmp_total };

    ghost matches_partial_cmp = { λ s t. refl };

    ghost matches_eq = { texts_ties };

    fn cmp(&self, other: &Self) -> Ordering {
        if self == other {
            return Ordering::Equal;
        }
        self.as_slice().cmp(&other.as_slice())
    }
}
