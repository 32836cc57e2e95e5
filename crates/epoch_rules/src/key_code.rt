//! The codes of a key that is kept without its line.
ghost use Rattle.std.specs.Prelude.{◌≡◌, ℕ, [], Some, nat_eq, refl};
ghost use Rattle.std.specs.Ordering.{nat_cmp};
ghost use Rattle.std.specs.Cmp.{partial_equiv_from_equiv};
ghost use Rattle.std.specs.Cmp.Lexicographic.{pointwise, slice_cmp, nat_list_eq_equiv, nat_list_cmp_total, texts_po, texts_ties};

use channel_globs::Code;
use std::cmp::Ordering;
use std::marker::Model;

/// A code of a key, or the empty text where its kind has none. Ordered by bytes.
#[derive(Clone, Copy, Debug)]
pub struct KeyCode {
    code: Option<Code>,
}

impl Model for KeyCode {
    ghost use Rattle.std.specs.Prelude.{List, ℕ};
    ghost use Rattle.epoch_rules.specs.Codes.{text_of_code, code_of_text, IsNotEmpty, code_again};

    ghost Value = { List ℕ };

    ghost view = { λ k. text_of_code k.code };

    ghost invariant = { λ k. IsNotEmpty k.code };

    ghost inverse = { λ text. record { code = code_of_text text } };

    ghost inverse_ok = { λ k h i. record { code = code_again k.code h i } };
}

impl KeyCode {
    /// The empty text.
    pub fn none() -> KeyCode
        ensures { result ≡ [] }
    {
        KeyCode { code: None }
    }

    /// The text of a code.
    pub fn of(code: Code) -> KeyCode
        ensures { result ≡ code }
    {
        // says that a code has a byte
        let _ = code.as_slice();
        KeyCode { code: Some(code) }
    }

    /// The bytes.
    pub fn as_slice(&self) -> &[u8]
        ensures { result.now ≡ self.now }
    {
        match &self.code {
            Some(code) => code.as_slice(),
            None => &[],
        }
    }
}

impl PartialEq for KeyCode {
    ghost eq = { λ s t. pointwise nat_eq s t };

    ghost laws = { partial_equiv_from_equiv nat_list_eq_equiv };

    fn eq(&self, other: &Self) -> bool {
        self.as_slice() == other.as_slice()
    }
}

impl Eq for KeyCode {
    ghost laws = { nat_list_eq_equiv };
}

impl PartialOrd for KeyCode {
    ghost partial_cmp = { λ s t. Some (slice_cmp nat_cmp s t) };

    ghost laws = { texts_po };

    fn partial_cmp(&self, other: &Self) -> Option<Ordering> {
        Some(self.cmp(other))
    }
}

impl Ord for KeyCode {
    ghost cmp = { λ s t. slice_cmp nat_cmp s t };

    ghost total = { nat_list_cmp_total };

    ghost matches_partial_cmp = { λ s t. refl };

    ghost matches_eq = { texts_ties };

    fn cmp(&self, other: &Self) -> Ordering {
        self.as_slice().cmp(&other.as_slice())
    }
}
