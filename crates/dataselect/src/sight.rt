//! What a caller sees of the rows.
ghost use Rattle.std.specs.Prelude.{◌≡◌, Bool, true, false, IsTrue};
ghost use Rattle.channel_globs.specs.declared.nslc.Nslc.{Nslc};
ghost use Rattle.mseed_header.specs.declared.row.Row.{Row};

use channel_globs::Nslc;
use mseed_header::Row;

/// A fixed rule on rows.
pub trait Sight {
    /// Whether a row is seen.
    ghost seen: { Self → Row → Bool };

    /// Whether a row is marked as restricted.
    ghost touched: { Self → Row → Bool };

    /// Whether the row is seen.
    fn sees(&self, row: &Row) -> bool
        ensures { result ≡ seen self.now row.now };

    /// Whether a restriction touches the row.
    fn restricted(&self, row: &Row) -> bool
        ensures { result ≡ touched self.now row.now };

    /// True only where every row of that name is seen and none is restricted.
    fn whole(&self, name: &Nslc) -> bool
        ensures { IsTrue result → (row : Row) → row.header.name ≡ name.now
            → (seen self.now row ≡ true) × (touched self.now row ≡ false) };
}

/// Sees every row, and finds none restricted.
#[derive(Clone, Copy, Debug)]
pub struct All;

impl Sight for All {
    ghost seen = { λ _ _. true };

    ghost touched = { λ _ _. false };

    fn sees(&self, row: &Row) -> bool {
        !self.restricted(row)
    }

    fn restricted(&self, _row: &Row) -> bool {
        false
    }

    fn whole(&self, _name: &Nslc) -> bool
        ensures { result ≡ true }
    {
        true
    }
}
