//! What one caller sees of the rows.
ghost use Rattle.std.specs.Prelude.{◌≡◌, true, false, IsTrue, option_map};
ghost use Rattle.mseed_header.specs.declared.row.Row.{Row};
ghost use Rattle.access_digest.specs.Access.{is_seen, is_touched, is_whole};

use crate::access::{is_touched, may};
use crate::withdrawals::{is_whole, withdrawn};
use channel_globs::Nslc;
use dataselect::Sight;
use epoch_catalog::Catalog;
use epochs::User;
use mseed_header::Row;

/// What a caller sees under the live lines: the rows that it may have and that no live withdrawal covers, each
/// marked where a live restriction touches it.
#[derive(Clone, Copy)]
pub struct Pass<'a> {
    pub catalog: &'a Catalog,
    /// Who asks; None without a user.
    pub user: Option<&'a User>,
}

impl Sight for Pass<'_> {
    ghost seen = { λ pass row. is_seen pass.catalog.now (option_map (λ u. u.now.name) pass.user) row };

    ghost touched = { λ pass row. is_touched pass.catalog.now row };

    fn sees(&self, row: &Row) -> bool {
        may(self.catalog, self.user, row) && !withdrawn(self.catalog, row)
    }

    fn restricted(&self, row: &Row) -> bool {
        is_touched(self.catalog, row)
    }

    /// Exactly where the patterns of no live restriction and of no live withdrawal match the name.
    fn whole(&self, name: &Nslc) -> bool
        ensures exact { result ≡ is_whole self.now.catalog.now name.now }
        ensures whole { IsTrue result → (row : Row) → row.header.name ≡ name.now
            → (is_seen self.now.catalog.now (option_map (λ u. u.now.name) self.now.user) row ≡ true)
            × (is_touched self.now.catalog.now row ≡ false) }
    {
        is_whole(self.catalog, name)
    }
}
