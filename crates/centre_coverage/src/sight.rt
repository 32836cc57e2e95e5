//! The rows that are held, of those that have arrived.
ghost use Rattle.std.specs.Prelude.{false, not};
ghost use Rattle.access_digest.specs.Access.{is_withdrawn};

use access_digest::withdrawn;
use channel_globs::Nslc;
use dataselect::Sight;
use epoch_catalog::Catalog;
use mseed_header::Row;

/// Sees the rows that no live withdrawal of the catalog covers.
#[derive(Clone, Copy)]
pub(crate) struct NotWithdrawn<'a> {
    pub(crate) catalog: &'a Catalog,
}

impl Sight for NotWithdrawn<'_> {
    ghost seen = { λ sight row. not (is_withdrawn sight.catalog.now row) };

    ghost touched = { λ _ _. false };

    fn sees(&self, row: &Row) -> bool {
        !withdrawn(self.catalog, row)
    }

    fn restricted(&self, _row: &Row) -> bool {
        false
    }

    fn whole(&self, _name: &Nslc) -> bool {
        false
    }
}
