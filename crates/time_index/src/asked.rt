//! The rows of one channel that a selection asks for.
ghost use Rattle.std.specs.Prelude.{◌≡◌, ◌&&◌, true, IsTrue};
ghost use Rattle.dataselect.specs.Query.{is_named, is_selected};
ghost use Rattle.time_index.specs.Wholes.{SeesAll};
ghost use Rattle.time_index.specs.Windows.{is_of_quality, passes_by};

use channel_globs::Nslc;
use dataselect::{DataQuery, Selection, Sight};
use mseed_header::{Header, Row};

/// How the rows of a channel that a selection of a query names are tested. What holds of all of them is asked
/// for no row: that the codes match, and that the channel is seen whole, where it is.
#[derive(Drop)]
pub struct Asked<'a, V: Sight> {
    pub sight: &'a V,
    pub query: &'a DataQuery,
    pub selection: &'a Selection,
    pub name: &'a Nslc,
    /// Whether all rows of the channel are seen, as far as the sight tells.
    pub whole: bool,
    ghost named: { is_named selection.now name.now ≡ true },
    ghost seen: { IsTrue whole → SeesAll (V.seen sight.now) name.now },
}

impl<'a, V: Sight> Asked<'a, V> {
    // Whether a row of the channel is seen.
    fn sees(&self, row: &Row) -> bool
        requires of_it { row.now.header.name ≡ self.now.name.now }
        ensures { result ≡ V.seen self.now.sight.now row.now }
    {
        self.whole || self.sight.sees(row)
    }

    // Whether the selection of the query asks for a record of the channel.
    fn asks(&self, header: &Header) -> bool
        requires of_it { header.now.name ≡ self.now.name.now }
        ensures { result ≡ (is_of_quality self.now.query.now header.now && is_selected self.now.selection.now header.now) }
    {
        self.query.has_quality(header) && self.selection.meets(header)
    }

    /// Whether a row of the channel is seen, and the selection of the query asks for it.
    pub fn has(&self, row: &Row) -> bool
        requires of_it { row.now.header.name ≡ self.now.name.now }
        ensures { result ≡ passes_by (V.seen self.now.sight.now) self.now.query.now self.now.selection.now row.now }
    {
        self.sees(row) && self.asks(&row.header)
    }
}
