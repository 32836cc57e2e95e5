//! What a sight says of whole channels.
ghost use Rattle.std.specs.Prelude.{◌≡◌, true, Some, IsTrue, IfOk};
ghost use Rattle.std.specs.BTreeMap.{get};
ghost use Rattle.channel_globs.specs.declared.nslc.Nslc.{Nslc};
ghost use Rattle.channel_globs.specs.Names.{name_cmp};
ghost use Rattle.dataselect.specs.Chosen.{passes};
ghost use Rattle.time_index.specs.Wholes.{SeesAll};

use channel_globs::Nslc;
use dataselect::{DataQuery, Sight};
use exact_time::OutOfMemory;
use mseed_header::Row;
use std::alloc::Global;
use std::collections::BTreeMap;

/// A sight that is asked once for each channel whether it sees all of it, and then for no row of it.
#[derive(Drop)]
pub struct Wholes<'a, V: Sight> {
    pub sight: &'a V,
    // Of the channels that were asked for, whether they are seen whole.
    names: BTreeMap<Nslc, bool>,
    ghost known: { (name : Nslc) → get name_cmp names name ≡ Some true → SeesAll (V.seen sight.now) name },
}

impl<'a, V: Sight> Wholes<'a, V> {
    /// No channel was asked for. Takes no memory.
    pub fn new(alloc: Global, sight: &'a V) -> Self
        ensures { result.sight.now ≡ sight.now }
    {
        Wholes {
            sight,
            names: BTreeMap::new(alloc),
        }
    }

    /// Whether the sight sees all rows of the channel, where it tells.
    pub fn is_whole(&mut self, name: &Nslc) -> Result<bool, OutOfMemory>
        ensures whole { IfOk result (λ whole. IsTrue whole → SeesAll (V.seen self.old.sight.now) name.now) }
        ensures sight { self.new.sight.now ≡ self.old.sight.now }
    {
        if let Some(whole) = self.names.get(name) {
            return Ok(*whole);
        }
        let whole = self.sight.whole(name);
        self.names.insert(*name, whole)?;
        Ok(whole)
    }

    // Whether the row is seen.
    fn sees(&mut self, row: &Row) -> Result<bool, OutOfMemory>
        ensures seen { IfOk result (λ seen. seen ≡ V.seen self.old.sight.now row.now) }
        ensures sight { self.new.sight.now ≡ self.old.sight.now }
    {
        Ok(self.is_whole(&row.header.name)? || self.sight.sees(row))
    }

    /// Whether the row is seen and asked for.
    pub fn is_asked_for(&mut self, query: &DataQuery, row: &Row) -> Result<bool, OutOfMemory>
        ensures chosen { IfOk result (λ chosen. chosen ≡ passes (V.seen self.old.sight.now) query.now row.now) }
        ensures sight { self.new.sight.now ≡ self.old.sight.now }
    {
        Ok(self.sees(row)? && query.asks(&row.header))
    }
}
