//! The spots of each channel.
ghost use Rattle.std.specs.Prelude.{◌≡◌, false, ◌||◌, ◌&&◌, max, if◌then◌else◌, OnOk, OnErr, IfOk, None};
ghost use Rattle.std.specs.Ordering.{eq_by_cmp};
ghost use Rattle.std.specs.BTreeMap.{get};
ghost use Rattle.std.specs.BTreeSet.{contains};
ghost use Rattle.channel_globs.specs.declared.nslc.Nslc.{Nslc};
ghost use Rattle.channel_globs.specs.Names.{name_cmp};
ghost use Rattle.time_index.specs.declared.spot.Spot.{Spot};
ghost use Rattle.time_index.specs.Spots.{spot_cmp, is_same, has_spot, longest_of};

use crate::spot::Spot;
use channel_globs::Nslc;
use exact_time::OutOfMemory;
use std::alloc::Global;
use std::collections::{BTreeMap, BTreeSet};

/// The rows of one channel.
#[derive(Drop)]
pub struct Channel {
    pub spots: BTreeSet<Spot>,
    /// No row lasts longer from its first sample to its last, in microseconds.
    pub longest: u128,
}

fn new_channel(alloc: Global, spot: Spot, longest: u128) -> Result<Channel, OutOfMemory>
    ensures spots { IfOk result (λ c. (q : Spot) → contains spot_cmp c.spots q ≡ eq_by_cmp spot_cmp q spot) }
    ensures longest { IfOk result (λ c. c.longest ≡ longest) }
{
    let mut spots = BTreeSet::new(alloc);
    spots.insert(spot)?;
    Ok(Channel { spots, longest })
}

fn add_to(channel: &mut Channel, spot: Spot, longest: u128) -> Result<(), OutOfMemory>
    ensures spots { OnOk result ((q : Spot) → contains spot_cmp channel.new.spots q ≡ (eq_by_cmp spot_cmp q spot || contains spot_cmp channel.old.spots q)) }
    ensures longest { OnOk result (channel.new.longest ≡ max channel.old.longest longest) }
    ensures err_spots { OnErr result (channel.new.spots.keys ≡ channel.old.spots.keys) }
    ensures err_longest { OnErr result (channel.new.longest ≡ channel.old.longest) }
{
    channel.spots.insert(spot)?;
    channel.longest = channel.longest.max(longest);
    Ok(())
}

// Adds a channel with one spot.
fn begin(
    alloc: Global,
    channels: &mut BTreeMap<Nslc, Channel>,
    name: Nslc,
    spot: Spot,
    longest: u128,
) -> Result<(), OutOfMemory>
    requires absent { get name_cmp channels.old name ≡ None }
    ensures spots { OnOk result ((n : Nslc) (q : Spot) → has_spot channels.new n q ≡ ((is_same name n && eq_by_cmp spot_cmp q spot) || has_spot channels.old n q)) }
    ensures longest { OnOk result ((n : Nslc) → longest_of channels.new n ≡ (if is_same name n then max (longest_of channels.old n) longest else longest_of channels.old n)) }
    ensures err_spots { OnErr result ((n : Nslc) (q : Spot) → has_spot channels.new n q ≡ has_spot channels.old n q) }
    ensures err_longest { OnErr result ((n : Nslc) → longest_of channels.new n ≡ longest_of channels.old n) }
{
    let channel = new_channel(alloc, spot, longest)?;
    channels.insert(name, channel)?;
    Ok(())
}

/// Adds a spot to the channel of that name, which may be new.
pub fn add_spot(
    alloc: Global,
    channels: &mut BTreeMap<Nslc, Channel>,
    name: Nslc,
    spot: Spot,
    longest: u128,
) -> Result<(), OutOfMemory>
    ensures spots { OnOk result ((n : Nslc) (q : Spot) → has_spot channels.new n q ≡ ((is_same name n && eq_by_cmp spot_cmp q spot) || has_spot channels.old n q)) }
    ensures longest { OnOk result ((n : Nslc) → longest_of channels.new n ≡ (if is_same name n then max (longest_of channels.old n) longest else longest_of channels.old n)) }
    ensures err_spots { OnErr result ((n : Nslc) (q : Spot) → has_spot channels.new n q ≡ has_spot channels.old n q) }
    ensures err_longest { OnErr result ((n : Nslc) → longest_of channels.new n ≡ longest_of channels.old n) }
{
    if let Some(channel) = channels.get_mut(&name) {
        add_to(channel, spot, longest)?;
        return Ok(());
    }
    begin(alloc, channels, name, spot, longest)
}

/// Takes a spot out of the channel of that name. The channel stays, and may be empty; how long its rows last
/// at most stays too, since it is a limit.
pub fn remove_spot(channels: &mut BTreeMap<Nslc, Channel>, name: &Nslc, spot: Spot)
    ensures spots { (n : Nslc) (q : Spot) → has_spot channels.new n q ≡ (if is_same name.now n && eq_by_cmp spot_cmp q spot then false else has_spot channels.old n q) }
    ensures longest { (n : Nslc) → longest_of channels.new n ≡ longest_of channels.old n }
{
    if !channels.contains_key(name) {
        return;
    }
    if let Some(channel) = channels.get_mut(name) {
        channel.spots.remove(&spot);
    }
}
