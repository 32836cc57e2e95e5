//! Ends put into a set for good, or none of them.
ghost use Rattle.std.specs.Prelude.{◌≡◌, ◌||◌, ◌&&◌, Bool, false, not, IfOk, OnOk, OnErr};
ghost use Rattle.std.specs.List.{list_any};
ghost use Rattle.std.specs.Ordering.{is_eq};
ghost use Rattle.epoch_rules.specs.Endings.{EndingParts, parts_of_ending, ending_cmp, has_end, KeepsEnds};
ghost use Rattle.epoch_rules.specs.EndsOver.{is_end_in, has_left};

use crate::endings::Ending;
use exact_time::OutOfMemory;
use std::alloc::Global;
use std::collections::BTreeSet;

/// Those of some ends that aren't among others.
pub fn ends_apart(
    alloc: Global,
    ends: &BTreeSet<Ending>,
    others: &BTreeSet<Ending>,
) -> Result<Vec<Ending>, OutOfMemory>
    ensures { IfOk result (λ apart. (test : EndingParts → Bool) → list_any (λ q. test (parts_of_ending q)) apart.items ≡ has_left others.now ends.now test) }
{
    let mut apart = Vec::new(alloc);
    'ends: for end in ends {
        if !others.contains(end) {
            apart.push(*end)?;
        }
    }
    Ok(apart)
}

/// Takes ends out, where they are there.
pub fn drop_ends(ends: &mut BTreeSet<Ending>, list: &[Ending])
    ensures { (test : EndingParts → Bool) → has_end ends.new test ≡ has_end ends.old (λ p. not (list_any (λ q. is_eq (ending_cmp p (parts_of_ending q))) list.now) && test p) }
{
    'ends: for end in list {
        ends.remove(end);
    }
}

/// Puts in ends that aren't there. Where memory is missing, those that were put in are taken out again.
pub fn put_ends(ends: &mut BTreeSet<Ending>, list: &[Ending]) -> Result<(), OutOfMemory>
    requires { list_any (λ q. is_end_in ends.old (parts_of_ending q)) list.now ≡ false }
    ensures ok { OnOk result ((test : EndingParts → Bool) → has_end ends.new test ≡ (has_end ends.old test || list_any (λ q. test (parts_of_ending q)) list.now)) }
    ensures err { OnErr result (KeepsEnds (has_end ends.old) (has_end ends.new)) }
{
    'ends: for (place, end) in list.iter().enumerate() {
        match ends.insert(*end) {
            Ok(_) => {}
            Err(_) => {
                drop_ends(ends, &list[..place]);
                return Err(OutOfMemory);
            }
        }
    }
    Ok(())
}
