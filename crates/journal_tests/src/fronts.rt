//! Tokens of one history in one thread.
ghost use Rattle.std.specs.Prelude.{◌≡◌, [], true};
ghost use Rattle.archive_state.specs.Lawful.{is_next};

use archive_entry::Entry;
use archive_history::{Front, Naming, Opened};
use archive_state::founding_entry;
use sample_data::HA1;
use std::marker::Brand;
use std::process::Abort;
use std::test::Fail;

// A token of before and one of after: the second goes past the first, which can't be added to any more.
fn one_goes_past_the_other<J: Naming>(rt: &impl Abort, opened: Opened, entry: &Entry)
    requires book { opened ≡ J.book }
    requires first { is_next [] entry.now ≡ true }
{
    let (book, mut after) = opened.named::<J>();
    let mut before = after.again();
    assert!(rt; after.same_as(&before));
    assert!(rt; after.add(&book, entry));
    assert_eq!(rt; (before.count(), after.count()), (0, 1));
    assert!(rt; after.covers(&before) && !before.covers(&after));
    assert_eq!(rt; before.longer(&after).count(), 1);
    assert_eq!(rt; after.longer(&before).count(), 1);
    assert!(rt; !before.add(&book, entry));
    assert!(rt; before.same_as(&after));
}

#[test]
fn a_token_tells_what_it_has_seen(rt: HostRuntime) -> Result<(), Fail> {
    let entry = founding_entry(rt.alloc(), "op", HA1)?;
    one_goes_past_the_other::<Brand>(&rt, Opened::new(), &entry);
    Ok(())
}
