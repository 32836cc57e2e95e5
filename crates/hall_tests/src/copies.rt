//! Copies of real states, and places beside their writer, in one thread.
ghost use Rattle.std.specs.Prelude.{◌≡◌};
ghost use Rattle.archive_state.specs.Admits.{IsAdmit};

use archive_entry::{Entry, Kind};
use archive_history::{Book, Front, Naming, Opened};
use archive_state::{Admit, founding_entry};
use dataselect::Shelf;
use exact_time::{Bytes, Moment, OutOfMemory, Text};
use left_right::Absorb;
use sample_data::{HA1, USERS, anmo_record};
use std::alloc::Global;
use std::marker::Brand;
use std::process::Abort;
use std::test::Fail;
use two_copies::{Carries, HeldState, Step};

mod places;

fn entry(
    alloc: Global,
    number: u64,
    author: &str,
    seq: u64,
    kind: Kind,
    body: &[u8],
) -> Result<Entry, Fail> {
    let mut name = Text::new(alloc);
    name.push(author)?;
    let mut bytes = Bytes::new(alloc);
    bytes.extend(body)?;
    Ok(Entry {
        number,
        moment: Moment { micros: 0 },
        author: name,
        seq,
        kind,
        body: bytes,
    })
}

// A history in the making.
#[derive(Drop)]
struct Making<J: Naming> {
    book: Book<J>,
    admit: Admit,
    latest: Front<J>,
    ghost stands: { IsAdmit admit latest },
}

impl<J: Naming> Making<J> {
    // The step of an entry that comes next, and the history with it.
    fn step(&mut self, entry: Entry) -> Result<Option<Step<J>>, OutOfMemory> {
        if !self.admit.next_lawful(&entry)? {
            return Ok(None);
        }
        let before = self.latest.again();
        let mut after = before.again();
        if !after.add(&self.book, &entry) {
            return Ok(None);
        }
        let Making { admit, latest, .. } = self;
        admit.note(&entry)?;
        *latest = after.again();
        Ok(Some(Step::of(entry, before, after)))
    }
}

// Each step is taken once, and only behind the history that it follows; the copy then has what a state has that took in
// the same entries.
fn taken_once<J: Naming>(
    rt: &impl Abort,
    alloc: Global,
    opened: Opened,
    entries: [Entry; 3],
) -> Result<(), Fail>
    requires { opened ≡ J.book }
{
    let (book, none) = opened.named::<J>();
    let mut copy: HeldState<J> = HeldState::of(alloc, &[], &none)?;
    let mut late: HeldState<J> = HeldState::of(alloc, &[], &none)?;
    let other: HeldState<J> = HeldState::of(alloc, &[], &none)?;
    let mut making = Making {
        book,
        admit: Admit::new(alloc),
        latest: none,
    };
    let [first, second, third] = entries;
    let first = making.step(first)?.ok_or("the first entry comes next")?;
    let second = making.step(second)?.ok_or("the second entry comes next")?;
    let third = making.step(third)?.ok_or("the third entry comes next")?;
    copy.absorb_first(&first, &other)?;
    copy.absorb_first(&third, &other)?;
    assert_eq!(rt; copy.front().count(), 1, "a step out of order");
    copy.absorb_first(&second, &other)?;
    copy.absorb_first(&second, &other)?;
    assert_eq!(rt; copy.front().count(), 2, "a step twice");
    copy.absorb_first(&third, &other)?;
    late.absorb_first(&third, &other)?;
    assert_eq!(rt; (copy.front().count(), late.front().count()), (3, 0));
    assert_eq!(rt; copy.state().entries().len(), 3);
    assert_eq!(rt; copy.state().shelf().len(), 1);
    Ok(())
}

#[test]
fn a_copy_takes_each_entry_once_and_in_order(rt: HostRuntime) -> Result<(), Fail> {
    let alloc: Global = rt.alloc();
    let entries = [
        founding_entry(alloc, "op", HA1)?,
        entry(alloc, 2, "op", 1, Kind::Revise, USERS.as_bytes())?,
        entry(alloc, 3, "feed1", 1, Kind::Batch, &anmo_record())?,
    ];
    taken_once::<Brand>(&rt, alloc, Opened::new(), entries)
}
