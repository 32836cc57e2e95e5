//! Two places beside a writer of real copies.
ghost use Rattle.std.specs.Prelude.{◌≡◌, ◌++◌, ◌∷◌, [], drop, List};
ghost use Rattle.archive_entry.specs.declared.entry.Entry.{Entry};

use super::{Making, entry};
use archive_entry::{Entry, Kind};
use archive_history::{Front, Naming, Opened};
use archive_state::{Admit, Limits, State, founding_entry};
use desk_words::{Outcome, Question, Wanted, outcome};
use exact_time::OutOfMemory;
use query_words::{data_get, station_get};
use sample_data::{EPOCHS, HA1, NOW, SECRET, USERS, anmo_record};
use std::alloc::Global;
use std::marker::Brand;
use std::process::Abort;
use std::sync::Wait;
use std::sync::ledger::{Blank, Ledger};
use std::test::Fail;
use two_copies::{Carries, CopyWriter, HeldState, Place, Shares, Step, publish};

fn asking(wanted: Wanted) -> Question {
    Question {
        wanted,
        credentials: None,
        least: 0,
        moment: NOW,
    }
}

// Whether a copy answers with a body. A state that absorbed the same entries answers so, too.
fn answered_alike(
    rt: &impl Abort,
    alloc: Global,
    copy: &State,
    state: &State,
    question: &Question,
) -> Result<bool, OutOfMemory> {
    let told = outcome(alloc, copy, question, &SECRET, &Limits::FULL)?;
    let other = outcome(alloc, state, question, &SECRET, &Limits::FULL)?;
    match (told, other) {
        (Outcome::Body(told), Outcome::Body(other)) => {
            assert_eq!(rt; told.as_slice(), other.as_slice());
            Ok(true)
        }
        (Outcome::Empty, Outcome::Empty) => Ok(false),
        _ => panic!(rt; "answered otherwise"),
    }
}

// For records, for stations, and for nothing.
#[derive(Drop)]
struct Asked {
    records: Question,
    stations: Question,
    nothing: Question,
}

// Whether a copy answers with records, and with stations. A new state that absorbs its entries answers so, too.
fn bodies_of<J: Naming, T: Carries<J>>(
    rt: &impl Abort,
    alloc: Global,
    copy: &T,
    asked: &Asked,
) -> Result<(bool, bool), OutOfMemory> {
    let held: HeldState<J> = HeldState::of(alloc, copy.state().entries(), &copy.front())?;
    let (copy, state) = (copy.state(), held.state());
    Ok((
        answered_alike(rt, alloc, copy, state, &asked.records)?,
        answered_alike(rt, alloc, copy, state, &asked.stations)?,
    ))
}

// Shows a step, which follows what is shown.
fn show<J: Naming, T: Carries<J> + Drop, R: Wait + Abort>(
    rt: &R,
    writer: CopyWriter<J, T>,
    step: Step<J>,
    latest: &Front<J>,
) -> CopyWriter<J, T>
    requires law { (h : List Entry) (e : Entry) → T.applied h (h, e) ≡ h ++ e ∷ [] }
    requires flushed { drop writer.behind writer.log.items ≡ [] }
    requires next { T.state writer.desk.shown.value ≡ step.0 }
    requires latest { latest.now ≡ step.0 ++ step.1 ∷ [] }
    ensures flushed { drop result.behind result.log.items ≡ [] }
{
    let mut writer = writer;
    let Ok(()) = writer.append(step) else {
        panic!(rt; "no memory")
    };
    let (writer, shown) = publish(rt, writer, latest);
    let Ok(()) = shown else {
        panic!(rt; "no memory")
    };
    writer
}

// Shows the entry that comes next.
fn show_next<J: Naming, T: Carries<J> + Drop, R: Wait + Abort>(
    rt: &R,
    making: &mut Making<J>,
    writer: CopyWriter<J, T>,
    entry: Entry,
) -> CopyWriter<J, T>
    requires law { (h : List Entry) (e : Entry) → T.applied h (h, e) ≡ h ++ e ∷ [] }
    requires flushed { drop writer.behind writer.log.items ≡ [] }
    ensures flushed { drop result.behind result.log.items ≡ [] }
{
    let Ok(Some(step)) = making.step(entry) else {
        panic!(rt; "not the next entry")
    };
    if !writer.published().front().same_as(step.before()) {
        panic!(rt; "not what is shown");
    }
    let latest = step.after().again();
    show(rt, writer, step, &latest)
}

// Who looks sees all that is shown, and who doesn't what was seen before; both see it all once they have reached it.
fn both_see<J: Naming, T: Carries<J> + Drop, L: Ledger, S: Ledger, R: Wait + Abort>(
    rt: &R,
    alloc: Global,
    told: &Front<J>,
    one: &mut Place<J, T, L, S>,
    two: &mut Place<J, T, L, S>,
    asked: &Asked,
    before: u64,
) -> Result<(), OutOfMemory> {
    let all = told.count();
    assert_eq!(rt; (one.front.count(), two.front.count()), (before, before));
    one.look();
    assert_eq!(rt; (one.front.count(), two.front.count()), (all, before));
    let answer = one.ask(alloc, &asked.nothing, &SECRET, &Limits::FULL)?;
    assert_eq!(rt; answer.front, all);
    one.reach(rt, told);
    two.reach(rt, told);
    two.look();
    assert_eq!(rt; (one.front.count(), two.front.count()), (all, all));
    Ok(())
}

// The next entry is shown to both, who have seen so many; then there are records and stations, or not.
fn turn<J: Naming, T: Carries<J> + Drop, L: Ledger, S: Ledger, R: Wait + Abort>(
    rt: &R,
    alloc: Global,
    making: &mut Making<J>,
    writer: CopyWriter<J, T>,
    one: &mut Place<J, T, L, S>,
    two: &mut Place<J, T, L, S>,
    asked: &Asked,
    entry: Entry,
    before: u64,
    bodies: (bool, bool),
) -> CopyWriter<J, T>
    requires law { (h : List Entry) (e : Entry) → T.applied h (h, e) ≡ h ++ e ∷ [] }
    requires flushed { drop writer.behind writer.log.items ≡ [] }
    ensures flushed { drop result.behind result.log.items ≡ [] }
{
    let writer = show_next(rt, making, writer, entry);
    let told = writer.published().front();
    assert!(rt; both_see(rt, alloc, &told, one, two, asked, before).is_ok());
    assert_eq!(rt;
        bodies_of(rt, alloc, writer.published(), asked).ok(),
        Some(bodies)
    );
    writer
}

// Four entries are shown to two places, one after another.
fn turns<J: Naming, T: Carries<J> + Drop, L: Ledger, S: Ledger, R: Wait + Abort>(
    rt: &R,
    alloc: Global,
    making: &mut Making<J>,
    writer: CopyWriter<J, T>,
    one: &mut Place<J, T, L, S>,
    two: &mut Place<J, T, L, S>,
    asked: &Asked,
    entries: [Entry; 4],
)
    requires law { (h : List Entry) (e : Entry) → T.applied h (h, e) ≡ h ++ e ∷ [] }
    requires flushed { drop writer.behind writer.log.items ≡ [] }
{
    let [first, second, third, fourth] = entries;
    let writer = turn(
        rt,
        alloc,
        making,
        writer,
        one,
        two,
        asked,
        first,
        0,
        (false, false),
    );
    let writer = turn(
        rt,
        alloc,
        making,
        writer,
        one,
        two,
        asked,
        second,
        1,
        (false, false),
    );
    let writer = turn(
        rt,
        alloc,
        making,
        writer,
        one,
        two,
        asked,
        third,
        2,
        (true, false),
    );
    let writer = turn(
        rt,
        alloc,
        making,
        writer,
        one,
        two,
        asked,
        fourth,
        3,
        (true, true),
    );
    writer.take(rt);
}

// The same, to two new places.
fn followed<J: Naming, T: Carries<J> + Drop, L: Ledger, S: Ledger, R: Wait + Abort>(
    rt: &R,
    alloc: Global,
    making: &mut Making<J>,
    copies: (T, T),
    asked: &Asked,
    entries: [Entry; 4],
    made: Blank,
    halts: Blank,
)
    requires law { (h : List Entry) (e : Entry) → T.applied h (h, e) ≡ h ++ e ∷ [] }
    requires none { (making.old.latest ≡ []) × (T.state copies.0 ≡ []) × (T.state copies.1 ≡ []) }
    requires made { (made.name ≡ L.name) × (made.parts ≡ L.parts) × (L.parts ≡ 2) }
    requires halts { (halts.name ≡ S.name) × (halts.parts ≡ S.parts) × (S.parts ≡ 2) }
{
    let none = making.latest.again();
    let (_made, mut made) = made.open::<L>();
    let (_halts, mut halts) = halts.open::<S>();
    let Ok(writer) = CopyWriter::<J, T>::new(alloc, copies.0, copies.1, 2) else {
        panic!(rt; "no memory")
    };
    let shares = Shares::new(made.split_off(1, 0), halts.split_off(1, 0));
    let Some(one) = Place::new(&writer, &none, &none, shares) else {
        panic!(rt; "no place")
    };
    let shares = Shares::new(made.split_off(1, 0), halts.split_off(1, 0));
    let Some(two) = Place::new(&writer, &none, &none, shares) else {
        panic!(rt; "no place")
    };
    let mut one: Place<J, T, L, S> = one;
    let mut two: Place<J, T, L, S> = two;
    turns(
        rt, alloc, making, writer, &mut one, &mut two, asked, entries,
    );
}

// The same, with two copies of no entries.
fn followed_from_none<J: Naming, L: Ledger, S: Ledger, R: Wait + Abort>(
    rt: &R,
    alloc: Global,
    opened: Opened,
    asked: &Asked,
    entries: [Entry; 4],
    made: Blank,
    halts: Blank,
) -> Result<(), Fail>
    requires book { opened ≡ J.book }
    requires made { (made.name ≡ L.name) × (made.parts ≡ L.parts) × (L.parts ≡ 2) }
    requires halts { (halts.name ≡ S.name) × (halts.parts ≡ S.parts) × (S.parts ≡ 2) }
{
    let (book, none) = opened.named::<J>();
    let first: HeldState<J> = HeldState::of(alloc, &[], &none)?;
    let second: HeldState<J> = HeldState::of(alloc, &[], &none)?;
    let mut making = Making {
        book,
        admit: Admit::new(alloc),
        latest: none,
    };
    followed::<J, HeldState<J>, L, S, R>(
        rt,
        alloc,
        &mut making,
        (first, second),
        asked,
        entries,
        made,
        halts,
    );
    Ok(())
}

#[test]
fn places_see_what_is_shown(rt: HostRuntime) -> Result<(), Fail> {
    let alloc: Global = rt.alloc();
    let entries = [
        founding_entry(alloc, "op", HA1)?,
        entry(alloc, 2, "op", 1, Kind::Revise, USERS.as_bytes())?,
        entry(alloc, 3, "feed1", 1, Kind::Batch, &anmo_record())?,
        entry(alloc, 4, "op", 2, Kind::Revise, EPOCHS.as_bytes())?,
    ];
    let asked = Asked {
        records: asking(Wanted::Waves(data_get(alloc, b"net=IU")?)),
        stations: asking(Wanted::Station(station_get(alloc, b"net=IU")?)),
        nothing: asking(Wanted::Nothing),
    };
    followed_from_none::<Brand, Brand, Brand, _>(
        &rt,
        alloc,
        Opened::new(),
        &asked,
        entries,
        Blank::new(2),
        Blank::new(2),
    )
}
