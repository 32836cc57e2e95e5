//! The target of a query for one window.
ghost use Rattle.std.specs.Prelude.{◌≡◌, IfOk, IfSome};
ghost use Rattle.split_fetch.specs.Targets.{IsList, AreLists};

use channel_globs::{Part, PatternList};
use exact_time::{Bytes, Moment, OutOfMemory, Text};
use split_fetch::{Codes, Window, target_of};
use std::alloc::Global;
use std::test::Fail;

// A copy of the text.
fn text(alloc: Global, piece: &str) -> Result<Text, OutOfMemory>
    ensures { IfOk result (λ copy. copy ≡ piece.now) }
{
    let mut copy = Text::new(alloc);
    copy.push(piece)?;
    Ok(copy)
}

// The text, if it is a list of patterns.
fn list(alloc: Global, piece: &str, part: Part) -> Option<Text>
    ensures { IfSome result (λ text. IsList part text) }
{
    let Ok(_patterns) = PatternList::read(alloc, piece.as_bytes(), part) else {
        return None;
    };
    match text(alloc, piece) {
        Ok(copy) => Some(copy),
        Err(OutOfMemory) => None,
    }
}

/// The codes, if each is a list of patterns.
pub fn codes(alloc: Global, channel: &str) -> Option<Codes>
    ensures { IfSome result AreLists }
{
    Some(Codes {
        network: list(alloc, "IU", Part::Network)?,
        station: list(alloc, "ANMO", Part::Station)?,
        location: list(alloc, "--", Part::Location)?,
        channel: list(alloc, channel, Part::Channel)?,
    })
}

// The target for the first seven and a half seconds of 2024-02-01.
fn target(alloc: Global, channel: &str) -> Option<Bytes> {
    let codes = codes(alloc, channel)?;
    let window = Window {
        start: Moment {
            micros: 1_706_745_600_000_000,
        },
        end: Moment {
            micros: 1_706_745_607_500_000,
        },
    };
    target_of(alloc, &codes, &window).ok()
}

#[test]
fn writes_a_target(rt: HostRuntime) -> Result<(), Fail> {
    let wanted = b"/fdsnws/dataselect/1/query?net=IU&sta=ANMO&loc=--&cha=BH%3F%2CLHZ\
        &start=2024-02-01T00%3A00%3A00.000000&end=2024-02-01T00%3A00%3A07.500000";
    let Some(written) = target(rt.alloc(), "BH?,LHZ") else {
        panic!(rt; "no target");
    };
    assert_eq!(rt; written.as_slice(), wanted.as_slice());
    Ok(())
}
