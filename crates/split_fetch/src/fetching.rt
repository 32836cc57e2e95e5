//! Asks a data centre for a window over the links of a port, in parts where it must.
ghost use Rattle.std.specs.Prelude.{◌≡◌, [], ◌∷◌, reverse, IfSome, MatchResult, is_none, true};
ghost use Rattle.split_fetch.specs.Fetching.{IsFetched, FetchRefuses, AreAccepted, GivesBytes, EndsAs};
ghost use Rattle.split_fetch.specs.Rounds.{first_of_todo};
ghost use Rattle.split_fetch.specs.Targets.{AreLists, CanBeAsked};

use crate::asked::Codes;
use crate::asking::ask;
use crate::fault::GatherFault;
use crate::gathering::gather_owned;
use crate::heard::Outcome;
use crate::plan::{Plan, Step};
use crate::window::Window;
use exact_time::{Bytes, Failed, OutOfMemory};
use link_ports::Port;
use std::alloc::Global;
use std::error::Error;
use std::fmt;

/// Why a window wasn't fetched.
#[derive(Clone, Copy, Debug, PartialEq, Eq)]
pub enum FetchFault {
    /// The eighth round ended at a lost connection.
    Lost,
    /// The eighth round's answers had these fronts in neighbours.
    Moved(u64, u64),
    /// A round had 10,000 requests, and a window was left.
    Requests,
    /// The port gave no further link.
    NoLink,
    /// The port failed, and counted it.
    PortFault,
    /// The data centre answered this status: neither 200 nor 204, nor a 413 for a window of more than one moment.
    Peer(u16),
    /// No reply, one without a front, or one whose body isn't records.
    BadReply,
    /// The records have this many bytes, more than 268,435,456.
    TooLarge(u64),
    OutOfMemory,
}

impl fmt::Display for FetchFault {
    fn fmt<W: fmt::Write>(&self, f: &mut fmt::Formatter<W>) -> fmt::Result {
        match self {
            FetchFault::Lost => f.write_str("connection lost"),
            FetchFault::Moved(before, after) => write!(f, "front moved from {before} to {after}"),
            FetchFault::Requests => f.write_str("too many requests"),
            FetchFault::NoLink => f.write_str("no more links"),
            FetchFault::PortFault => f.write_str("port fault"),
            FetchFault::Peer(status) => write!(f, "peer answered {status}"),
            FetchFault::BadReply => f.write_str("bad reply"),
            FetchFault::TooLarge(bytes) => write!(f, "{bytes} bytes are too many"),
            FetchFault::OutOfMemory => f.write_str("out of memory"),
        }
    }
}

impl Error for FetchFault {}

// The window that is asked next: the last one.
fn next_of(todo: &[Window]) -> Option<Window>
    ensures some { IfSome result (λ window. first_of_todo (reverse todo.now) ≡ window ∷ []) }
    ensures none { is_none result ≡ true → todo.now ≡ [] }
{
    match todo.last() {
        Some(window) => Some(*window),
        None => None,
    }
}

// What comes of how asking ended.
fn ended(alloc: Global, outcome: Outcome) -> Result<Bytes, FetchFault>
    requires { AreAccepted outcome }
    ensures { MatchResult result (GivesBytes outcome) (EndsAs outcome) }
{
    match outcome {
        Outcome::Done(answers) => match gather_owned(alloc, answers) {
            Ok(bytes) => Ok(bytes),
            Err(GatherFault::Moved(before, after)) => Err(FetchFault::Moved(before, after)),
            Err(GatherFault::TooLarge(bytes)) => Err(FetchFault::TooLarge(bytes)),
            Err(GatherFault::OutOfMemory) => Err(FetchFault::OutOfMemory),
        },
        Outcome::Lost => Err(FetchFault::Lost),
        Outcome::Moved(before, after) => Err(FetchFault::Moved(before, after)),
        Outcome::Requests => Err(FetchFault::Requests),
        Outcome::Peer(status) => Err(FetchFault::Peer(status)),
        Outcome::BadReply => Err(FetchFault::BadReply),
    }
}

/// Fetches a window from a data centre: asks for it by one request on each link of the port, in two halves where it has too much
/// for one answer, and puts the answers together. Each link is given back.
///
/// A connection that is lost, and fronts that moved, begin a new round, of eight at most; a round has 10,000 requests at most. The
/// records are held in memory until all have come.
pub fn fetch<P: Port>(
    alloc: Global,
    port: &mut P,
    codes: &Codes,
    window: Window,
) -> Result<Bytes, FetchFault>
    requires lists { AreLists codes.now }
    requires window { CanBeAsked window }
    ensures { MatchResult result (IsFetched codes.now window (P.view port.old) (P.view port.new)) (FetchRefuses codes.now window (P.view port.old) (P.view port.new)) }
{
    let mut plan = match Plan::begin(alloc, window) {
        Ok(plan) => plan,
        Err(OutOfMemory) => return Err(FetchFault::OutOfMemory),
    };
    'asks: loop {
        let Some(next) = next_of(plan.todo.as_slice()) else {
            unreachable!()
        };
        let mut link = match port.accept() {
            Ok(Some(link)) => link,
            Ok(None) => return Err(FetchFault::NoLink),
            Err(Failed) => return Err(FetchFault::PortFault),
        };
        let heard = ask(alloc, &mut link, codes, &next);
        port.give_back(link, &[]);
        let heard = match heard {
            Ok(heard) => heard,
            Err(OutOfMemory) => return Err(FetchFault::OutOfMemory),
        };
        match plan.after(heard) {
            Ok(Step::Goes(further)) => plan = further,
            Ok(Step::Ends(outcome)) => return ended(alloc, outcome),
            Err(OutOfMemory) => return Err(FetchFault::OutOfMemory),
        }
    }
}
