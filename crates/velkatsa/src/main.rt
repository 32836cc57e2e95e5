//! The program: its words, standard input, output and error, the archive's file, the time of day, 16 random bytes, the ports
//! of its workers, and [`centre::run`] over them. A worker whose port fails is told on standard error at once, and a port that
//! dials shows on a terminal how much has come.
//!
//! What those streams, that file, that clock and those ports give and take is not proved, since a real one tells nothing.
#![tactic(auto)]

ghost use Rattle.std.specs.Prelude.{◌≡◌, IfOk, length};

mod counting;

use crate::counting::{CountingPort, Progress};
use centre::{Outside, StdSink, StdSource, Worker, out_of_memory, outside_of, run};
use centre_session::RealClock;
use disk_model::FileDisk;
use exact_time::{Bytes, OutOfMemory};
use http_digest::Secret;
use link_ports::{PATIENCE, TcpPort, TellingPort};
use snapshot_hall::OpenGate;
use std::alloc::Global;
use std::fs::{File, Files};
use std::io::{IsTerminal, Read, Stderr};
use std::net::{Net, SocketAddr, TcpListener, TcpStream, ToSocketAddrs};
use std::process::ExitCode;
use std::rt::Env;
use std::time::{Clock, Duration};
use std::{env, io};
use streams::put_all;

// The status where there are no random bytes.
const NO_RANDOM_BYTES: u8 = 71;

// The words after the program's name.
fn words_after(rt: &(impl Env + AllocGlobal), alloc: Global) -> io::Result<Vec<String>> {
    let mut words: Vec<String> = env::args(rt)?.collect(alloc)?;
    if !words.is_empty() {
        words.remove(0);
    }
    Ok(words)
}

// The archive's file, if the words name one. It is opened at the first call.
fn disk_for<R: Files<File = File> + Drop>(
    files: R,
    alloc: Global,
    outside: &Outside,
) -> Result<FileDisk<R>, OutOfMemory> {
    let path = match &outside.journal {
        Some(path) => Some(String::from_str(alloc, path.as_str())?),
        None => None,
    };
    Ok(FileDisk::new(files, path, outside.may_make))
}

// The addresses that the words name: none where they give none, or where there is none of that name.
fn addresses_of<R: Net>(
    net: &R,
    alloc: Global,
    outside: &Outside,
) -> Result<Vec<SocketAddr>, OutOfMemory> {
    let mut addresses = Vec::new(alloc);
    if let Some(text) = &outside.address {
        if let Ok(found) = text.as_str().to_socket_addrs(net) {
            'found: for address in found {
                addresses.push(address)?;
            }
        }
    }
    Ok(addresses)
}

// The address at which a worker listens: the first of these, with its port and the worker's number. None where there is no such
// port.
fn address_for(addresses: &[SocketAddr], number: u8) -> Option<SocketAddr> {
    let first = addresses.first()?;
    let port = first.port().checked_add(u16::from(number))?;
    Some(SocketAddr::new(first.ip(), port))
}

// A port that tells on standard error that it has failed, by its worker's number from 1, and counts what comes over its links.
type RealPort<'a, R> = CountingPort<TellingPort<TcpPort<&'a R>, StdSink<Stderr>>, StdSink<Stderr>>;

// What a port says where it fails: of a worker that listens, that it has ended. Of a port that dials the status says enough.
fn line_for(alloc: Global, dials: bool, number: u8) -> Result<Bytes, OutOfMemory> {
    if dials {
        return Ok(Bytes::new(alloc));
    }
    let count = u16::from(number) + 1;
    let line = format!(in alloc; "centre: worker {count} has ended: port fault\n")?;
    Ok(Bytes::from_vec(line.into_bytes()))
}

// Where a port that dials shows what comes: on standard error, if that is a terminal.
fn progress_for(alloc: Global, errors: Stderr, dials: bool) -> Option<Progress<StdSink<Stderr>>> {
    if dials && errors.is_terminal() {
        Some(Progress::new(alloc, StdSink::new(errors)))
    } else {
        None
    }
}

fn port_for<'a, R: Net<Listener = TcpListener, Stream = TcpStream> + Clock>(
    rt: &'a R,
    alloc: Global,
    errors: Stderr,
    outside: &Outside,
    number: u8,
) -> Result<RealPort<'a, R>, OutOfMemory> {
    let dials = outside.dials && number == 0;
    let line = line_for(alloc, dials, number)?;
    let addresses = addresses_of(rt, alloc, outside)?;
    let port = if dials {
        TcpPort::dialling(rt, addresses, Duration::from_secs(PATIENCE))
    } else {
        let address = address_for(addresses.as_slice(), number);
        TcpPort::new(rt, address, outside.sessions)
    };
    Ok(CountingPort {
        port: TellingPort {
            port,
            line,
            errors: StdSink::new(errors),
        },
        progress: progress_for(alloc, errors, dials),
    })
}

// The workers that the words ask for. Each listens, or dials, at its first call.
fn workers_for<'a, R: Net<Listener = TcpListener, Stream = TcpStream> + Clock>(
    rt: &'a R,
    alloc: Global,
    errors: Stderr,
    outside: &Outside,
) -> Result<Vec<Worker<RealPort<'a, R>, RealClock<&'a R>, OpenGate>>, OutOfMemory>
    ensures { IfOk result (λ workers. length workers.items ≡ outside.now.workers) }
{
    let mut workers = Vec::new(alloc);
    'workers: for number in 0..outside.workers {
        workers.push(Worker {
            port: port_for(rt, alloc, errors, outside, number)?,
            clock: RealClock::new(rt),
            gate: OpenGate,
        })?;
    }
    Ok(workers)
}

// A secret that nobody else knows, for as long as the process runs.
fn random_secret(files: &impl Files) -> io::Result<Secret> {
    let mut bytes = [0; 16];
    File::open(files, "/dev/urandom")?.read_exact(&mut bytes)?;
    Ok(Secret { bytes })
}

fn main(rt: HostRuntime) -> ExitCode {
    let alloc = rt.alloc();
    let mut source = StdSource::new(rt.stdin());
    let mut sink = StdSink::new(rt.stdout());
    let mut errors = StdSink::new(rt.stderr());
    let words = match words_after(&rt, alloc) {
        Ok(words) => words,
        Err(error) if error.kind() == io::ErrorKind::OutOfMemory => {
            return ExitCode::from(out_of_memory(&mut errors));
        }
        // A word that is no text makes no command, as no words make none.
        Err(_) => Vec::new(alloc),
    };
    let Ok(outside) = outside_of(alloc, &words) else {
        return ExitCode::from(out_of_memory(&mut errors));
    };
    let (Ok(disk), Ok(workers)) = (
        disk_for(&rt, alloc, &outside),
        workers_for(&rt, alloc, rt.stderr(), &outside),
    ) else {
        return ExitCode::from(out_of_memory(&mut errors));
    };
    let Ok(secret) = random_secret(&rt) else {
        let _ = put_all(&mut errors, b"centre: no random bytes\n");
        return ExitCode::from(NO_RANDOM_BYTES);
    };
    let mut clock = RealClock::new(&rt);
    let ended = run(
        &rt,
        alloc,
        &words,
        secret,
        &mut source,
        &mut sink,
        &mut errors,
        disk,
        &mut clock,
        workers,
    );
    if ended.disk.is_in_use() {
        let _ = put_all(
            &mut errors,
            b"centre: the journal is in use by another process\n",
        );
    }
    ExitCode::from(ended.status)
}
