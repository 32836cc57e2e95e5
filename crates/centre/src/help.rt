//! The texts that the program shows.
ghost use Rattle.std.specs.Prelude.{◌≡◌};
ghost use Rattle.centre.specs.Shown.{help_of, text_shown};

use centre_select::SELECT_HELP;
use command_words::{CommandName, Shown};

fn help_of(command: CommandName) -> &'static str
    ensures { result.now ≡ help_of command }
{
    match command {
        CommandName::Select => SELECT_HELP,
        CommandName::Init => INIT_HELP,
        CommandName::Talk => TALK_HELP,
        CommandName::Serve => SERVE_HELP,
        CommandName::Drill => DRILL_HELP,
        CommandName::Fetch => FETCH_HELP,
        CommandName::Coverage => COVERAGE_HELP,
    }
}

/// The text that is shown.
pub(crate) fn text_shown(shown: Shown) -> &'static str
    ensures { result.now ≡ text_shown shown }
{
    match shown {
        Shown::Help => HELP,
        Shown::Version => VERSION,
        Shown::HelpOf(command) => help_of(command),
    }
}

/// What `--version` shows.
pub const VERSION: &str = "velkatsa 0.1.0\n";

/// What `--help` shows: the commands, and the statuses.
pub const HELP: &str = "\
Velkatsa: waveform records by channel and time, and an archive of them.

Usage:
  velkatsa select NET STA LOC CHA START END [OPTIONS] < RECORDS > CHOSEN
  velkatsa select --help
  velkatsa init --journal F --operator NAME --ha1 HEX
  velkatsa init --help
  velkatsa talk --journal F [OPTIONS]
  velkatsa talk --help
  velkatsa serve --journal F --listen A:P [OPTIONS]
  velkatsa serve --help
  velkatsa drill N --journal F
  velkatsa drill --help
  velkatsa fetch --peer A:P NET STA LOC CHA START END > RECORDS
  velkatsa fetch --help
  velkatsa coverage --journal F START END [--max-lines N] > REPORT
  velkatsa coverage --help
  velkatsa --help
  velkatsa --version

select writes those of the miniSEED 2 records on standard input that are asked
for, whole and in order, to standard output. `velkatsa select --help` says how
its words are read, with an example.

init makes the journal of a new archive in a file. `velkatsa init --help` says
what its words are, with an example.

talk serves one HTTP connection over standard input and output on an archive:
the FDSN web services dataselect, station, event and availability, and its
feeds. `velkatsa talk --help` says how, with an example.

serve serves HTTP connections at an address on an archive, with several workers
if wanted. `velkatsa serve --help` says how, with an example.

drill makes an archive of made records in a file, by which a machine can be
measured, and prints five figures of it. `velkatsa drill --help` says more.

fetch asks another data centre for the records of a window, in as many parts as
it takes, and writes them, whole and each once, to standard output. `velkatsa
fetch --help` says how, with an example.

coverage says how much of each day an archive holds, channel by channel.
`velkatsa coverage --help` says how, with an example.

An option is --NAME VALUE or --NAME=VALUE, in any place behind the command, and
once at most. A value that begins with a hyphen is written --NAME=VALUE.

The program is called velkatsa, and its messages begin with centre:.

Exit status, and the text on standard error:
   0  nothing        the answer was written
   1  centre: unknown command line
   2  centre: query: Value STA, centre: query: Value MINIMUM: that word can't be
      read; of coverage, centre: query: Value END: or there are more than 3660
      days; centre: query: Order: START is after END;
      centre: record at offset 512: Short: the input isn't whole records
   3  centre: no data
   4  centre: 512 bytes exceed 511; of coverage: centre: 2 lines exceed 1
   5  centre: read fault
   6  centre: write fault
   7  centre: disk fault
   8  centre: port fault: of serve, a worker couldn't listen; of fetch, nobody
      listens at the address
   9  centre: journal is not empty; of talk, serve and coverage: centre: not a
      journal, centre: journal damaged at 16
  10  centre: input too long
  11  centre: request cut: the input of talk ended inside a request
  13  centre: peer answered 404
  14  centre: bad reply: not HTTP, no X-Archive-Front, or bytes that aren't
      records
  15  centre: connection lost, centre: front moved from 4 to 5: so the last of
      eight rounds ended
  17  centre: no more links
  18  centre: too many requests: 10000 in one round
  70  centre: out of memory
  71  centre: no random bytes
";

/// What `init --help` shows: the words of that command.
pub const INIT_HELP: &str = "\
Usage:
  velkatsa init --journal F --operator NAME --ha1 HEX

Makes the journal of a new archive in the file F, which is made where there is
none, and else has to be empty. The journal has one entry, which makes NAME a
user with the role operator.

  --journal F      the path of the file
  --operator NAME  1 to 32 letters, digits and the characters _ - .
  --ha1 HEX        32 hexadecimal digits in lower case: the MD5 of
                   NAME:FDSN:PASSWORD. The archive keeps this and never the
                   password

While the command runs, other users of the machine can see its words, and who
knows an HA1 can ask as that user. On a machine that others use, run it where
they can't see it.

After status 0 the archive is on the disk. After centre: disk fault (no such
folder, no right to write, a full disk) remove what there is of the file, and
run it again.

An example:
  ./velkatsa init --journal archive.journal --operator op \\
      --ha1 \"$(printf 'op:FDSN:password' | md5sum | cut -c 1-32)\"
";

/// What `serve --help` shows: the words of that command.
pub const SERVE_HELP: &str = "\
Usage:
  velkatsa serve --journal F --listen A:P [OPTIONS]

Opens the archive whose journal is the file F and serves HTTP/1.1 at the address
A and the port P: the FDSN web services dataselect, station and event in text
and availability, and feeds by which observatories post records and operators
revise the catalog and withdraw records. Who may post is said by the users of
the archive, and HTTP Digest says who asks (realm FDSN, RFC 2617).

  --journal F        the path of the file, as `velkatsa init` made it. Nothing
                     else may write it meanwhile
  --listen A:P       where the first worker listens, as 127.0.0.1:8080,
                     [::1]:8080 or localhost:8080. The next one listens at
                     port P + 1, and so on
  --workers N        how many workers there are, 1 to 16; the default is 1.
                     A worker serves one connection at a time, to its end
  --sessions N       each worker ends behind so many connections, 1 to
                     1000000000000000000; without it, it goes on
  --max-bytes N      the most bytes of an answer of records, 1 to 67108864
  --max-lines N      the most lines of an answer of text, 1 to 100000
  --max-records N    the most records of the archive, 1 to 2097152
  --max-archive N    the most bytes of all that was posted, 1 to 536870912

The paths. Where there is POST, its body has parameters and selections, a line
each; a user is asked for at those that end in auth, and at the last three: the
feed takes the next number of that user as seq=N, and a user with the role
replica copies the entries of the archive from that of a number on, from=N:

  /fdsnws/dataselect/1/query           GET, POST
  /fdsnws/dataselect/1/queryauth       GET, POST
  /fdsnws/availability/1/query         GET, POST
  /fdsnws/availability/1/extent        GET, POST
  /fdsnws/availability/1/queryauth     GET, POST
  /fdsnws/availability/1/extentauth    GET, POST
  /fdsnws/station/1/query              GET, POST
  /fdsnws/event/1/query                GET
  /fdsnws/dataselect/1/version         GET
  /fdsnws/availability/1/version       GET
  /fdsnws/station/1/version            GET
  /fdsnws/event/1/version              GET
  /feed/1/batch                        POST
  /feed/1/revise                       POST
  /archive/1/entries                   GET

Each limit is its greatest number where it isn't given. A connection ends where
its client says nothing, or takes nothing, for 30 seconds, and behind 1000
replies. What is posted to one worker is seen by the others at once where a
client asks for it (X-Archive-Front), and else soon.

A line of a revision withdraws faulty records: those that its patterns match,
from its start to its end, and that came with its entry or an earlier one. They
are in no answer any more, until another line ends that; they stay in the
journal for ever, and count for its limits:
  WDR|IU|ANMO|00|BHZ|2024-02-01T10:00:00|2024-02-01T12:00:00|4711
  DEL|WDR|IU|ANMO|00|BHZ|2024-02-01T10:00:00

The process can be ended by a signal at any moment: what was answered with 200
is in the journal. Where a worker can't listen at its port, it ends, and the
others go on; centre: port fault is told when all have ended. Where the disk
stops a command, that command and each one after it is answered with 503, and
questions are answered as before: end the process, look at the disk, and start
again.

An example, and then, for instance, a question:
  ./velkatsa serve --journal archive.journal --listen 127.0.0.1:8080 --workers 4
  curl 'http://127.0.0.1:8080/fdsnws/dataselect/1/query?net=IU' -o chosen.mseed
";

/// What `drill --help` shows: the words of that command.
pub const DRILL_HELP: &str = "\
Usage:
  velkatsa drill N --journal F

Makes the journal of an archive of N made records in the file F, which is made
where there is none, and else has to be empty. Then it prints five figures of
the archive, each on a line.

  N            1 to 200000
  --journal F  the path of the file

The records have 512 bytes each: 100 samples at 20 Hz of the channel BHZ of the
stations S0 to S7 of the network XX, in turn, from 2024-01-01 on. The archive
has the operator op, the user drill with the role feed, and batches of 1000
records by drill. Nobody knows a password of the two: it is no archive to serve
to others.

  entries   the entries of the journal
  records   the records that are held
  bytes     the bytes of these records
  spans     the runs of records without a gap, of all channels
  selected  the bytes of the records that net=XX&sta=S0 asks for

After centre: disk fault or centre: out of memory remove what there is of the
file, and run it again.

An example, which prints the five lines 3, 160, 81920, 16 and 10240:
  ./velkatsa drill 160 --journal drill.journal
";

/// What `talk --help` shows: the words of that command.
pub const TALK_HELP: &str = "\
Usage:
  velkatsa talk --journal F [OPTIONS]

Opens the archive whose journal is the file F and serves one HTTP/1.1
connection: requests from standard input, replies to standard output, one after
another, until the input ends or a request closes the connection. Who may post
is said by the users of the archive, and HTTP Digest says who asks (realm FDSN,
RFC 2617).

  --journal F        the path of the file, as `velkatsa init` made it. Nothing
                     else may write it meanwhile
  --max-bytes N      the most bytes of an answer of records, 1 to 67108864
  --max-lines N      the most lines of an answer of text, 1 to 100000
  --max-records N    the most records of the archive, 1 to 2097152
  --max-archive N    the most bytes of all that was posted, 1 to 536870912

Each limit is its greatest number where it isn't given. The process can be ended
at any moment: what was answered with 200 is in the journal.

To serve connections over TCP one after another, from the top of the repository:
  socat TCP-LISTEN:8080,bind=127.0.0.1,reuseaddr,fork,max-children=1 \\
      EXEC:'./velkatsa talk --journal archive.journal'
and then, for instance:
  curl 'http://127.0.0.1:8080/fdsnws/dataselect/1/query?net=IU' -o chosen.mseed
";

/// What `fetch --help` shows: the words of that command.
pub const FETCH_HELP: &str = "\
Usage:
  velkatsa fetch --peer A:P NET STA LOC CHA START END > RECORDS

Asks the data centre at the address A and the port P for the records of the
channels that have a sample from START to END, over plain HTTP, and writes them
to standard output when all have come: each once, by name, quality letter and
start. Where the answer is too large for one request (413), the window is asked
for again in two halves. An example of A:P is 127.0.0.1:8080 or localhost:8080.

NET, STA, LOC, CHA, START and END are read as those of `velkatsa select`: codes
with * and ?, lists with commas, '' for the empty location, and times as
2024-02-01 or 2024-02-01T00:00:15.

All answers have to be over the same archive: each says by X-Archive-Front how
many entries it had. Where the archive moves meanwhile, or a connection is lost,
the whole window is asked for anew, in eight rounds at most. A data centre whose
answers don't have that field isn't understood (centre: bad reply).

On a terminal, standard error tells how many requests were made, and how many
bytes came. The records of a round are held in memory until all have come, up to
four bytes for each byte of them, and are at most 268435456 bytes.

An example:
  ./velkatsa fetch --peer 127.0.0.1:8080 IU ANMO 00 BHZ \\
      2024-02-01 2024-02-02 > anmo.mseed
";

/// What `coverage --help` shows: the words of that command.
pub const COVERAGE_HELP: &str = "\
Usage:
  velkatsa coverage --journal F START END [--max-lines N] > REPORT

Says how much of each day from START to END the archive whose journal is the
file F holds: a line for each channel and each day of which it holds something,
by channel and then by day. A day without a line is one of which it holds
nothing. A line, for instance:

  IU ANMO 00 BHZ 2024-02-01 3610000000 4.17

It has the four codes, of which the blank location is written --, the date, how
many microseconds of the day are covered, and the per cent of the day, rounded
down. A record covers the time from its first sample to one interval behind its
last. Where records overlap, that time counts once. A record of rate 0 covers
nothing, and so does a record that is withdrawn.

  --journal F    the path of the file, as `velkatsa init` made it. It is read
                 and stays as it is
  START          the first day, as 2024-02-01, of the years 1900 to 2599
  END            the last day, in the same way: the days are at most 3660
  --max-lines N  the most lines of the report, 1 to 100000, which it is where
                 it isn't given. A longer one isn't written

An archive that is being served is locked, and asking it ends with centre: disk
fault. Ask a copy of it, which can be made at any moment:
  cp archive.journal copy.journal
  ./velkatsa coverage --journal copy.journal 2024-02-01 2024-02-29 > report

examples/clients/coverage_svg.py draws a report as a picture.
";
