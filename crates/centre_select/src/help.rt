//! The text that the program of `select` shows.

/// What `select --help` shows: the words of that command.
pub const SELECT_HELP: &str = "\
Usage:
  velkatsa select NET STA LOC CHA START END [OPTIONS] < RECORDS > CHOSEN

Reads miniSEED 2 records end to end from standard input, at most 67108864
bytes, and writes those that are asked for, whole, to standard output, ordered
by network, station, location, channel, quality and start. A record whose bytes
equal an earlier one's is left out.

  NET STA LOC CHA  lists by commas of codes, in which * is any characters and
                   ? is one. The blank location is an empty word: \"\". It isn't
                   --, which ends the options and is no word itself
  START END        YYYY-MM-DD, or YYYY-MM-DDThh:mm:ss with up to six decimals
                   and a final Z if wanted. A record is asked for where its
                   last sample is at START or later and its first at END or
                   earlier. A bare date is its midnight: to END 2024-02-02
                   belongs nothing of that day but its first moment

Options, in any place, each at most once, as --NAME VALUE or --NAME=VALUE:
  --quality Q      D, R, Q or M; B, the default, is any
  --minimum SECS   only segments of at least so many seconds, 0 to 10000000000
                   with up to six decimals; the default is 0. A segment is a
                   run of records of one channel, quality and rate, each at
                   most half a sample period from the end of the one before
  --longest FLAG   true: of each channel only its longest segment, of equal
                   ones the first; true, false, 1 or 0; the default is false
  --max-bytes N    the most bytes that may be written, 1 to 67108864, which
                   is the default

A word that can't be read is told by its name: `Value STA` is the second word,
the list of stations, in which something stands that is no code.

An example, from the top of the repository, which writes 12 records:
  ./velkatsa select IU ANMO 00 BHZ 2024-02-01 2024-02-02 \\
      < examples/anmo.mseed > chosen.mseed
";
