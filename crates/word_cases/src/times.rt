//! Steps on times, decimals and rates, and on values that grow.
use crate::fields::{Answer, NO_CALL, flag, put, put_answer, put_moment};
use crate::given::{next, text_of};
use exact_time::{
    BTime, Bytes, Decimal, Many, Moment, OutOfMemory, Ratio, SampleTime, Text, TextRefusal,
    TimeFault, are_digits, btime, cmp_sample_time, cmp_times, gap_at_most, lateness, number_of,
    overlap_at_most, parts, reach,
};
use std::alloc::Global;
use std::cmp::Ordering;
use std::str::Split;

fn fault_word(fault: TimeFault) -> &'static str {
    match fault {
        TimeFault::Form => "Form",
        TimeFault::Range => "Range",
    }
}

fn order(order: Ordering) -> Answer {
    Answer::Word(match order {
        Ordering::Less => "Less",
        Ordering::Equal => "Equal",
        Ordering::Greater => "Greater",
    })
}

fn whole_of(moment: Result<Moment, TimeFault>) -> Answer {
    match moment {
        Ok(moment) => Answer::Whole(i128::from(moment.micros)),
        Err(fault) => Answer::Word(fault_word(fault)),
    }
}

fn decimal_of(given: &[u8]) -> Answer {
    match Decimal::read(given) {
        Ok(decimal) => Answer::Whole(decimal.millionths),
        Err(fault) => Answer::Word(fault_word(fault)),
    }
}

fn number_in(given: &[u8]) -> Answer {
    if given.len() <= 19 && are_digits(given) {
        Answer::Whole(i128::from(number_of(given)))
    } else {
        NO_CALL
    }
}

fn next_moment(words: &mut Split<'_, char>) -> Option<Moment> {
    Some(Moment {
        micros: next(words)?,
    })
}

fn next_rate(words: &mut Split<'_, char>) -> Option<Ratio> {
    Some(Ratio::of(next(words)?, next(words)?))
}

// The time of a sample: a start, how many periods later, and a rate. At rate 0 it is the start.
fn next_sample(words: &mut Split<'_, char>) -> Option<SampleTime> {
    let start = next_moment(words)?;
    let k: u16 = next(words)?;
    let rate = next_rate(words)?;
    if rate.num == 0 && k != 0 {
        return None;
    }
    Some(SampleTime {
        start,
        k: u32::from(k),
        rate,
    })
}

fn next_btime(words: &mut Split<'_, char>) -> Option<BTime> {
    Some(BTime {
        year: next(words)?,
        day: next(words)?,
        hour: next(words)?,
        minute: next(words)?,
        second: next(words)?,
        fraction: next(words)?,
    })
}

// What a call on the time of a sample gives.
fn of_sample(call: &str, words: &mut Split<'_, char>) -> Option<Answer> {
    let time = next_sample(words)?;
    Some(match call {
        "against" => order(cmp_sample_time(time, next_moment(words)?)),
        "order" => order(cmp_times(time, next_sample(words)?)),
        "gap" => flag(gap_at_most(time, next_moment(words)?, next(words)?)),
        "overlap" => flag(overlap_at_most(time, next_moment(words)?)),
        "parts" => Answer::Whole(i128::from(parts(time))),
        "lateness" => Answer::Whole(lateness(time, next_moment(words)?)),
        "floor" => Answer::Whole(i128::from(time.floor().micros)),
        "reach" => Answer::Whole(reach(time, next(words)?)),
        _ => NO_CALL,
    })
}

fn order_of(a: Ratio, b: Ratio) -> Answer {
    order(a.cmp(&b))
}

fn terms_of(rate: Ratio) -> Answer {
    Answer::Terms(rate.num, rate.den)
}

// What a call on numbers gives.
fn of_numbers(call: &str, words: &mut Split<'_, char>) -> Option<Answer> {
    Some(match call {
        "btime" => whole_of(btime(next_btime(words)?)),
        "clock-moment" => flag(next_moment(words)?.is_clock_moment()),
        "rate" => terms_of(next_rate(words)?),
        "rates" => order_of(next_rate(words)?, next_rate(words)?),
        "below" => flag(next_rate(words)? < next_rate(words)?),
        _ => return of_sample(call, words),
    })
}

// The number of lines of a refusal, 0 for none; else there is no memory.
fn put_refusal(alloc: Global, lines: Option<u64>, out: &mut Text) -> Result<(), OutOfMemory> {
    let refusal = match lines {
        None => TextRefusal::from(OutOfMemory),
        Some(0) => TextRefusal::Empty,
        Some(lines) => TextRefusal::TooLarge(lines),
    };
    put(alloc, out, refusal)
}

// A copy of bytes that grows by a blank, and its length.
fn grow_bytes(alloc: Global, given: &[u8], out: &mut Text) -> Result<(), OutOfMemory> {
    let mut bytes = Bytes::from_vec(given.to_vec(alloc)?).copy(alloc)?;
    bytes.push(b' ')?;
    out.push(text_of(bytes.as_slice()))?;
    put(alloc, out, bytes.len())
}

// A copy of a text that grew by a blank, and the text's length, and whether it is empty.
fn grow_text(alloc: Global, given: &str, out: &mut Text) -> Result<(), OutOfMemory> {
    let mut text = Text::new(alloc);
    text.push(given)?;
    text.push(" ")?;
    out.push(text.copy(alloc)?.as_str())?;
    put(
        alloc,
        out,
        format_args!("{} {}", text.len(), text.is_empty()),
    )
}

fn numbers_of(alloc: Global, words: &mut Split<'_, char>) -> Result<Many<u64>, OutOfMemory> {
    let mut many = Many::new(alloc);
    'numbers: for word in words {
        many.push(word.parse().unwrap_or(0))?;
    }
    Ok(many)
}

// The last of some numbers, which is taken out, and how many are left, and which.
fn take_last(alloc: Global, mut many: Many<u64>, out: &mut Text) -> Result<(), OutOfMemory> {
    let last = many.pop();
    let (count, is_empty) = (many.len(), many.is_empty());
    put(
        alloc,
        out,
        format_args!("{last:?} {count} {is_empty} {:?}", many.into_vec()),
    )
}

// Whether what nothing was put into is empty.
fn are_empty(alloc: Global) -> bool {
    let many: Many<u64> = Many::new(alloc);
    Bytes::new(alloc).is_empty() && Text::new(alloc).is_empty() && many.is_empty()
}

fn write_moment(moment: Option<Moment>, out: &mut Text) -> Result<(), OutOfMemory> {
    match moment {
        Some(moment) => put_moment(out, moment),
        None => out.push("not a moment"),
    }
}

fn write_decimal(given: &[u8], out: &mut Text) -> Result<(), OutOfMemory> {
    match Decimal::read(given) {
        Ok(decimal) => decimal.write(out),
        Err(_) => out.push("not a decimal"),
    }
}

fn write_rate(rate: Option<Ratio>, out: &mut Text) -> Result<(), OutOfMemory> {
    match rate {
        Some(rate) => rate.write(out),
        None => out.push("not a rate"),
    }
}

// What a step that writes or makes a value gives.
fn make(alloc: Global, call: &str, given: &[u8], out: &mut Text) -> Result<(), OutOfMemory> {
    let mut words = text_of(given).split(' ');
    match call {
        "write-moment" => write_moment(next_moment(&mut words), out),
        "write-decimal" => write_decimal(given, out),
        "write-rate" => write_rate(next_rate(&mut words), out),
        "refusal" => put_refusal(alloc, next(&mut words), out),
        "bytes" => grow_bytes(alloc, given, out),
        "text" => grow_text(alloc, text_of(given), out),
        "many" => take_last(alloc, numbers_of(alloc, &mut words)?, out),
        "new" => put_answer(alloc, out, flag(are_empty(alloc))),
        _ => put_answer(alloc, out, of_numbers(call, &mut words).unwrap_or(NO_CALL)),
    }
}

/// What a step on times gives.
pub fn show(alloc: Global, call: &str, given: &[u8], out: &mut Text) -> Result<(), OutOfMemory> {
    let field = match call {
        "moment" => whole_of(Moment::read(given)),
        "decimal" => decimal_of(given),
        "digits" => flag(are_digits(given)),
        "number" => number_in(given),
        _ => return make(alloc, call, given, out),
    };
    put_answer(alloc, out, field)
}
