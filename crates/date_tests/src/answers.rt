//! The kinds of questions, and what answers each.

use bml_bytes::{NoMemory, push_decimal};
use es_date::{DateFields, DateUnit, Moment, civil_of, day_of, weekday};

/// Appends the answer to a row.
///
/// - `civil N`: year, month, day and day of the week of day N
/// - `day Y M D`: the number of day D, counted from the first of month M
/// - `fields Y M D H I S`: day and second of the moment of these fields
/// - `good D S`: the same of the moment of day D and second S, with its hour, minute and second
/// - `later D S N U`: day and second N units U later; `after D S M`: M milliseconds later
/// - `since D S D S U`: the units U from the second of two moments to the first
/// - `days A B`: of each day from A on, up to B and not with it, its number, date, day of the week, and the number of
///   this date
pub fn push_answer(row: &[u8], out: &mut Vec<u8>) -> Result<(), NoMemory> {
    if row.is_empty() || row.starts_with(b"#") {
        return Ok(());
    }
    let mut words = row.split(|byte| *byte == b' ');
    let kind = words.next().unwrap_or(b"");
    let mut numbers = [0; 6];
    for (number, word) in numbers.iter_mut().zip(words) {
        *number = number_of(word);
    }
    out.push(b':')?;
    push_kind(kind, numbers, out)
}

// Appends the answer to a question of some kind, of which numbers that are absent are 0.
fn push_kind(kind: &[u8], numbers: [i64; 6], out: &mut Vec<u8>) -> Result<(), NoMemory> {
    let [a, b, c, d, e, f] = numbers;
    match kind {
        b"civil" => push_civil(small(a), out),
        b"day" => push_number(number_of_day(small(a), b, c), out),
        b"fields" => {
            let fields = DateFields {
                year: small(a),
                month: small(b),
                day: small(c),
                hour: small(d),
                minute: small(e),
                second: small(f),
            };
            push_moment(Moment::of_fields(fields), out)
        }
        b"days" => push_days(small(a), small(b), out),
        _ => push_kind_of_moment(kind, moment(a, b), [c, d, e], out),
    }
}

// Appends the answer to a question on a moment.
fn push_kind_of_moment(
    kind: &[u8],
    first: Option<Moment>,
    numbers: [i64; 3],
    out: &mut Vec<u8>,
) -> Result<(), NoMemory> {
    let Some(first) = first else {
        return push_none(out);
    };
    let [c, d, e] = numbers;
    match kind {
        b"good" => {
            push_moment(Some(first), out)?;
            push(i64::from(first.hour()), out)?;
            push(i64::from(first.minute()), out)?;
            push(i64::from(first.second_in_minute()), out)
        }
        b"later" => match DateUnit::of_number(small(d)) {
            Some(unit) => push_moment(first.later(small(c), unit), out),
            None => push_none(out),
        },
        b"after" => push_moment(first.after(c.unsigned_abs()), out),
        b"since" => match (moment(c, d), DateUnit::of_number(small(e))) {
            (Some(earlier), Some(unit)) => push_number(first.units_since(earlier, unit), out),
            _ => push_none(out),
        },
        _ => push_none(out),
    }
}

// Appends, of each day from one up to another, a line with what it is.
fn push_days(from: i32, to: i32, out: &mut Vec<u8>) -> Result<(), NoMemory> {
    for day in from..to {
        out.push(b'\n')?;
        push_decimal(i64::from(day), out)?;
        push_civil(day, out)?;
        let back = match civil_of(day) {
            Some(date) => number_of_day(date.year, i64::from(date.month), i64::from(date.day)),
            None => None,
        };
        push_number(back, out)?;
    }
    Ok(())
}

fn push_civil(day: i32, out: &mut Vec<u8>) -> Result<(), NoMemory> {
    let Some(date) = civil_of(day) else {
        return push_none(out);
    };
    push(i64::from(date.year), out)?;
    push(i64::from(date.month), out)?;
    push(i64::from(date.day), out)?;
    push(i64::from(weekday(day)), out)
}

fn push_moment(moment: Option<Moment>, out: &mut Vec<u8>) -> Result<(), NoMemory> {
    let Some(moment) = moment else {
        return push_none(out);
    };
    push(i64::from(moment.day), out)?;
    push(i64::from(moment.second), out)
}

fn push_number(number: Option<i32>, out: &mut Vec<u8>) -> Result<(), NoMemory> {
    match number {
        Some(number) => push(i64::from(number), out),
        None => push_none(out),
    }
}

fn push(number: i64, out: &mut Vec<u8>) -> Result<(), NoMemory> {
    out.push(b' ')?;
    push_decimal(number, out)
}

fn push_none(out: &mut Vec<u8>) -> Result<(), NoMemory> {
    out.extend_from_slice(b" none")?;
    Ok(())
}

// The number of a day of a month, which may be no month.
fn number_of_day(year: i32, month: i64, day: i64) -> Option<i32> {
    if month < 1 || month > 12 {
        return None;
    }
    day_of(year, month as u32, day)
}

fn moment(day: i64, second: i64) -> Option<Moment> {
    Moment::of(small(day), small(second))
}

// A number of 32 bits, and 0 where it doesn't fit.
fn small(number: i64) -> i32 {
    i32::try_from(number).unwrap_or(0)
}

// The number that a word is, and 0 where it is none.
fn number_of(word: &[u8]) -> i64 {
    match std::str::from_utf8(word) {
        Ok(word) => word.parse::<i64>().unwrap_or(0),
        Err(_) => 0,
    }
}
