//! `Date`, and the methods of Dates. (ECMA-262 second edition, 15.9, in this profile.)

ghost use Rattle.std.specs.Prelude.{◌≡◌, ◌<◌, ◌≤◌, take, length, All, IfOk};
ghost use Rattle.es_values.specs.Heaps.{IsLive, object_at};
ghost use Rattle.es_values.specs.declared.budgets.Budget.{Budget};
ghost use Rattle.es_builtins.specs.Dates.{date_fields as spec_date_fields, fields_of_numbers, number_or as spec_number_or, part_given, part_of as spec_part_of};
ghost use Rattle.es_builtins.specs.Functions.{date_row as spec_date_row};
ghost use Rattle.es_builtins.specs.Methods.{part_row as spec_part_row};
ghost use Rattle.es_builtins.specs.Rows.{Answers};

use crate::arguments::given_number;
use crate::built::Built;
use crate::methods::DatePart;
use crate::tills::Till;
use bml_bytes::NoMemory;
use date_objects::{add_date, is_date, moment_of};
use es_date::{DateFields, Moment, weekday};
use es_values::{Budget, Heap, Num, Value};

/// How many arguments of `Date` count.
const DATE_ARGUMENTS: usize = 6;

/// `Date()`: a new Date of the moment that the arguments tell. All six become numbers before any is
/// looked at.
pub fn date_row(heap: &mut Heap, args: &[Value], budget: &mut Budget) -> Result<Built, NoMemory>
    requires args { All (IsLive heap.old) args.now }
    ensures row { IfOk result (λ built. Answers (spec_date_row heap.old args.now)
        heap.old budget.old built heap.new budget.new) }
    ensures grows { length heap.old ≤ length heap.new }
    ensures spends { budget.new.left ≤ budget.old.left }
{
    let mut till = Till::open(budget);
    if !till.take_conversions(&*heap, counted(args)) {
        return Ok(Built::OverBudget);
    }
    let moment = date_fields(&*heap, args)?.and_then(Moment::of_fields);
    let date = add_date(heap, moment)?;
    till.close(budget);
    Ok(Built::Value(Value::Object(date)))
}

// The arguments that count.
fn counted(args: &[Value]) -> &[Value]
    ensures { result.now ≡ take DATE_ARGUMENTS args.now }
{
    &args[..args.len().min(DATE_ARGUMENTS)]
}

// The fields that the arguments tell, and None where one of them is NaN.
fn date_fields(heap: &Heap, args: &[Value]) -> Result<Option<DateFields>, NoMemory>
    requires { All (IsLive heap.now) args.now }
    ensures { IfOk result (λ fields. fields ≡ spec_date_fields heap.now args.now) }
{
    let year = number_or(heap, args, 0, 0)?;
    let month = number_or(heap, args, 1, 0)?;
    let day = number_or(heap, args, 2, 1)?;
    let hour = number_or(heap, args, 3, 0)?;
    let minute = number_or(heap, args, 4, 0)?;
    let second = number_or(heap, args, 5, 0)?;
    Ok(fields_of(year, month, day, hour, minute, second))
}

// The number of the argument at a place, and this one where it is absent.
fn number_or(heap: &Heap, args: &[Value], place: usize, absent: i32) -> Result<Num, NoMemory>
    requires { All (IsLive heap.now) args.now }
    ensures { IfOk result (λ number. number ≡ spec_number_or heap.now args.now place absent) }
{
    Ok(match given_number(heap, args, place)? {
        Some(number) => number,
        None => Num::Whole(absent),
    })
}

// Six numbers as fields, and None where one of them is NaN.
fn fields_of(
    year: Num,
    month: Num,
    day: Num,
    hour: Num,
    minute: Num,
    second: Num,
) -> Option<DateFields>
    ensures { result ≡ fields_of_numbers year month day hour minute second }
{
    match (year, month, day, hour, minute, second) {
        (
            Num::Whole(year),
            Num::Whole(month),
            Num::Whole(day),
            Num::Whole(hour),
            Num::Whole(minute),
            Num::Whole(second),
        ) => Some(DateFields {
            year,
            month,
            day,
            hour,
            minute,
            second,
        }),
        _ => None,
    }
}

/// A part of a Date, which is any object with both properties; NaN where it isn't good.
pub fn part_row(heap: &Heap, object: u64, part: DatePart) -> Result<Built, NoMemory>
    requires { object < length heap.now }
    ensures { IfOk result (λ built. (budget : Budget) → Answers
        (spec_part_row heap.now (object_at heap.now object) part)
        heap.now budget built heap.now budget) }
{
    if !is_date(heap, object)? {
        return Ok(Built::NotCallable);
    }
    let moment = moment_of(heap, &Value::Object(object))?;
    Ok(Built::Value(Value::Number(number_of_part(part, moment))))
}

fn number_of_part(part: DatePart, moment: Option<Moment>) -> Num
    ensures { result ≡ part_given part moment }
{
    let Some(moment) = moment else {
        return Num::NotANumber;
    };
    match moment.fields() {
        Some(fields) => Num::Whole(part_of(part, moment, fields)),
        None => Num::NotANumber,
    }
}

fn part_of(part: DatePart, moment: Moment, fields: DateFields) -> i32
    ensures { result ≡ spec_part_of part moment fields }
{
    match part {
        DatePart::FullYear => fields.year,
        DatePart::Month => fields.month,
        DatePart::Date => fields.day,
        DatePart::Day => weekday(moment.day) as i32,
        DatePart::Hours => fields.hour,
        DatePart::Minutes => fields.minute,
        DatePart::Seconds => fields.second,
    }
}
