//! Dates: the present one, and those that are some time apart.

ghost use Rattle.std.specs.Prelude.{◌≡◌, ℤ, All, IfOk, IfSome, OnErr, OnOk};
ghost use Rattle.es_values.specs.Heaps.{IsLive};
ghost use Rattle.es_date.specs.Moments.{IsMoment};
ghost use Rattle.browser_objects.specs.Calls.{Answers, BrowserParts, add_date as spec_add_date, current_date as spec_current_date, date_argument as spec_date_argument, give_date as spec_give_date, sub_date as spec_sub_date, unit_argument as spec_unit_argument};
ghost use Rattle.browser_objects.specs.Dates.{later_moment as spec_later_moment, units_since as spec_units_since};

use crate::arguments::whole_argument;
use crate::effects::{Effect, refusal};
use crate::states::BrowserState;
use bml_bytes::NoMemory;
use date_objects::moment_of;
use es_date::{DateUnit, Moment};
use es_values::{Heap, Num, Value};

/// `currentDate()`: a Date of the present moment, which is the date that the record told last and the
/// whole seconds of the clock since then. Null where it told none; NaN past the year 2399.
pub fn current_date(
    state: &BrowserState,
    now: u64,
    heap: &mut Heap,
) -> Result<(Value, Effect), NoMemory>
    ensures answers { IfOk result (λ answer. Answers
        (spec_current_date now heap.old state.now).called answer state.now) }
    ensures objects { OnOk result (heap.new ≡ (spec_current_date now heap.old state.now).heap) }
    ensures err { OnErr result (heap.new ≡ heap.old) }
{
    match state.date {
        None => Ok((Value::Null, Effect::Nothing)),
        Some((day, second, clock)) => {
            let told = Moment { day, second };
            give_date(told.after(now.saturating_sub(clock)), heap)
        }
    }
}

/// `addDate(date, count, unit)`: a Date so many units later, or earlier where they are negative.
pub fn add_date(args: &[Value], heap: &mut Heap) -> Result<(Value, Effect), NoMemory>
    requires { All (IsLive heap.old) args.now }
    ensures answers { (s : BrowserParts) → IfOk result (λ answer. Answers
        (spec_add_date args.now heap.old s).called answer s) }
    ensures objects { (s : BrowserParts) → OnOk result
        (heap.new ≡ (spec_add_date args.now heap.old s).heap) }
    ensures err { OnErr result (heap.new ≡ heap.old) }
{
    let date = date_argument(&*heap, args, 0)?;
    let count = whole_argument(&*heap, args, 1)?;
    let unit = unit_argument(&*heap, args, 2)?;
    give_date(later_moment(date, count, unit), heap)
}

/// `subDate(later, earlier, unit)`: the units from the one to the other, cut towards zero.
pub fn sub_date(args: &[Value], heap: &Heap) -> Result<(Value, Effect), NoMemory>
    requires { All (IsLive heap.now) args.now }
    ensures { (s : BrowserParts) → IfOk result (λ answer. Answers
        (spec_sub_date args.now heap.now s) answer s) }
{
    let later = date_argument(heap, args, 0)?;
    let earlier = date_argument(heap, args, 1)?;
    let unit = unit_argument(heap, args, 2)?;
    Ok(match units_since(later, earlier, unit) {
        Some(units) => (Value::Number(Num::Whole(units)), Effect::Nothing),
        None => refusal(),
    })
}

// A new Date of a moment, where there is one.
fn give_date(moment: Option<Moment>, heap: &mut Heap) -> Result<(Value, Effect), NoMemory>
    requires { IfSome moment IsMoment }
    ensures answers { (s : BrowserParts) → IfOk result (λ answer. Answers
        (spec_give_date moment heap.old s).called answer s) }
    ensures objects { (s : BrowserParts) → OnOk result
        (heap.new ≡ (spec_give_date moment heap.old s).heap) }
    ensures err { OnErr result (heap.new ≡ heap.old) }
{
    match moment {
        None => Ok(refusal()),
        Some(moment) => {
            let date = date_objects::add_date(heap, Some(moment))?;
            Ok((Value::Object(date), Effect::Nothing))
        }
    }
}

// The moment of the argument at a place, where it is a good Date.
fn date_argument(heap: &Heap, args: &[Value], place: usize) -> Result<Option<Moment>, NoMemory>
    requires { All (IsLive heap.now) args.now }
    ensures moment { IfOk result
        (λ moment. moment ≡ spec_date_argument heap.now args.now place) }
    ensures range { IfOk result (λ moment. IfSome moment IsMoment) }
{
    match args.get(place) {
        Some(value) => moment_of(heap, value),
        None => moment_of(heap, &Value::Undefined),
    }
}

// The unit that the argument at a place names.
fn unit_argument(heap: &Heap, args: &[Value], place: usize) -> Result<Option<DateUnit>, NoMemory>
    requires { All (IsLive heap.now) args.now }
    ensures { IfOk result (λ unit. unit ≡ spec_unit_argument heap.now args.now place) }
{
    Ok(whole_argument(heap, args, place)?.and_then(DateUnit::of_number))
}

fn later_moment(
    moment: Option<Moment>,
    count: Option<i32>,
    unit: Option<DateUnit>,
) -> Option<Moment>
    ensures moment { result ≡ spec_later_moment moment count unit }
    ensures range { IfSome result IsMoment }
{
    match (moment, count, unit) {
        (Some(moment), Some(count), Some(unit)) => moment.later(count, unit),
        _ => None,
    }
}

fn units_since(
    later: Option<Moment>,
    earlier: Option<Moment>,
    unit: Option<DateUnit>,
) -> Option<i32>
    ensures { result ≡ spec_units_since later earlier unit }
{
    match (later, earlier, unit) {
        (Some(later), Some(earlier), Some(unit)) => later.units_since(earlier, unit),
        _ => None,
    }
}
