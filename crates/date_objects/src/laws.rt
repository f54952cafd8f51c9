//! What the definitions of this crate say together. Each function is a law: its contract is what it is
//! for, and it does nothing when it runs.

ghost use Rattle.std.specs.Prelude.{◌≡◌, ◌++◌, ◌∷◌, [], true, ℕ, List, Option, Some, None};
ghost use Rattle.es_values.specs.Heaps.{IsSound, holds_function, names_of};
ghost use Rattle.es_values.specs.Objects.{ObjectState};
ghost use Rattle.es_date.specs.declared.moments.Moment.{Moment};
ghost use Rattle.es_date.specs.Moments.{IsMoment};
ghost use Rattle.date_objects.specs.Dates.{date_object, day_name, is_date, moment_in, second_name};

/// A Date has its two properties in this order and no others. It keeps its moment, and one of no
/// moment isn't good.
pub fn law_of_dates()
    ensures names { (moment : Option Moment)
        → names_of (date_object moment) ≡ day_name ∷ second_name ∷ [] }
    ensures dates { (moment : Option Moment) → is_date (date_object moment) ≡ true }
    ensures kept { (moment : Moment) → IsMoment moment
        → moment_in (date_object (Some moment)) ≡ Some moment }
    ensures none { moment_in (date_object None) ≡ None }
{}

/// A Date may come to any heap: it names no object, and it holds no function.
pub fn law_of_new_dates()
    ensures sound { (heap : List ObjectState) (moment : Option Moment) → IsSound heap
        → IsSound (heap ++ date_object moment ∷ []) }
    ensures functions { (heap : List ObjectState) (moment : Option Moment) (number : ℕ)
        → holds_function number (heap ++ date_object moment ∷ []) ≡ true
        → holds_function number heap ≡ true }
{}
