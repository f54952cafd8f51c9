//! The units in which scripts count from moment to moment.

ghost use Rattle.std.specs.Prelude.{◌≡◌, ◌≤ℤ◌, pos};
ghost use Rattle.es_date.specs.Moments.{all_units, unit_length, unit_number, unit_of};

/// A unit of `addDate` and `subDate`. (Their names are those of ARIB STD-B24 volume 2; units and numbers are this
/// project's own.)
#[derive(Clone, Copy, Debug, PartialEq, Eq)]
pub enum DateUnit {
    Second,
    Minute,
    Hour,
    Day,
    Week,
}

impl DateUnit {
    // All of them.
    fn all() -> [DateUnit; 5]
        ensures { result ≡ all_units }
    {
        [
            DateUnit::Second,
            DateUnit::Minute,
            DateUnit::Hour,
            DateUnit::Day,
            DateUnit::Week,
        ]
    }

    /// The unit of a number: 1 second, 2 minute, 3 hour, 4 day, 5 week; None of every other number.
    pub fn of_number(number: i32) -> Option<DateUnit>
        ensures { result ≡ unit_of number }
    {
        DateUnit::all()
            .iter()
            .copied()
            .find(|unit| number == unit.number())
    }

    fn number(self) -> i32
        ensures { result ≡ unit_number self }
    {
        match self {
            DateUnit::Second => 1,
            DateUnit::Minute => 2,
            DateUnit::Hour => 3,
            DateUnit::Day => 4,
            DateUnit::Week => 5,
        }
    }

    /// How many seconds it is.
    pub fn seconds(self) -> i64
        ensures value { result ≡ unit_length self }
        ensures low { pos 1 ≤ℤ result }
        ensures high { result ≤ℤ pos 604800 }
    {
        match self {
            DateUnit::Second => 1,
            DateUnit::Minute => 60,
            DateUnit::Hour => 3600,
            DateUnit::Day => 86_400,
            DateUnit::Week => 604_800,
        }
    }
}
