//! The names of the built-in methods.

ghost use Rattle.std.specs.Prelude.{◌≡◌};
ghost use Rattle.es_builtins.specs.Dates.{part_name};
ghost use Rattle.es_builtins.specs.Methods.{all_methods, method_name, method_of};

use bml_bytes::Text;

/// A method that is built in.
#[derive(Clone, Copy, Debug, PartialEq, Eq)]
pub enum Method {
    CharAt,
    CharCodeAt,
    IndexOf,
    LastIndexOf,
    Substring,
    Split,
    FromCharCode,
    Join,
    Reverse,
    Sort,
    ToText,
    ValueOf,
    Get(DatePart),
}

/// A part of a Date, as a method gives it: its year, its month from 0, its day of the month from 1, its
/// day of the week from Sunday, which is 0, its hour, its minute and its second.
#[derive(Clone, Copy, Debug, PartialEq, Eq)]
pub enum DatePart {
    FullYear,
    Month,
    Date,
    Day,
    Hours,
    Minutes,
    Seconds,
}

impl DatePart {
    /// The name of the method that gives it, as scripts write it.
    fn method_name(self) -> &'static str
        ensures { result.now ≡ part_name self }
    {
        match self {
            DatePart::FullYear => "getFullYear",
            DatePart::Month => "getMonth",
            DatePart::Date => "getDate",
            DatePart::Day => "getDay",
            DatePart::Hours => "getHours",
            DatePart::Minutes => "getMinutes",
            DatePart::Seconds => "getSeconds",
        }
    }
}

impl Method {
    /// All of them.
    fn all() -> [Method; 19]
        ensures { result ≡ all_methods }
    {
        [
            Method::CharAt,
            Method::CharCodeAt,
            Method::IndexOf,
            Method::LastIndexOf,
            Method::Substring,
            Method::Split,
            Method::FromCharCode,
            Method::Join,
            Method::Reverse,
            Method::Sort,
            Method::ToText,
            Method::ValueOf,
            Method::Get(DatePart::FullYear),
            Method::Get(DatePart::Month),
            Method::Get(DatePart::Date),
            Method::Get(DatePart::Day),
            Method::Get(DatePart::Hours),
            Method::Get(DatePart::Minutes),
            Method::Get(DatePart::Seconds),
        ]
    }

    /// Its name, as scripts write it.
    fn name(self) -> &'static str
        ensures { result.now ≡ method_name self }
    {
        match self {
            Method::CharAt => "charAt",
            Method::CharCodeAt => "charCodeAt",
            Method::IndexOf => "indexOf",
            Method::LastIndexOf => "lastIndexOf",
            Method::Substring => "substring",
            Method::Split => "split",
            Method::FromCharCode => "fromCharCode",
            Method::Join => "join",
            Method::Reverse => "reverse",
            Method::Sort => "sort",
            Method::ToText => "toString",
            Method::ValueOf => "valueOf",
            Method::Get(part) => part.method_name(),
        }
    }

    /// The method of a name, where there is one.
    pub fn of_name(name: &Text) -> Option<Method>
        ensures { result ≡ method_of name.now }
    {
        Method::all()
            .iter()
            .copied()
            .find(|method| name.is_word(method.name()))
    }
}
