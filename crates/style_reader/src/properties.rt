//! The properties of styles, and the values that they take.

ghost use Rattle.std.specs.Prelude.{◌≡◌};
ghost use Rattle.style_reader.specs.Properties.{all_properties, initial_of, is_inherited as spec_is_inherited, name_of, script_name_of, values_of};
ghost use Rattle.style_reader.specs.devices.Views.{seen_values};

/// A property of a style (after BML, ARIB STD-B24 volume 2; the choice is this project's own).
#[derive(Clone, Copy, Debug, PartialEq, Eq)]
pub enum Property {
    Left,
    Top,
    Width,
    Height,
    Visibility,
    ZIndex,
    NavIndex,
    NavUp,
    NavDown,
    NavLeft,
    NavRight,
    UsedKeyList,
    ColorIndex,
    BackgroundColorIndex,
    BorderWidth,
    BorderColorIndex,
    FontSize,
}

/// What a property is given.
#[derive(Clone, Copy, Debug, PartialEq, Eq)]
pub enum StyleValue {
    /// A whole number, of pixels or plain.
    Whole(i32),
    /// `none`.
    NoValue,
    Visible,
    Hidden,
    /// Groups of keys: the sum of 1 for basic, 2 for data-button and 4 for numeric-tuning.
    Keys(u8),
}

// The values of a property: numbers from a least to a most one, in pixels or plain, or words.
#[derive(Clone, Copy)]
pub(crate) enum Values {
    Pixels(i32, i32),
    Numbers(i32, i32),
    NumbersOrNone(i32, i32),
    VisibleOrHidden,
    KeyGroups,
}

// Offsets and levels have 16 bits with a sign, lengths and targets 15, colours 8.
const OFFSETS: Values = Values::Pixels(-32_768, 32_767);

const LENGTHS: Values = Values::Pixels(0, 32_767);

const LEVELS: Values = Values::Numbers(-32_768, 32_767);

const TARGETS: Values = Values::NumbersOrNone(0, 32_767);

const COLOURS: Values = Values::Numbers(0, 255);

const ZERO: StyleValue = StyleValue::Whole(0);

const SEVEN: StyleValue = StyleValue::Whole(7);

const EIGHT: StyleValue = StyleValue::Whole(8);

const TWENTY_FOUR: StyleValue = StyleValue::Whole(24);

const BASIC_AND_DATA_BUTTON: StyleValue = StyleValue::Keys(3);

impl Property {
    /// All properties, in the order in which they are listed.
    pub fn all() -> [Property; 17]
        ensures { result ≡ all_properties }
    {
        [
            Property::Left,
            Property::Top,
            Property::Width,
            Property::Height,
            Property::Visibility,
            Property::ZIndex,
            Property::NavIndex,
            Property::NavUp,
            Property::NavDown,
            Property::NavLeft,
            Property::NavRight,
            Property::UsedKeyList,
            Property::ColorIndex,
            Property::BackgroundColorIndex,
            Property::BorderWidth,
            Property::BorderColorIndex,
            Property::FontSize,
        ]
    }

    /// Its name in a style, in lower case.
    pub fn name(self) -> &'static str
        ensures { result.now ≡ name_of self }
    {
        match self {
            Property::Left => "left",
            Property::Top => "top",
            Property::Width => "width",
            Property::Height => "height",
            Property::Visibility => "visibility",
            Property::ZIndex => "z-index",
            Property::NavIndex => "nav-index",
            Property::NavUp => "nav-up",
            Property::NavDown => "nav-down",
            Property::NavLeft => "nav-left",
            Property::NavRight => "nav-right",
            Property::UsedKeyList => "used-key-list",
            Property::ColorIndex => "color-index",
            Property::BackgroundColorIndex => "background-color-index",
            Property::BorderWidth => "border-width",
            Property::BorderColorIndex => "border-color-index",
            Property::FontSize => "font-size",
        }
    }

    /// Its name in a script.
    pub fn script_name(self) -> &'static str
        ensures { result.now ≡ script_name_of self }
    {
        match self {
            Property::Left => "left",
            Property::Top => "top",
            Property::Width => "width",
            Property::Height => "height",
            Property::Visibility => "visibility",
            Property::ZIndex => "zIndex",
            Property::NavIndex => "navIndex",
            Property::NavUp => "navUp",
            Property::NavDown => "navDown",
            Property::NavLeft => "navLeft",
            Property::NavRight => "navRight",
            Property::UsedKeyList => "usedKeyList",
            Property::ColorIndex => "colorIndex",
            Property::BackgroundColorIndex => "backgroundColorIndex",
            Property::BorderWidth => "borderWidth",
            Property::BorderColorIndex => "borderColorIndex",
            Property::FontSize => "fontSize",
        }
    }

    /// Its value where nothing gives it one.
    pub fn initial(self) -> StyleValue
        ensures { result ≡ initial_of self }
    {
        match self {
            Property::Left
            | Property::Top
            | Property::Width
            | Property::Height
            | Property::ZIndex
            | Property::BorderWidth => ZERO,
            Property::Visibility => StyleValue::Visible,
            Property::NavIndex
            | Property::NavUp
            | Property::NavDown
            | Property::NavLeft
            | Property::NavRight => StyleValue::NoValue,
            Property::UsedKeyList => BASIC_AND_DATA_BUTTON,
            Property::ColorIndex | Property::BorderColorIndex => SEVEN,
            Property::BackgroundColorIndex => EIGHT,
            Property::FontSize => TWENTY_FOUR,
        }
    }

    /// Whether an element to which nothing gives it has that of the element around it.
    pub fn is_inherited(self) -> bool
        ensures { result ≡ spec_is_inherited self }
    {
        matches!(
            self,
            Property::Visibility | Property::ColorIndex | Property::FontSize
        )
    }

    // The values that it takes.
    pub(crate) fn values(self) -> Values
        ensures { seen_values result ≡ values_of self }
    {
        match self {
            Property::Left | Property::Top => OFFSETS,
            Property::Width | Property::Height | Property::BorderWidth | Property::FontSize =>
                LENGTHS,
            Property::ZIndex => LEVELS,
            Property::NavIndex
            | Property::NavUp
            | Property::NavDown
            | Property::NavLeft
            | Property::NavRight => TARGETS,
            Property::Visibility => Values::VisibleOrHidden,
            Property::UsedKeyList => Values::KeyGroups,
            Property::ColorIndex | Property::BackgroundColorIndex | Property::BorderColorIndex =>
                COLOURS,
        }
    }
}
