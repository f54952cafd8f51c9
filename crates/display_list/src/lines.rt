//! The lines of a display list.

ghost use Rattle.std.specs.Prelude.{◌≡◌, ◌++◌, codes, OnOk};
ghost use Rattle.std.specs.Io.{StartsWith};
ghost use Rattle.bml_bytes.specs.Codes.{bytes_of};
ghost use Rattle.bml_bytes.specs.Escapes.{escaped};
ghost use Rattle.bml_bytes.specs.Numerals.{signed_decimal_digits};
ghost use Rattle.bml_bytes.specs.declared.line_fields.Escapes.TheVariants.{Controls};
ghost use Rattle.display_list.specs.Show.{box_line, clock_line, field_of, focus_line, number_field, picture_front, place_fields, text_front, text_line};

use crate::node_styles::NodeStyle;
use crate::places::Place;
use bml_bytes::{Escapes, NoMemory, Text, push_count, push_decimal, push_line_end, push_word};

/// Appends the first line of a display list, which is all of it where there is no document.
pub fn push_clock_line(clock: u64, out: &mut Vec<u8>) -> Result<(), NoMemory>
    ensures ok { OnOk result (out.new.items ≡ out.old.items ++ clock_line clock) }
    ensures grows { StartsWith out.new.items out.old.items }
{
    push_word("show ", out)?;
    push_count(clock, out)?;
    push_line_end(out)?;
    Ok(())
}

/// Appends the line of a box.
pub fn push_box_line(place: Place, style: NodeStyle, out: &mut Vec<u8>) -> Result<(), NoMemory>
    ensures ok { OnOk result (out.new.items ≡ out.old.items ++ box_line place style) }
    ensures grows { StartsWith out.new.items out.old.items }
{
    push_word("box ", out)?;
    push_place(place, out)?;
    push_border(style, out)?;
    push_line_end(out)?;
    Ok(())
}

/// Appends the line of a text.
pub fn push_text_line(
    place: Place,
    style: NodeStyle,
    text: &Text,
    out: &mut Vec<u8>,
) -> Result<(), NoMemory>
    ensures ok { OnOk result
        (out.new.items
        ≡ out.old.items ++ text_line place style (escaped Controls (bytes_of text.now))) }
    ensures grows { StartsWith out.new.items out.old.items }
{
    push_text_front(place, style, out)?;
    Escapes::Controls.push(text, out)?;
    push_line_end(out)?;
    Ok(())
}

/// Appends the line of a `br`, which is a text of one line feed.
pub fn push_break_line(place: Place, style: NodeStyle, out: &mut Vec<u8>) -> Result<(), NoMemory>
    ensures ok { OnOk result
        (out.new.items ≡ out.old.items ++ text_line place style (codes "%0A")) }
    ensures grows { StartsWith out.new.items out.old.items }
{
    push_text_front(place, style, out)?;
    push_word("%0A", out)?;
    push_line_end(out)?;
    Ok(())
}

/// Appends the line of the focus.
pub fn push_focus_line(place: Place, out: &mut Vec<u8>) -> Result<(), NoMemory>
    ensures ok { OnOk result (out.new.items ≡ out.old.items ++ focus_line place) }
    ensures grows { StartsWith out.new.items out.old.items }
{
    push_word("focus ", out)?;
    push_place(place, out)?;
    push_line_end(out)?;
    Ok(())
}

/// Appends the first fields of a picture's line.
pub fn push_picture_front(place: Place, out: &mut Vec<u8>) -> Result<(), NoMemory>
    ensures ok { OnOk result (out.new.items ≡ out.old.items ++ picture_front place) }
    ensures grows { StartsWith out.new.items out.old.items }
{
    push_word("picture ", out)?;
    push_place(place, out)?;
    push_word(" ", out)?;
    Ok(())
}

/// Appends a field of a text, and a hyphen where it is empty.
pub fn push_field(text: &Text, out: &mut Vec<u8>) -> Result<(), NoMemory>
    ensures ok { OnOk result (out.new.items ≡ out.old.items ++ field_of text.now) }
    ensures grows { StartsWith out.new.items out.old.items }
{
    if 0 < text.len() {
        Escapes::ControlsAndSpace.push(text, out)
    } else {
        push_word("-", out)
    }
}

// Appends the fields of a text's line that stand before its bytes.
fn push_text_front(place: Place, style: NodeStyle, out: &mut Vec<u8>) -> Result<(), NoMemory>
    ensures ok { OnOk result (out.new.items ≡ out.old.items ++ text_front place style) }
    ensures grows { StartsWith out.new.items out.old.items }
{
    push_word("text ", out)?;
    push_place(place, out)?;
    push_letters(style, out)?;
    push_word(" ", out)?;
    Ok(())
}

// Appends the colour and the size of letters.
fn push_letters(style: NodeStyle, out: &mut Vec<u8>) -> Result<(), NoMemory>
    ensures ok { OnOk result (out.new.items
        ≡ out.old.items ++ (number_field style.color ++ number_field style.font_size)) }
    ensures grows { StartsWith out.new.items out.old.items }
{
    push_number(style.color, out)?;
    push_number(style.font_size, out)?;
    Ok(())
}

// Appends the colour of a box, and the width and the colour of its border.
fn push_border(style: NodeStyle, out: &mut Vec<u8>) -> Result<(), NoMemory>
    ensures ok { OnOk result (out.new.items
        ≡ out.old.items
        ++ (number_field style.background ++ number_field style.border_width
        ++ number_field style.border_color)) }
    ensures grows { StartsWith out.new.items out.old.items }
{
    push_number(style.background, out)?;
    push_number(style.border_width, out)?;
    push_number(style.border_color, out)?;
    Ok(())
}

// Appends one number more.
fn push_number(number: i16, out: &mut Vec<u8>) -> Result<(), NoMemory>
    ensures ok { OnOk result (out.new.items ≡ out.old.items ++ number_field number) }
    ensures grows { StartsWith out.new.items out.old.items }
{
    push_word(" ", out)?;
    push_decimal(i64::from(number), out)?;
    Ok(())
}

fn push_place(place: Place, out: &mut Vec<u8>) -> Result<(), NoMemory>
    ensures ok { OnOk result (out.new.items ≡ out.old.items ++ place_fields place) }
    ensures grows { StartsWith out.new.items out.old.items }
{
    push_two(i64::from(place.x), i64::from(place.y), out)?;
    push_word(" ", out)?;
    push_two(i64::from(place.width), i64::from(place.height), out)?;
    Ok(())
}

// Appends two numbers.
fn push_two(first: i64, second: i64, out: &mut Vec<u8>) -> Result<(), NoMemory>
    ensures ok { OnOk result (out.new.items ≡ out.old.items
        ++ (signed_decimal_digits first ++ codes " " ++ signed_decimal_digits second)) }
    ensures grows { StartsWith out.new.items out.old.items }
{
    push_decimal(first, out)?;
    push_word(" ", out)?;
    push_decimal(second, out)?;
    Ok(())
}
