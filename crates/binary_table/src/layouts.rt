//! Where the fields of a row stand: a structure is read once, whatever rows there are.

ghost use Rattle.std.specs.Prelude.{◌≡◌, ◌<◌, ◌+◌, ◌%◌, ◌++◌, ◌∷◌, [], ◌^◌, All, List, length, drop, IfOk, option_map};
ghost use Rattle.std.specs.Int.{div_ceil};
ghost use Rattle.bml_bytes.specs.Fields.{with_left};
ghost use Rattle.persistent_arrays.specs.Structures.{IsKind, IsStructure};
ghost use Rattle.persistent_arrays.specs.declared.kinds.FieldKind.{FieldKind};
ghost use Rattle.persistent_arrays.specs.declared.kinds.FieldKind.TheVariants.{Bit, Varying};
ghost use Rattle.binary_table.specs.devices.Layouts.{HasRoom, IsLayoutOf, Lays, byte_column};
ghost use Rattle.binary_table.specs.devices.Shown.{IsShown};
ghost use Rattle.binary_table.specs.devices.Places.{behind_bytes, behind_text, places_of, rests, with_length};

use crate::columns::{Column, behind};
use bml_bytes::{Cursor, NoMemory, law_of_fields};
use persistent_arrays::FieldKind;
use std::alloc::Global;

// The columns, and how many bytes stand before each text of varying size of a row, and behind the last of them. While it is
// made, the last stretch and the bits behind it are those so far.
#[derive(Drop)]
pub(crate) struct Layout {
    pub(crate) columns: Vec<Column>,
    pub(crate) stretches: Vec<usize>,
    pub(crate) tail: usize,
    pub(crate) bits: usize,
}

impl Layout {
    // The layout of these fields.
    pub(crate) fn of(alloc: Global, kinds: &[FieldKind]) -> Result<Layout, NoMemory>
        requires fields { length kinds.now < 2 ^ 32 }
        requires sizes { All IsKind kinds.now }
        ensures { IfOk result (λ layout. IsLayoutOf kinds.now layout) }
    {
        let mut layout = Layout {
            columns: Vec::new(alloc),
            stretches: Vec::new(alloc),
            tail: 0,
            bits: 0,
        };
        'kinds: for kind in kinds {
            layout.push(*kind)?;
        }
        layout.close();
        Ok(layout)
    }

    // Lays one more field.
    fn push(&mut self, kind: FieldKind) -> Result<(), NoMemory>
        requires room { HasRoom self.old }
        requires size { IsKind kind }
        ensures { IfOk result (λ _. Lays kind self.old self.new) }
    {
        match kind {
            FieldKind::Bit => self.push_bit(),
            FieldKind::Unsigned(size) | FieldKind::Signed(size) | FieldKind::Fixed(size) => {
                self.push_field(kind)?;
                self.tail += usize::from(size);
                Ok(())
            }
            FieldKind::Varying => self.push_varying(),
        }
    }

    fn push_bit(&mut self) -> Result<(), NoMemory>
        requires { HasRoom self.old }
        ensures { IfOk result (λ _. Lays Bit self.old self.new) }
    {
        let bit = self.next_bit();
        let varying = self.texts();
        self.columns.push(Column {
            kind: FieldKind::Bit,
            bit,
            varying,
            offset: self.tail + self.bits / 8,
        })?;
        self.bits += 1;
        Ok(())
    }

    fn push_varying(&mut self) -> Result<(), NoMemory>
        requires { HasRoom self.old }
        ensures { IfOk result (λ _. Lays Varying self.old self.new) }
    {
        self.push_field(FieldKind::Varying)?;
        self.stretches.push(self.tail)?;
        self.tail = 0;
        Ok(())
    }

    // The column of a field that begins on a byte.
    fn push_field(&mut self, kind: FieldKind) -> Result<(), NoMemory>
        requires { HasRoom self.old }
        ensures columns { IfOk result (λ _. self.new.columns.items ≡ self.old.columns.items
            ++ byte_column kind (length self.old.stretches.items)
            (self.old.tail + div_ceil self.old.bits 8) ∷ []) }
        ensures stretches { self.new.stretches.items ≡ self.old.stretches.items }
        ensures tail { self.new.tail ≡ self.old.tail + div_ceil self.old.bits 8 }
        ensures bits { self.new.bits ≡ 0 }
    {
        let varying = self.texts();
        self.close();
        self.columns.push(Column {
            kind,
            bit: 0,
            varying,
            offset: self.tail,
        })?;
        Ok(())
    }

    // How many texts of varying size there are so far.
    fn texts(&self) -> u32
        requires { HasRoom self.now }
        ensures { result ≡ length self.now.stretches.items }
    {
        self.stretches.len() as u32
    }

    // Which bit of its byte the next bit is, from the top.
    fn next_bit(&self) -> u8
        ensures { result ≡ self.now.bits % 8 }
    {
        (self.bits % 8) as u8
    }

    // The next field begins on a byte.
    fn close(&mut self)
        requires { self.old.tail + self.old.bits < 2 ^ 48 }
        ensures columns { self.new.columns.items ≡ self.old.columns.items }
        ensures stretches { self.new.stretches.items ≡ self.old.stretches.items }
        ensures tail { self.new.tail ≡ self.old.tail + div_ceil self.old.bits 8 }
        ensures bits { self.new.bits ≡ 0 }
    {
        self.tail += self.bits.div_ceil(8);
        self.bits = 0;
    }

    // The places of a row from which its fields are counted, and where it ends; None where it passes the end.
    pub(crate) fn row(
        &self,
        alloc: Global,
        bytes: &[u8],
        start: usize,
    ) -> Result<Option<Row>, NoMemory>
        ensures { IfOk result (λ found.
            option_map (λ row. (rests bytes.now row.places.items, drop row.end bytes.now)) found
            ≡ places_of self.now.tail self.now.stretches.items (drop start bytes.now)) }
    {
        let mut left = Cursor::new(behind(bytes, start));
        let mut places = Vec::new(alloc);
        places.push(start)?;
        let Some(end) = self.walk(bytes, &mut left, &mut places)? else {
            return Ok(None);
        };
        Ok(Some(Row { places, end }))
    }

    // Adds the places behind the texts of varying size of the row that is left to the first one, and gives where the row ends;
    // None where it passes the end.
    fn walk(
        &self,
        bytes: &[u8],
        left: &mut Cursor<'_>,
        places: &mut Vec<usize>,
    ) -> Result<Option<usize>, NoMemory>
        requires { rests bytes.now places.old.items ≡ left.old ∷ [] }
        ensures { IfOk result (λ found.
            option_map (λ end. (rests bytes.now places.new.items, drop end bytes.now)) found
            ≡ places_of self.now.tail self.now.stretches.items left.old) }
    {
        law_of_fields();
        'stretches: for stretch in &self.stretches {
            let Some(over) = skip_text(*stretch, left) else {
                return Ok(None);
            };
            places.push(bytes.len() - over)?;
        }
        let Some(over) = skip(self.tail, left) else {
            return Ok(None);
        };
        let end = bytes.len() - over;
        Ok(Some(end))
    }
}

impl Layout {
    pub(crate) fn into_columns(self) -> Vec<Column>
        ensures { result.items ≡ self.columns.items }
    {
        self.columns
    }

    // The places of all rows; None where the bytes aren't whole rows or are more than so many.
    pub(crate) fn rows(
        &self,
        alloc: Global,
        bytes: &[u8],
        most: usize,
    ) -> Result<Option<Vec<Row>>, NoMemory>
        ensures { IfOk result (λ found. (kinds : List FieldKind) → IsStructure kinds →
            IsLayoutOf kinds self.now →
            IsShown most kinds bytes.now (option_map (λ rows. rows.items) found)) }
    {
        law_of_fields();
        let mut rows = Vec::new(alloc);
        let mut start = 0;
        'rows: while start < bytes.len() {
            if rows.len() == most {
                return Ok(None);
            }
            let Some(row) = self.row(alloc, bytes, start)? else {
                return Ok(None);
            };
            start = row.end;
            rows.push(row)?;
        }
        Ok(Some(rows))
    }
}

// Skips so many bytes, a length behind them, and the text of that length, and gives the number of the bytes behind it.
fn skip_text(stretch: usize, left: &mut Cursor<'_>) -> Option<usize>
    ensures { with_left (λ over. over) result left.new
        ≡ option_map with_length (behind_text stretch left.old) }
{
    left.take(stretch)?;
    let count = left.u8()?;
    skip(usize::from(count), left)
}

// Skips so many bytes, and gives the number of those behind them.
fn skip(count: usize, left: &mut Cursor<'_>) -> Option<usize>
    ensures { with_left (λ over. over) result left.new
        ≡ option_map with_length (behind_bytes count left.old) }
{
    left.take(count)?;
    Some(left.left().len())
}

// The places of a row, and where it ends.
#[derive(Drop)]
pub(crate) struct Row {
    pub(crate) places: Vec<usize>,
    pub(crate) end: usize,
}
