//! Rows of whole numbers.
ghost use Rattle.std.specs.Prelude.{◌≡◌, ◌<◌, ◌≤◌, ℕ, ℤ, List, pos, length, slice_index_or, MatchResult, Ok, Err};
ghost use Rattle.std.specs.Iterator.{AlwaysYields, IsFinite};
ghost use Rattle.pref_table.specs.Numbered.{all_from};
ghost use Rattle.pref_table.specs.Rows.{cell_in, numbers_row, row_of};

use crate::fault::TableFault;
use crate::number::{NumberFault, number};
use crate::schema::{MAX_COLUMNS, Schema};
use std::marker::Model;

/// A row of a table: a whole number from -2^63 to 2^63 - 1 for each column, and 0 in each column from the schema's width
/// up to the 16th. It takes 128 bytes. Contracts see the list of its 16 numbers.
#[derive(Clone, Copy, Debug, PartialEq, Eq)]
pub struct Row {
    cells: [i64; 16],
}

impl Model for Row {
    ghost use Rattle.std.specs.Prelude.{List, ℤ, length, ◌≡◌};

    ghost Value = { List ℤ };

    ghost view = { λ row. row.cells };

    ghost invariant = { λ row. length row.cells ≡ 16 };

    ghost inverse = { λ cells. record { cells = cells } };
}

impl Row {
    /// The row of these numbers, one for each column of the schema. Takes no memory.
    ///
    /// Refused `Width { row: 0 }` where there are more or fewer numbers than columns.
    ///
    /// ```rust
    /// let row = Row::of(&schema, &[55, 1])?;
    /// ```
    pub fn of(schema: &Schema, numbers: &[i64]) -> Result<Row, TableFault>
        ensures { result ≡ numbers_row (length schema.now) numbers.now }
    {
        let width = schema.width();
        if numbers.len() != width {
            return Err(TableFault::Width { row: 0 });
        }
        let mut cells = [0; MAX_COLUMNS];
        cells[..width].copy_from_slice(numbers);
        Ok(Row { cells })
    }

    /// The row of these 16 cells.
    pub(crate) fn of_cells(cells: [i64; MAX_COLUMNS]) -> Row
        ensures { result ≡ cells }
    {
        Row { cells }
    }

    /// The number in a column, which counts from 0 and has to be below 16. In a column that the schema has not it is 0.
    ///
    /// ```rust
    /// let (price, dist) = (row.cell(0), row.cell(1));
    /// ```
    pub fn cell(&self, col: usize) -> i64
        requires { col < 16 }
        ensures value { result ≡ slice_index_or self.now col (pos 0) }
        ensures sixteen { length self.now ≡ 16 }
    {
        self.cells[col]
    }
}

/// The number of a field, which is in this row and column.
pub(crate) fn cell_at(row: u64, col: u64, field: &[u8]) -> Result<i64, TableFault>
    ensures { result ≡ cell_in row col field.now }
{
    match number(field) {
        Ok(number) => Ok(number),
        Err(NumberFault::NotWhole) => Err(TableFault::NotWhole { row, col }),
        Err(NumberFault::OutOfRange) => Err(TableFault::OutOfRange { row, col }),
    }
}

/// The row of these fields; `count` says how many they are, which is asked before any is read.
pub(crate) fn row_of_fields<'text, Fields: Iterator<Item = &'text [u8]> + Drop>(
    schema: &Schema,
    row: u64,
    count: usize,
    mut fields: Fields,
) -> Result<Row, TableFault>
    requires can { Fields.can_next fields }
    requires ends { IsFinite (Fields.remaining fields) }
    ensures { (texts : List (List ℕ)) → AlwaysYields Fields.next_gives (λ field. field.now) fields texts → count ≡ length texts
        → result ≡ row_of (length schema.now) row texts }
{
    let width = schema.width();
    if count != width {
        return Err(TableFault::Width { row });
    }
    let mut cells = [0; MAX_COLUMNS];
    for col in 0..width {
        let Some(field) = fields.next() else {
            // Not met where `count` is right.
            return Err(TableFault::Width { row });
        };
        cells[col] = cell_at(row, col as u64 + 1, field)?;
    }
    Ok(Row::of_cells(cells))
}
