//! Ids and rows at random: the same seed always gives the same ones.

ghost use Rattle.std.specs.Prelude.{◌≤◌};

use pref_table::{Row, Schema, TableFault};

/// How many rows a table opens with.
pub const ROWS: u64 = 40_000;

/// What the next number is made of.
#[derive(Clone, Copy)]
pub struct Random(pub u64);

impl Random {
    /// The next number, of 31 bits.
    fn next(&mut self) -> u64 {
        let product = self.0.wrapping_mul(0x5851_f42d_4c95_7f2d);
        self.0 = product.wrapping_add(0x1405_7b7e_f767_814f);
        self.0 >> 33
    }

    /// An id of an opening row.
    pub fn id(&mut self) -> u64
        ensures { (1 ≤ result) × (result ≤ ROWS) }
    {
        1 + self.next() % ROWS
    }

    /// A row of numbers from 1 to [`ROWS`]. Refused `Width` where there are not six columns.
    pub fn row(&mut self, schema: &Schema) -> Result<Row, TableFault> {
        let mut cells = [0; 6];
        for cell in &mut cells {
            *cell = self.id() as i64;
        }
        Row::of(schema, cells.as_slice())
    }
}
