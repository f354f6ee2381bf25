//! A table's schema and rows, and how they are read from text.
#![tactic(auto)]

mod digits;
mod fault;
mod line;
mod lines;
mod number;
mod records;
mod row;
mod schema;
mod table;

pub use fault::TableFault;
pub use line::read_row;
pub use row::Row;
pub use schema::Schema;
pub use table::read_table;

/// What the readers of questions and scripts share with that of tables: blanks, numbers and the bytes of names.
pub mod engine {
    pub use crate::number::{blanks_length, signed_number};
    pub use crate::schema::is_name_byte;
}
