//! A live table with what it keeps for its callers.
ghost use Rattle.std.specs.Prelude.{◌≡◌, ◌≤◌, drop, length, IfOk, Ok};
ghost use Rattle.pref_table.specs.Tables.{Gives};
ghost use Rattle.pref_script.specs.Script.{raw_lines};
ghost use Rattle.prefq_c.specs.Lines.{KeepsNoReplies, Replies, RepliesEach};
ghost use Rattle.prefq_c.specs.Openings.{HaveRows, Opens, OpensTable, feeds, limits_of, line_end_from, numbers_table, rows_in, rows_of};
ghost use Rattle.pref_table.specs.Tables.{table_of};

use crate::changes::row_of;
use crate::fault::Fault;
use crate::sizes::{Sizes, count_feeds, setup_of};
use pref_core::{CoreFault, Machine, RankedList, Setup};
use pref_script::LiveTable;
use pref_script::engine::{cut_line, line_text};
use pref_table::{Row, Schema, TableFault, read_table};
use std::alloc::{AllocError, Global};

/// The most lines that a table takes.
const MOST_LINES: u64 = 1 << 62;

/// The most rows of a table.
pub const MOST_ROWS: usize = 65536;

/// Of the room that replies took, as many bytes stay for those to the next lines.
const KEPT_BYTES: usize = 4096;

/// A live table, the rows of the answer that was asked for last, the replies to its last lines, and how many versions of rows it has room for.
#[derive(Drop)]
pub struct Table {
    pub live: LiveTable,
    pub answer: RankedList,
    pub text: String,
    pub capacity: u32,
}

/// The numbers behind those of a row.
pub fn behind<'a>(schema: &Schema, numbers: &'a [i64]) -> &'a [i64]
    requires { length schema.now ≤ length numbers.now }
    ensures { result.now ≡ drop (length schema.now) numbers.now }
{
    &numbers[schema.width()..]
}

/// The first `count` rows of numbers, each of which is as wide as the table.
#[tactic(auto, using(crate::proofs::RowsLaws::rows_end, crate::proofs::RowsLaws::have_first))]
fn cut_rows(
    alloc: Global,
    schema: &Schema,
    count: usize,
    numbers: &[i64],
) -> Result<Vec<Row>, AllocError>
    requires { HaveRows (length schema.now) count numbers.now }
    ensures { IfOk result (λ rows. rows.items ≡ rows_in (length schema.now) count numbers.now) }
{
    let mut rows = Vec::new(alloc);
    let mut left = numbers;
    for _row in 0..count {
        rows.push(row_of(schema, left))?;
        left = behind(schema, left);
    }
    Ok(rows)
}

/// The rows of these numbers. Refused `Width` where they are not as wide as the table, and `TooManyRows`.
fn read_rows(
    alloc: Global,
    schema: &Schema,
    count: usize,
    width: usize,
    numbers: &[i64],
) -> Result<Vec<Row>, TableFault>
    requires { count ≤ 65536 → width ≤ 16 → HaveRows width count numbers.now }
    ensures { Gives (λ rows. rows.items) result (rows_of (length schema.now) count width numbers.now) }
{
    if count == 0 {
        return Ok(Vec::new(alloc));
    }
    if width != schema.width() {
        return Err(TableFault::Width { row: 1 });
    }
    if count > MOST_ROWS {
        return Err(TableFault::TooManyRows);
    }
    Ok(cut_rows(alloc, schema, count, numbers)?)
}

/// The column, from 1 on, in whose name a header has a line end.
fn line_end(header: &[u8]) -> Option<u64>
    ensures { result ≡ line_end_from 1 header.now }
{
    let mut col = 1;
    for byte in header {
        match *byte {
            b'\n' | b'\r' => return Some(col),
            b',' => col += 1,
            _ => {}
        }
    }
    None
}

impl Table {
    /// Opens the table of these names and rows, which has taken no line.
    fn of(alloc: Global, setup: Setup, schema: Schema, rows: &[Row]) -> Result<Table, Fault>
        ensures { OpensTable setup (Ok (schema, rows.now)) result }
    {
        let capacity = setup.capacity();
        let machine = match Machine::new(alloc, setup, rows) {
            Ok(machine) => machine,
            Err(CoreFault::OutOfMemory) => return Err(Fault::Memory),
            Err(why) => return Err(Fault::Opening(why)),
        };
        Ok(Table {
            live: LiveTable {
                schema,
                machine,
                number: 1,
            },
            answer: RankedList::of(Vec::new(alloc)),
            text: String::new(alloc),
            capacity,
        })
    }

    /// Opens the table of a text; its first line is line 1.
    pub fn open(alloc: Global, sizes: &Sizes, text: &[u8]) -> Result<Table, Fault>
        ensures { Opens (limits_of sizes.now (feeds text.now)) (table_of text.now) result }
    {
        let setup = setup_of(sizes, count_feeds(text))?;
        let (schema, rows) = read_table(alloc, text)?;
        Table::of(alloc, setup, schema, rows.as_slice())
    }

    /// Opens the table of a header and of `count` rows of these numbers, each of which has `width`.
    pub fn open_rows(
        alloc: Global,
        sizes: &Sizes,
        header: &[u8],
        count: usize,
        width: usize,
        numbers: &[i64],
    ) -> Result<Table, Fault>
        requires { count ≤ 65536 → width ≤ 16 → HaveRows width count numbers.now }
        ensures { Opens (limits_of sizes.now count) (numbers_table header.now count width numbers.now) result }
    {
        let setup = setup_of(sizes, count)?;
        if let Some(col) = line_end(header) {
            return Err(Fault::Values(TableFault::BadName { col }));
        }
        let (schema, _) = read_table(alloc, header)?;
        let rows = read_rows(alloc, &schema, count, width, numbers)?;
        Table::of(alloc, setup, schema, rows.as_slice())
    }

    /// Gives it a line, without its end, and returns how many bytes the replies have that it keeps. Refused `Memory` alone, also after 2^62 lines; it is to be
    /// given no more lines then.
    fn reply_to(&mut self, alloc: Global, line: &[u8]) -> Result<u64, Fault>
        ensures { Replies line.now self.old result self.new }
    {
        if self.live.number >= MOST_LINES {
            return Err(Fault::Memory);
        }
        match self.live.reply_to(alloc, line, &mut self.text) {
            Ok(()) => Ok(self.text.len() as u64),
            Err(_) => Err(Fault::Memory),
        }
    }

    /// Gives it lines, one after the other, and returns how many bytes the replies have that it keeps. Refused as [`Table::reply_to`] is.
    pub fn reply_to_lines(&mut self, alloc: Global, lines: &[u8]) -> Result<u64, Fault>
        ensures { RepliesEach (raw_lines lines.now) self.old result self.new }
    {
        let mut size = self.text.len() as u64;
        let mut left = lines;
        while !left.is_empty() {
            let (line, tail) = cut_line(left);
            size = self.reply_to(alloc, line_text(line))?;
            left = tail;
        }
        Ok(size)
    }

    /// Lets the replies go that it keeps.
    pub fn forget_replies(&mut self)
        ensures { KeepsNoReplies self.old self.new }
    {
        self.text.clear();
        self.text.shrink_to(KEPT_BYTES);
    }
}
