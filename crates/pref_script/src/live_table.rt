//! A table with its clients that is given its lines one at a time.
ghost use Rattle.std.specs.Prelude.{◌≡◌, ◌<◌, ◌+◌, ◌^◌, string_bytes, OnOk, IfOk, IfErr};
ghost use Rattle.pref_script.specs.LiveTable.{IsOpened, OpeningFault, PrintsLine, next_number};

use crate::fault::RunFault;
use crate::playing::play_line;
use pref_core::{Machine, Setup};
use pref_table::{Schema, read_table};
use std::alloc::Global;

/// A table with its clients and their open queries, and the number of the line that comes next. Who makes calls of its own
/// beside the lines makes them on the machine.
///
/// ```rust
/// let mut live = LiveTable::open(alloc, setup, b"price\n50\n", 5)?;
/// live.reply_to(alloc, b"as 1 insert 45", &mut text)?;
/// print!(rt; "{text}")?;     // 1 inserted 2
/// ```
#[derive(Drop)]
pub struct LiveTable {
    pub schema: Schema,
    pub machine: Machine,
    pub number: u64,
}

impl LiveTable {
    /// Opens the table of a text, which is between the lines `table` and `end` of a script. The next line has this number.
    ///
    /// Refused `Table` or `Opening`, in this order, and `Memory` as soon as memory runs out.
    pub fn open(
        alloc: Global,
        setup: Setup,
        table: &[u8],
        number: u64,
    ) -> Result<LiveTable, RunFault>
        ensures opened { IfOk result (λ live. IsOpened setup table.now number live) }
        ensures fault { IfErr result (λ fault. OpeningFault setup table.now fault) }
    {
        let (schema, rows) = read_table(alloc, table)?;
        let machine = Machine::new(alloc, setup, rows.as_slice())?;
        Ok(LiveTable {
            schema,
            machine,
            number,
        })
    }

    /// Appends the replies to a line, which is given without its end: nothing where it is blank.
    ///
    /// Refused `Memory` alone. The line may have been done then, and the text may have a part of its replies, so the table is to be given no more lines.
    pub fn reply_to(
        &mut self,
        alloc: Global,
        line: &[u8],
        text: &mut String,
    ) -> Result<(), RunFault>
        requires { next_number self.old + 1 < 2 ^ 64 }
        ensures returned { OnOk result (PrintsLine self.old line.now (string_bytes text.old) (string_bytes text.new) self.new) }
        ensures memory { IfErr result (λ fault. fault ≡ RunFault.Memory) }
    {
        play_line(
            alloc,
            &self.schema,
            &mut self.machine,
            self.number,
            line,
            text,
        )?;
        self.number += 1;
        Ok(())
    }
}
