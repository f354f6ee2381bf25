//! What the calls on rows and queries do to a table.
ghost use Rattle.std.specs.Prelude.{◌≡◌, ◌≤◌, ◌+◌, ◌*◌, [], length};
ghost use Rattle.pref_core.specs.declared.event.Act.{Act};
ghost use Rattle.pref_core.specs.declared.event.Reply.{Reply};
ghost use Rattle.prefq_c.specs.Acts.{Abandons, Acts, Begins, BeginsAll, Commits, Deletes, Finishes, Gets, Inserts, InsertsEach, InsertsMany, InsertsWithin, Scans, TellsRoom, Updates, UpdatesFirst, answer_numbers, first_id, width_of};
ghost use Rattle.prefq_c.specs.Openings.{HaveRows, rows_in};

use crate::answer::{copy_cells, put_rows};
use crate::changes::{Piece, changes_of, row_of, updates_of};
use crate::fault::Fault;
use crate::table::{MOST_ROWS, Table, behind};
use pref_core::{CoreFault, RankedList};
use pref_table::{Row, TableFault};
use pref_term::{Ask, Mode, Term, read_ask};
use std::alloc::Global;

/// The client whose acts change rows and look them up.
const CLIENT: u8 = 1;

/// The id of the first of some rows, by that of the first one before and of the next one.
fn first_id(first: u64, id: u64) -> u64
    ensures { result ≡ first_id first id }
{
    if first == 0 { id } else { first }
}

impl Table {
    /// Inserts a row that is one of the table, and returns its id.
    fn insert_row(&mut self, alloc: Global, row: &Row) -> Result<u64, Fault>
        ensures { Acts 1 (Act.Insert row.now) Reply.Inserted self.old result self.new }
    {
        Ok(self.live.machine.insert(alloc, CLIENT, row)?)
    }

    /// Inserts a row, and returns its id.
    pub fn insert(&mut self, alloc: Global, numbers: &[i64]) -> Result<u64, Fault>
        ensures { Inserts numbers.now self.old result self.new }
    {
        let row = Row::of(&self.live.schema, numbers)?;
        self.insert_row(alloc, &row)
    }

    /// Inserts rows, and returns the id of the first one.
    fn insert_rows(&mut self, alloc: Global, count: usize, numbers: &[i64]) -> Result<u64, Fault>
        requires { HaveRows (width_of self.old) count numbers.now }
        ensures { InsertsEach (rows_in (width_of self.old) count numbers.now) self.old result self.new }
    {
        let mut first = 0;
        let mut left = numbers;
        for _row in 0..count {
            let row = row_of(&self.live.schema, left);
            let id = self.insert_row(alloc, &row)?;
            first = first_id(first, id);
            left = behind(&self.live.schema, left);
        }
        Ok(first)
    }

    /// Inserts rows of these numbers, where there is room for all of them, and returns the id of the first one, 0 where there is none.
    fn insert_within(
        &mut self,
        alloc: Global,
        room: Result<u64, Fault>,
        count: usize,
        width: usize,
        numbers: &[i64],
    ) -> Result<u64, Fault>
        requires { count ≤ 65536 → width ≤ 16 → HaveRows width count numbers.now }
        ensures { InsertsWithin room count width numbers.now self.old result self.new }
    {
        if count == 0 {
            return Ok(0);
        }
        if width != self.live.schema.width() {
            return Err(Fault::Values(TableFault::Width { row: 0 }));
        }
        let left = match room {
            Ok(left) => left,
            Err(why) => return Err(why),
        };
        if left < count as u64 || count > MOST_ROWS {
            let needed = u64::from(self.capacity).saturating_sub(left)
                + (count as u64).min(1 << 63);
            return Err(Fault::Act(CoreFault::Full { needed }));
        }
        self.insert_rows(alloc, count, numbers)
    }

    /// The same by the room that there is.
    pub fn insert_many(
        &mut self,
        alloc: Global,
        count: usize,
        width: usize,
        numbers: &[i64],
    ) -> Result<u64, Fault>
        requires { count ≤ 65536 → width ≤ 16 → HaveRows width count numbers.now }
        ensures { InsertsMany count width numbers.now self.old result self.new }
    {
        let room = self.room();
        self.insert_within(alloc, room, count, width, numbers)
    }

    /// Puts another row in place of the one of this id.
    pub fn update(&mut self, alloc: Global, id: u64, numbers: &[i64]) -> Result<u64, Fault>
        ensures { Updates id numbers.now self.old result self.new }
    {
        let row = Row::of(&self.live.schema, numbers)?;
        self.live.machine.update(alloc, CLIENT, id, &row)?;
        Ok(id)
    }

    /// Deletes the row of this id.
    pub fn delete(&mut self, alloc: Global, id: u64) -> Result<u64, Fault>
        ensures { Deletes id self.old result self.new }
    {
        self.live.machine.delete(alloc, CLIENT, id)?;
        Ok(id)
    }

    /// Makes the changes of a commit at one moment, and returns the id of the first row that they add, 0 where they add none.
    pub fn commit(&mut self, alloc: Global, width: usize, pieces: &[Piece]) -> Result<u64, Fault>
        ensures { Commits width pieces.now self.old result self.new }
    {
        let commit = match changes_of(&self.live.schema, width, pieces) {
            Ok(commit) => commit,
            Err(why) => return Err(why),
        };
        Ok(self.live.machine.commit(alloc, CLIENT, &commit)?.first)
    }

    /// Makes the first updates that can be made at one moment, and returns how many they are.
    pub fn update_first(
        &mut self,
        alloc: Global,
        width: usize,
        pieces: &[Piece],
    ) -> Result<u64, Fault>
        ensures { UpdatesFirst width pieces.now self.old result self.new }
    {
        let commit = match updates_of(&self.live.schema, width, pieces) {
            Ok(commit) => commit,
            Err(why) => return Err(why),
        };
        let committed = self.live.machine.commit(alloc, CLIENT, &commit)?;
        Ok(u64::from(committed.changes))
    }

    /// Copies the values of the row of this id, for which there are as many places as columns.
    pub fn get(&self, id: u64, numbers: &mut [i64]) -> Result<u64, Fault>
        ensures { Gets id numbers.old numbers.new self.now result self.now }
    {
        if numbers.len() != self.live.schema.width() {
            return Err(Fault::Values(TableFault::Width { row: 0 }));
        }
        let row = self.live.machine.get(CLIENT, id)?;
        copy_cells(&row, numbers);
        Ok(id)
    }

    /// Returns how many more versions there is room for.
    pub fn room(&self) -> Result<u64, Fault>
        ensures { TellsRoom self.now result self.now }
    {
        Ok(u64::from(self.live.machine.room(CLIENT)?))
    }

    /// Begins a client's query of a question text, and returns how many blocks it has to scan.
    pub fn begin(&mut self, alloc: Global, client: u8, text: &[u8]) -> Result<u64, Fault>
        ensures { Begins client text.now self.old result self.new }
    {
        let ask = read_ask(alloc, &self.live.schema, text)?;
        Ok(u64::from(self.live.machine.begin(client, ask)?))
    }

    /// Begins a client's query of all rows, and returns how many blocks it has to scan.
    pub fn begin_all(&mut self, alloc: Global, client: u8) -> Result<u64, Fault>
        ensures { BeginsAll client self.old result self.new }
    {
        let any_value = Term::Between {
            col: 0,
            left: i64::MIN,
            right: i64::MAX,
        };
        let Ok(ask) = Ask::of(alloc, any_value, Vec::new(alloc), Mode::Best) else {
            return Err(Fault::Memory);
        };
        Ok(u64::from(self.live.machine.begin(client, ask)?))
    }

    /// Scans the next block of a client's query, and returns how many are left.
    pub fn scan(&mut self, alloc: Global, client: u8) -> Result<u64, Fault>
        ensures { Scans client self.old result self.new }
    {
        Ok(u64::from(self.live.machine.scan(alloc, client)?))
    }

    /// Ends a client's query with its answer, which is kept, and returns how many rows it has.
    pub fn finish(&mut self, alloc: Global, client: u8) -> Result<u64, Fault>
        ensures { Finishes client self.old result self.new }
    {
        self.answer = self.live.machine.finish(alloc, client)?;
        Ok(self.answer.len() as u64)
    }

    /// Ends a client's query without an answer.
    pub fn abandon(&mut self, client: u8) -> Result<u64, Fault>
        ensures { Abandons client self.old result self.new }
    {
        self.live.machine.abandon(client)?;
        Ok(0)
    }

    /// Puts the numbers of the answer that is kept into an array of so many places, and keeps it no longer.
    pub fn hand_over(&mut self, alloc: Global, numbers: &mut [i64])
        requires { length numbers.old ≡ length self.old.answer * (2 + width_of self.old) }
        ensures numbers { numbers.new ≡ answer_numbers self.old }
        ensures taken { self.new ≡ record self.old { answer = [] } }
    {
        put_rows(self.live.schema.width(), self.answer.as_slice(), numbers);
        self.answer = RankedList::of(Vec::new(alloc));
    }
}
