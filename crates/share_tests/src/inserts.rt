//! A task of the tests. It is no test itself, so that must-fail edits can be made to it.

ghost use Rattle.std.specs.Prelude.{◌<◌, ◌^◌, length};
ghost use Rattle.std.specs.Vec.Iter.{into_iter_items};

use pref_core::{Act, Reply};
use pref_share::Task;
use pref_table::Row;
use std::alloc::{AllocError, Global};
use std::vec::IntoIter;

/// Inserts rows, and keeps the ids that they get: 0 for a row that is refused.
#[derive(Drop)]
pub struct Inserts {
    pub rows: IntoIter<Row>,
    pub ids: Vec<u64>,
    ghost few: { length (into_iter_items rows) < 2 ^ 63 },
}

impl Task for Inserts {
    ghost use Rattle.std.specs.Prelude.{◌≡◌, ◌++◌, map};
    ghost use Rattle.std.specs.Vec.Iter.{into_iter_items};
    ghost use Rattle.pref_core.specs.declared.event.Act.TheVariants.{Insert};
    ghost use Rattle.share_tests.specs.Tasks.{id_of};

    ghost left = { λ task. map Insert (into_iter_items task.rows) };

    ghost took = { λ first task replies. task.ids.items ≡ first.ids.items ++ map id_of replies };

    fn next(&mut self, _alloc: Global) -> Result<Option<Act>, AllocError> {
        match self.rows.next() {
            Some(row) => Ok(Some(Act::Insert(row))),
            None => Ok(None),
        }
    }

    fn take(&mut self, reply: Reply) -> Result<(), AllocError> {
        let id = match reply {
            Reply::Inserted(id) => id,
            _ => 0,
        };
        self.ids.push(id)?;
        Ok(())
    }
}
