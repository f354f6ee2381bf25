//! Runs with queries beside inserts, updates and deletes.

use crate::acts::Does::{
    Abandons, AsksRoom, Begins, Deletes, Finishes, Gets, Inserts, Scans, Updates,
};
use crate::run::Run;

const A_QUERY_ANSWERS_THE_TABLE_AT_ITS_BEGIN: Run = Run {
    clients: 4,
    capacity: 1024,
    block: 1024,
    opening: &[],
    turns: &[
        (1, Inserts(30), "inserted 1"),
        (1, Inserts(10), "inserted 2"),
        (2, Inserts(20), "inserted 3"),
        (1, Begins, "begun 1"),
        (2, Inserts(5), "inserted 4"),
        (1, Scans, "left 0"),
        (1, Finishes, "answer 1\nlevel 1 id 2: 10"),
        (3, Gets(4), "row 4: 5"),
        (3, AsksRoom, "room 1020"),
    ],
};

const AN_EMPTY_TABLE_IS_SCANNED_IN_TWO_BLOCKS: Run = Run {
    clients: 4,
    capacity: 4,
    block: 2,
    opening: &[],
    turns: &[
        (1, Begins, "begun 2"),
        (1, Scans, "left 1"),
        (1, Scans, "left 0"),
        (1, Finishes, "answer 0"),
    ],
};

pub const A_DELETED_ROW_IS_STILL_ANSWERED: Run = Run {
    clients: 2,
    capacity: 4,
    block: 2,
    opening: &[5, 7, 9],
    turns: &[
        (1, Begins, "begun 2"),
        (1, Scans, "left 1"),
        (2, Deletes(1), "deleted 1"),
        (2, Inserts(1), "inserted 4"),
        (2, AsksRoom, "room 0"),
        (1, Scans, "left 0"),
        (1, Finishes, "answer 1\nlevel 1 id 1: 5"),
        (2, Begins, "begun 2"),
        (2, Scans, "left 1"),
        (2, Scans, "left 0"),
        (2, Finishes, "answer 1\nlevel 1 id 4: 1"),
    ],
};

const ROOM_IS_EXACT: Run = Run {
    clients: 4,
    capacity: 2,
    block: 2,
    opening: &[1, 2],
    turns: &[
        (1, Begins, "begun 1"),
        (2, Updates(1, 9), "refused 8: full needed 3"),
        (1, Abandons, "abandoned"),
        (2, Updates(1, 9), "updated 1"),
        (2, Gets(1), "row 1: 9"),
        (2, AsksRoom, "room 0"),
    ],
};

const A_FULL_TABLE_TAKES_AN_UPDATE: Run = Run {
    clients: 4,
    capacity: 2,
    block: 2,
    opening: &[1, 2],
    turns: &[
        (1, Updates(2, 6), "updated 2"),
        (1, AsksRoom, "room 0"),
        (1, Inserts(8), "refused 8: full needed 3"),
        (1, Deletes(2), "deleted 2"),
        (1, AsksRoom, "room 1"),
        (1, Inserts(8), "inserted 3"),
    ],
};

const REFUSALS_COME_IN_THEIR_ORDER: Run = Run {
    clients: 4,
    capacity: 2,
    block: 1,
    opening: &[4],
    turns: &[
        (1, Finishes, "refused 4: no query"),
        (1, Begins, "begun 2"),
        (1, Begins, "refused 3: query open"),
        (1, Finishes, "refused 6: not done left 2"),
        (1, Scans, "left 1"),
        (1, Scans, "left 0"),
        (1, Scans, "refused 5: all scanned"),
        (1, Finishes, "answer 1\nlevel 1 id 1: 4"),
        (1, Abandons, "refused 4: no query"),
        (9, AsksRoom, "refused 1: no such client"),
        (0, Scans, "refused 1: no such client"),
        (1, Gets(7), "refused 7: no such row 7"),
    ],
};

const A_REFUSED_INSERT_USES_NO_ID: Run = Run {
    clients: 4,
    capacity: 2,
    block: 1,
    opening: &[],
    turns: &[
        (1, Inserts(4), "inserted 1"),
        (1, Begins, "begun 2"),
        (2, Inserts(3), "inserted 2"),
        (2, Inserts(9), "refused 8: full needed 3"),
        (1, Scans, "left 1"),
        (1, Scans, "left 0"),
        (1, Finishes, "answer 1\nlevel 1 id 1: 4"),
        (1, AsksRoom, "room 0"),
        (2, Deletes(1), "deleted 1"),
        (2, Inserts(6), "inserted 3"),
    ],
};

const TWO_UPDATES_UNDER_A_QUERY_LEAVE_ONE_SLOT: Run = Run {
    clients: 4,
    capacity: 3,
    block: 3,
    opening: &[5],
    turns: &[
        (1, Begins, "begun 1"),
        (2, Updates(1, 1), "updated 1"),
        (2, Updates(1, 2), "updated 1"),
        (2, AsksRoom, "room 1"),
        (1, Scans, "left 0"),
        (1, Finishes, "answer 1\nlevel 1 id 1: 5"),
        (2, AsksRoom, "room 2"),
        (2, Gets(1), "row 1: 2"),
    ],
};

/// A refused call has joined nothing: later calls of the same client succeed, and another client reads the same.
pub const REFUSED_CALLS_HAVE_NOT_JOINED: Run = Run {
    clients: 2,
    capacity: 2,
    block: 1,
    opening: &[4],
    turns: &[
        (1, Finishes, "refused 4: no query"),
        (1, Scans, "refused 4: no query"),
        (1, Begins, "begun 2"),
        (1, Begins, "refused 3: query open"),
        (1, Finishes, "refused 6: not done left 2"),
        (1, Scans, "left 1"),
        (1, Scans, "left 0"),
        (1, Scans, "refused 5: all scanned"),
        (1, Finishes, "answer 1\nlevel 1 id 1: 4"),
        (1, Abandons, "refused 4: no query"),
        (1, Deletes(2), "refused 7: no such row 2"),
        (1, Updates(1, 3), "updated 1"),
        (2, Gets(1), "row 1: 3"),
        (2, AsksRoom, "room 1"),
    ],
};

/// Client 2 leaves its query open, which keeps the version of its begin.
pub const AN_OPEN_QUERY_KEEPS_ITS_VERSION: Run = Run {
    clients: 2,
    capacity: 2,
    block: 2,
    opening: &[5],
    turns: &[
        (2, Begins, "begun 1"),
        (1, Updates(1, 6), "updated 1"),
        (1, Updates(1, 7), "updated 1"),
        (1, AsksRoom, "room 0"),
        (1, Inserts(8), "refused 8: full needed 3"),
        (1, Gets(1), "row 1: 7"),
    ],
};

pub const A_ROW_IS_UPDATED: Run = Run {
    clients: 2,
    capacity: 3,
    block: 2,
    opening: &[5],
    turns: &[
        (1, Begins, "begun 2"),
        (2, Updates(1, 1), "updated 1"),
        (2, Updates(1, 2), "updated 1"),
        (2, AsksRoom, "room 1"),
        (1, Scans, "left 1"),
        (1, Scans, "left 0"),
        (1, Finishes, "answer 1\nlevel 1 id 1: 5"),
        (2, AsksRoom, "room 2"),
        (2, Gets(1), "row 1: 2"),
    ],
};

/// Client K begins after K - 1 updates of the one row, and is answered with the row as it was then, while the slots of
/// the others are needed and used.
const EIGHT_CLIENTS_ASK_AT_EIGHT_STAMPS: Run = Run {
    clients: 8,
    capacity: 9,
    block: 9,
    opening: &[0],
    turns: &[
        (1, Begins, "begun 1"),
        (1, Updates(1, 1), "updated 1"),
        (2, Begins, "begun 1"),
        (2, Updates(1, 2), "updated 1"),
        (3, Begins, "begun 1"),
        (3, Updates(1, 3), "updated 1"),
        (4, Begins, "begun 1"),
        (4, Updates(1, 4), "updated 1"),
        (5, Begins, "begun 1"),
        (5, Updates(1, 5), "updated 1"),
        (6, Begins, "begun 1"),
        (6, Updates(1, 6), "updated 1"),
        (7, Begins, "begun 1"),
        (7, Updates(1, 7), "updated 1"),
        (8, Begins, "begun 1"),
        (8, Updates(1, 8), "updated 1"),
        (1, Scans, "left 0"),
        (1, Finishes, "answer 1\nlevel 1 id 1: 0"),
        (2, Scans, "left 0"),
        (2, Finishes, "answer 1\nlevel 1 id 1: 1"),
        (3, Scans, "left 0"),
        (3, Finishes, "answer 1\nlevel 1 id 1: 2"),
        (4, Scans, "left 0"),
        (4, Finishes, "answer 1\nlevel 1 id 1: 3"),
        (5, Scans, "left 0"),
        (5, Finishes, "answer 1\nlevel 1 id 1: 4"),
        (6, Scans, "left 0"),
        (6, Finishes, "answer 1\nlevel 1 id 1: 5"),
        (7, Scans, "left 0"),
        (7, Finishes, "answer 1\nlevel 1 id 1: 6"),
        (8, Scans, "left 0"),
        (8, Finishes, "answer 1\nlevel 1 id 1: 7"),
        (1, AsksRoom, "room 8"),
    ],
};

static SINGLE_CHANGES: [Run; 12] = [
    A_QUERY_ANSWERS_THE_TABLE_AT_ITS_BEGIN,
    AN_EMPTY_TABLE_IS_SCANNED_IN_TWO_BLOCKS,
    A_DELETED_ROW_IS_STILL_ANSWERED,
    ROOM_IS_EXACT,
    A_FULL_TABLE_TAKES_AN_UPDATE,
    REFUSALS_COME_IN_THEIR_ORDER,
    A_REFUSED_INSERT_USES_NO_ID,
    TWO_UPDATES_UNDER_A_QUERY_LEAVE_ONE_SLOT,
    REFUSED_CALLS_HAVE_NOT_JOINED,
    AN_OPEN_QUERY_KEEPS_ITS_VERSION,
    A_ROW_IS_UPDATED,
    EIGHT_CLIENTS_ASK_AT_EIGHT_STAMPS,
];

/// All of these runs. A function, since a proof pays for all that a `static` holds wherever one is named.
pub fn runs_of_single_changes() -> &'static [Run] {
    &SINGLE_CHANGES
}
