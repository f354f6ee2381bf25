//! Runs with commits of several changes.

use crate::acts::Changes::{Adds, Removes, Sets};
use crate::acts::Does::{
    Abandons, Asks, AsksRoom, Begins, Commits, Finishes, Gets, Inserts, Scans,
};
use crate::run::Run;

/// Each run with what it shows.
static COMMITS: [Run; 13] = [
    // A query sees a whole commit or nothing of it.
    Run {
        clients: 4,
        capacity: 4,
        block: 4,
        opening: &[5, 7],
        turns: &[
            (1, Begins, "begun 1"),
            (
                2,
                Commits(&[Removes(1), Adds(3), Sets(2, 1)]),
                "committed 3 first 3",
            ),
            (1, Scans, "left 0"),
            (1, Finishes, "answer 1\nlevel 1 id 1: 5"),
            (2, Asks("top_level 2 low(x)"), "begun 1"),
            (2, Scans, "left 0"),
            (2, Finishes, "answer 2\nlevel 1 id 2: 1\nlevel 2 id 3: 3"),
            (2, AsksRoom, "room 2"),
        ],
    },
    // The slots of rows that a commit ends are free for those that it begins.
    Run {
        clients: 4,
        capacity: 2,
        block: 2,
        opening: &[1, 2],
        turns: &[
            (1, Commits(&[Adds(9), Removes(2)]), "committed 2 first 3"),
            (
                1,
                Commits(&[Sets(1, 4), Sets(2, 5)]),
                "refused 7: no such row 2",
            ),
            (1, Commits(&[Adds(6), Adds(7)]), "refused 8: full needed 4"),
            (1, Gets(1), "row 1: 1"),
            (1, AsksRoom, "room 0"),
        ],
    },
    // A row that a commit adds is not there yet, and a refused commit uses no id.
    Run {
        clients: 4,
        capacity: 4,
        block: 4,
        opening: &[1],
        turns: &[
            (
                1,
                Commits(&[Adds(5), Sets(2, 6)]),
                "refused 7: no such row 2",
            ),
            (1, Inserts(9), "inserted 2"),
            (1, Commits(&[Adds(1), Adds(2)]), "committed 2 first 3"),
            (1, AsksRoom, "room 0"),
        ],
    },
    // The first missing row from the left comes before a full table.
    Run {
        clients: 4,
        capacity: 2,
        block: 2,
        opening: &[1, 2],
        turns: &[
            (
                1,
                Commits(&[Adds(5), Adds(6), Removes(9), Removes(8)]),
                "refused 7: no such row 9",
            ),
            (
                1,
                Commits(&[Sets(2, 7), Removes(4), Sets(9, 1)]),
                "refused 7: no such row 4",
            ),
            (1, Gets(2), "row 2: 2"),
        ],
    },
    // All rows of a full table are replaced.
    Run {
        clients: 4,
        capacity: 2,
        block: 2,
        opening: &[1, 2],
        turns: &[
            (
                1,
                Commits(&[Adds(7), Removes(1), Adds(8), Removes(2)]),
                "committed 4 first 3",
            ),
            (1, Gets(3), "row 3: 7"),
            (1, Gets(4), "row 4: 8"),
            (1, Gets(1), "refused 7: no such row 1"),
            (1, AsksRoom, "room 0"),
            (1, Asks("top_level 2 low(x)"), "begun 1"),
            (1, Scans, "left 0"),
            (1, Finishes, "answer 2\nlevel 1 id 3: 7\nlevel 2 id 4: 8"),
        ],
    },
    // A commit is full by all its changes, beside an open query.
    Run {
        clients: 4,
        capacity: 3,
        block: 3,
        opening: &[1, 2],
        turns: &[
            (1, Begins, "begun 1"),
            (
                2,
                Commits(&[Sets(1, 3), Sets(2, 4)]),
                "refused 8: full needed 4",
            ),
            (2, Commits(&[Sets(1, 3), Removes(2)]), "committed 2 first 0"),
            (2, AsksRoom, "room 0"),
            (2, Commits(&[Sets(1, 7)]), "committed 1 first 0"),
            (2, Commits(&[Adds(5), Removes(1)]), "committed 2 first 3"),
            (
                2,
                Commits(&[Adds(5), Adds(6), Removes(3)]),
                "refused 8: full needed 4",
            ),
            (1, Scans, "left 0"),
            (1, Finishes, "answer 1\nlevel 1 id 1: 1"),
            (2, AsksRoom, "room 2"),
            (2, Commits(&[Adds(6), Adds(8)]), "committed 2 first 4"),
            (2, AsksRoom, "room 0"),
        ],
    },
    // A query needs what a commit of its own client ends.
    Run {
        clients: 4,
        capacity: 2,
        block: 1,
        opening: &[4],
        turns: &[
            (1, Begins, "begun 2"),
            (1, Scans, "left 1"),
            (1, Commits(&[Removes(1), Adds(3)]), "committed 2 first 2"),
            (1, Commits(&[Removes(2), Adds(2)]), "committed 2 first 3"),
            (1, AsksRoom, "room 0"),
            (1, Scans, "left 0"),
            (1, Finishes, "answer 1\nlevel 1 id 1: 4"),
            (1, Gets(3), "row 3: 2"),
            (1, AsksRoom, "room 1"),
        ],
    },
    // A query between two commits sees the first whole.
    Run {
        clients: 4,
        capacity: 6,
        block: 2,
        opening: &[1, 2],
        turns: &[
            (
                1,
                Commits(&[Sets(2, 8), Adds(3), Removes(1)]),
                "committed 3 first 3",
            ),
            (1, Asks("top_level 2 low(x)"), "begun 3"),
            (
                2,
                Commits(&[Sets(3, 9), Sets(2, 1), Adds(0)]),
                "committed 3 first 4",
            ),
            (2, Asks("top_level 3 low(x)"), "begun 3"),
            (1, Scans, "left 2"),
            (1, Scans, "left 1"),
            (2, Scans, "left 2"),
            (
                2,
                Commits(&[Removes(2), Removes(3), Removes(4)]),
                "committed 3 first 0",
            ),
            (1, Scans, "left 0"),
            (2, Scans, "left 1"),
            (2, Scans, "left 0"),
            (1, Finishes, "answer 2\nlevel 1 id 3: 3\nlevel 2 id 2: 8"),
            (
                2,
                Finishes,
                "answer 3\nlevel 1 id 4: 0\nlevel 2 id 2: 1\nlevel 3 id 3: 9",
            ),
            (1, AsksRoom, "room 6"),
        ],
    },
    // Added rows are named by no change.
    Run {
        clients: 4,
        capacity: 1024,
        block: 1024,
        opening: &[1, 2],
        turns: &[
            (
                1,
                Commits(&[Adds(1), Adds(1), Sets(1, 5)]),
                "committed 3 first 3",
            ),
            (1, Commits(&[Removes(9)]), "refused 7: no such row 9"),
            (
                1,
                Commits(&[Removes(18446744073709551615)]),
                "refused 7: no such row 18446744073709551615",
            ),
        ],
    },
    // Eight rows are added, and eight removed.
    Run {
        clients: 4,
        capacity: 9,
        block: 9,
        opening: &[1],
        turns: &[
            (
                1,
                Commits(&[
                    Adds(1),
                    Adds(2),
                    Adds(3),
                    Adds(4),
                    Adds(5),
                    Adds(6),
                    Adds(7),
                    Adds(8),
                ]),
                "committed 8 first 2",
            ),
            (1, AsksRoom, "room 0"),
            (
                1,
                Commits(&[
                    Removes(2),
                    Removes(3),
                    Removes(4),
                    Removes(5),
                    Removes(6),
                    Removes(7),
                    Removes(8),
                    Removes(9),
                ]),
                "committed 8 first 0",
            ),
            (1, AsksRoom, "room 8"),
            (1, Inserts(5), "inserted 10"),
        ],
    },
    // A version that two queries need counts once, and removes alone are never refused as full.
    Run {
        clients: 4,
        capacity: 3,
        block: 3,
        opening: &[1, 2, 3],
        turns: &[
            (1, Begins, "begun 1"),
            (2, Asks("best high(x)"), "begun 1"),
            (3, Commits(&[Removes(1), Removes(3)]), "committed 2 first 0"),
            (3, AsksRoom, "room 0"),
            (3, Commits(&[Adds(5)]), "refused 8: full needed 4"),
            (
                3,
                Commits(&[Sets(2, 5), Removes(1)]),
                "refused 7: no such row 1",
            ),
            (1, Scans, "left 0"),
            (1, Finishes, "answer 1\nlevel 1 id 1: 1"),
            (3, Commits(&[Adds(5)]), "refused 8: full needed 4"),
            (2, Abandons, "abandoned"),
            (3, Commits(&[Adds(5), Adds(6)]), "committed 2 first 4"),
            (3, AsksRoom, "room 0"),
            (
                4,
                Commits(&[Sets(2, 1), Sets(4, 1), Sets(5, 1)]),
                "committed 3 first 0",
            ),
            (4, AsksRoom, "room 0"),
        ],
    },
    // All rows are replaced by others, which is refused beside a query that needs one of the old ones; then each by an update.
    Run {
        clients: 4,
        capacity: 2,
        block: 2,
        opening: &[1],
        turns: &[
            (1, Begins, "begun 1"),
            (2, Inserts(2), "inserted 2"),
            (
                2,
                Commits(&[Adds(7), Removes(1), Adds(8), Removes(2)]),
                "refused 8: full needed 3",
            ),
            (1, Abandons, "abandoned"),
            (
                2,
                Commits(&[Adds(7), Removes(1), Adds(8), Removes(2)]),
                "committed 4 first 3",
            ),
            (2, Commits(&[Sets(4, 7), Sets(3, 8)]), "committed 2 first 0"),
            (1, Asks("top_level 2 low(x)"), "begun 1"),
            (1, Scans, "left 0"),
            (1, Finishes, "answer 2\nlevel 1 id 4: 7\nlevel 2 id 3: 8"),
        ],
    },
    // Each client commits, and reads what another committed.
    Run {
        clients: 4,
        capacity: 2,
        block: 2,
        opening: &[1, 2],
        turns: &[
            (1, Commits(&[Adds(9), Removes(2)]), "committed 2 first 3"),
            (
                2,
                Commits(&[Sets(1, 4), Sets(2, 5)]),
                "refused 7: no such row 2",
            ),
            (3, Commits(&[Adds(6), Adds(7)]), "refused 8: full needed 4"),
            (4, Gets(3), "row 3: 9"),
            (4, Commits(&[Removes(1), Sets(3, 8)]), "committed 2 first 0"),
            (1, Gets(1), "refused 7: no such row 1"),
            (1, Gets(3), "row 3: 8"),
            (1, AsksRoom, "room 1"),
        ],
    },
];

/// Runs with commits of several changes. A function, since a proof pays for all that a `static` holds wherever one is named.
pub fn runs_of_commits() -> &'static [Run] {
    &COMMITS
}
