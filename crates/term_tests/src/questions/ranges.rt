//! Questions with a range: where it is empty, and how far rows lie outside it.
use pref_term::{Relation, TermFault};

/// An empty range is refused at its right end, when its digits are read; a number out of range is refused before.
pub(super) static REFUSED: [(&str, TermFault); 14] = [
    ("best between(x, 5, 4)", TermFault::EmptyRange { at: 19 }),
    ("best between(x, 5, -5)", TermFault::EmptyRange { at: 19 }),
    ("best between(x, -5, - 6)", TermFault::EmptyRange { at: 20 }),
    ("best between(x, 5, 4", TermFault::EmptyRange { at: 19 }),
    ("best between(x, 5, 4, 3)", TermFault::EmptyRange { at: 19 }),
    (
        "best low(x) * between(x, -1, -2) by q",
        TermFault::EmptyRange { at: 29 },
    ),
    (
        "best between(x, 9223372036854775808, 5)",
        TermFault::NumberRange { at: 16 },
    ),
    (
        "best between(x, 5, 9223372036854775808)",
        TermFault::NumberRange { at: 19 },
    ),
    (
        "best between(x, 5, -9223372036854775809)",
        TermFault::NumberRange { at: 19 },
    ),
    ("best between(x, 5, 05) +", TermFault::Unexpected { at: 23 }),
    ("best between(x, 5)", TermFault::Unexpected { at: 17 }),
    ("best between(x, 5, -", TermFault::Unexpected { at: 20 }),
    ("best between(z, 5, 4)", TermFault::UnknownColumn { at: 13 }),
    ("best Between(x, 1, 2)", TermFault::Unexpected { at: 5 }),
];

/// Rows stand by how far they lie outside.
pub(super) static STANDINGS: [(&str, [i64; 3], [i64; 3], Relation); 11] = [
    (
        "best between(x, 5, 9)",
        [4, 0, 0],
        [12, 0, 0],
        Relation::Better,
    ),
    (
        "best between(x, 5, 9)",
        [1, 0, 0],
        [12, 0, 0],
        Relation::Worse,
    ),
    (
        "best between(x, 5, 9)",
        [5, 0, 0],
        [9, 0, 0],
        Relation::Same,
    ),
    (
        "best between(x, 5, 9)",
        [9, 0, 0],
        [10, 0, 0],
        Relation::Better,
    ),
    (
        "best between(x, 5, 9)",
        [5, 0, 0],
        [4, 0, 0],
        Relation::Better,
    ),
    (
        "best between(x, 5, 9)",
        [3, 0, 0],
        [11, 0, 0],
        Relation::Same,
    ),
    (
        "best between(x, 9223372036854775807, 9223372036854775807)",
        [i64::MIN + 1, 0, 0],
        [i64::MIN, 0, 0],
        Relation::Better,
    ),
    (
        "best between(x, -9223372036854775808, -9223372036854775808)",
        [i64::MAX, 0, 0],
        [i64::MAX - 1, 0, 0],
        Relation::Worse,
    ),
    (
        "best between(x, -9223372036854775808, 9223372036854775807)",
        [i64::MIN, 0, 0],
        [i64::MAX, 0, 0],
        Relation::Same,
    ),
    (
        "best -between(x, 4, 6) & low(y)",
        [12, 0, 0],
        [0, 1, 0],
        Relation::Better,
    ),
    (
        "best between(x, 4, 6) by y",
        [5, 1, 0],
        [9, 2, 0],
        Relation::Neither,
    ),
];
