//! Products of base terms, which are compared in one loop over their keys, beside terms that are walked.
use pref_term::Relation;

pub(super) static STANDINGS: [(&str, [i64; 3], [i64; 3], Relation); 19] = [
    ("best low(x)", [2, 0, 0], [1, 0, 0], Relation::Worse),
    ("best -high(x)", [1, 0, 0], [2, 0, 0], Relation::Better),
    ("best -low(x)", [1, 0, 0], [2, 0, 0], Relation::Worse),
    (
        "best around(x, 0)",
        [i64::MIN, 0, 0],
        [i64::MAX, 0, 0],
        Relation::Worse,
    ),
    (
        "best -around(x, -9223372036854775808)",
        [i64::MAX, 0, 0],
        [0, 0, 0],
        Relation::Better,
    ),
    (
        "best -between(x, -9223372036854775808, 0)",
        [i64::MAX, 0, 0],
        [i64::MIN, 0, 0],
        Relation::Better,
    ),
    (
        "best low(x) * between(y, 4, 6)",
        [1, 7, 0],
        [1, 2, 0],
        Relation::Better,
    ),
    (
        "best low(x) * high(y) * around(z, 10)",
        [1, 9, 12],
        [1, 9, 7],
        Relation::Better,
    ),
    (
        "best low(x) * high(y) * around(z, 10)",
        [1, 9, 12],
        [1, 9, 8],
        Relation::Same,
    ),
    (
        "best low(x) * low(y) * low(z)",
        [0, 5, 9],
        [1, 5, 8],
        Relation::Neither,
    ),
    (
        "best low(x) * high(x)",
        [1, 0, 0],
        [2, 0, 0],
        Relation::Neither,
    ),
    (
        "best -(low(x) * high(y) * around(z, 10))",
        [1, 9, 12],
        [3, 7, 30],
        Relation::Worse,
    ),
    (
        "best -(-low(x) * around(z, 10))",
        [1, 0, 30],
        [2, 0, 12],
        Relation::Better,
    ),
    (
        "skyline of x min, y max, z diff",
        [1, 9, 3],
        [1, 8, 3],
        Relation::Better,
    ),
    (
        "skyline of x min, y max, z diff",
        [1, 9, 3],
        [1, 8, 4],
        Relation::Neither,
    ),
    // A set, or a priority.
    (
        "best low(x) * pos(y, 2, 5)",
        [1, 2, 0],
        [1, 3, 0],
        Relation::Better,
    ),
    (
        "best low(x) * pos(y, 2, 5)",
        [1, 3, 0],
        [2, 5, 0],
        Relation::Neither,
    ),
    (
        "best low(x) * (low(y) & low(z))",
        [1, 1, 9],
        [1, 2, 0],
        Relation::Better,
    ),
    (
        "best -(low(x) & low(y)) * low(z)",
        [1, 1, 0],
        [0, 2, 0],
        Relation::Better,
    ),
];
