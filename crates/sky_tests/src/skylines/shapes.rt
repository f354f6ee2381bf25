//! Partial results by products of two chains: rows of many shapes, which come in blocks of many sizes.
ghost use Rattle.std.specs.Prelude.{◌≡◌, ◌<◌, [], IfOk};
ghost use Rattle.pref_sky.specs.Levels.{HaveDifferentIds};

use super::answers::ask_of;
use super::fixtures::numbered;
use super::groups::add_by_two;
use crate::same::assert_same;
use pref_sky::{Entry, Partial, Ranked, levels};
use pref_table::TableFault;
use pref_term::{Ask, Dominance};
use std::alloc::{AllocError, Global};
use std::process::Abort;
use std::test::Fail;

/// How many rows come.
const ROWS: u32 = 300;

/// After how many rows what is held is looked at, beside the end.
const HALF: usize = 150;

/// The last one is none at all.
const CUTS: [u32; 3] = [1, 3, u32::MAX];

/// The last one is all rows at once.
const BLOCKS: [usize; 5] = [1, 7, 64, 200, 300];

/// The shape of the data, and the order in which the rows come.
#[derive(Clone, Copy, Debug)]
enum Shape {
    /// Fifteen fronts, the best one first.
    Sorted,
    /// Fifteen fronts, the best one last.
    Reversed,
    /// Fifteen fronts in no order.
    Shuffled,
    /// All are equal in the second column.
    OneScore,
    /// All are equal.
    AllTie,
    /// Each is equal to fourteen others.
    FewValues,
}

const SHAPES: [Shape; 6] = [
    Shape::Sorted,
    Shape::Reversed,
    Shape::Shuffled,
    Shape::OneScore,
    Shape::AllTie,
    Shape::FewValues,
];

/// A row of one of fifteen fronts of twenty rows each, from the best one on.
fn of_fronts(place: u32) -> (i64, i64)
    requires { place < 300 }
{
    let step = place % 20;
    (i64::from(step), i64::from(20 + place / 20 - step))
}

/// The row that comes at this place.
fn cells_at(shape: Shape, place: u32) -> (i64, i64)
    requires { place < 300 }
{
    match shape {
        Shape::Sorted => of_fronts(place),
        Shape::Reversed => of_fronts(ROWS - 1 - place),
        Shape::Shuffled => of_fronts(place * 77 % ROWS),
        Shape::OneScore => (i64::from(place * 77 % ROWS), 5),
        Shape::AllTie => (5, 5),
        Shape::FewValues => (i64::from(place * 7 % 5), i64::from(place * 3 % 4)),
    }
}

/// Puts the rows of a shape behind others.
fn push_shape(rows: &mut Vec<(i64, i64)>, shape: Shape) -> Result<(), AllocError> {
    for place in 0..ROWS {
        rows.push(cells_at(shape, place))?;
    }
    Ok(())
}

/// These rows, and behind them those of a shape.
fn of_shape_behind(
    alloc: Global,
    front: &[(i64, i64)],
    shape: Shape,
) -> Result<Vec<Entry>, TableFault>
    ensures { IfOk result (λ entries. HaveDifferentIds entries.items) }
{
    let mut rows = front.to_vec(alloc)?;
    push_shape(&mut rows, shape)?;
    numbered(alloc, &rows)
}

/// The levels up to a cut, of which there are no more than entries.
fn levels_upto<D: Dominance>(
    alloc: Global,
    dominance: &D,
    cut: u32,
    entries: &[Entry],
) -> Result<Vec<Ranked>, AllocError>
    requires { HaveDifferentIds entries.now }
{
    let most = (cut as usize).min(entries.len()) as u32;
    levels(alloc, dominance, 300, most, entries)
}

/// What is held by an order up to a cut, once the first so many entries came, is their levels.
fn check_held_of<D: Dominance>(
    rt: &impl Abort,
    alloc: Global,
    case: &str,
    order: (&D, u32),
    partial: &Partial,
    entries: &[Entry],
    count: usize,
) -> Result<(), Fail>
    requires { HaveDifferentIds entries.now }
{
    let (added, _) = entries.split_at(count.min(entries.len()));
    let wanted = levels_upto(alloc, order.0, order.1, added)?;
    let found = partial.ranked(alloc)?;
    let place = (case, order.1, count);
    assert_same(rt, place, found.as_slice(), wanted.as_slice());
    Ok(())
}

/// Adds entries in blocks to a partial result that holds nothing: it holds the levels of those that came.
fn check_in_blocks<D: Dominance>(
    rt: &impl Abort,
    alloc: Global,
    case: &str,
    order: (&D, u32),
    partial: &mut Partial,
    entries: &[Entry],
    block: usize,
) -> Result<(), Fail>
    requires block { 0 < block }
    requires nothing { partial.old ≡ [] }
    requires ids { HaveDifferentIds entries.now }
{
    let half = entries.len() - HALF.min(entries.len());
    let mut rest = entries;
    'each_block: while !rest.is_empty() {
        let left = rest.len();
        let (front, back) = rest.split_at(block.min(left));
        partial.add(alloc, order.0, 64, order.1, front)?;
        rest = back;
        if rest.is_empty() || (half < left && rest.len() <= half) {
            let count = entries.len().saturating_sub(rest.len());
            check_held_of(rt, alloc, case, order, partial, entries, count)?;
        }
    }
    Ok(())
}

/// Adds entries up to each cut, in blocks of another size each time.
fn check_entries(
    rt: &impl Abort,
    alloc: Global,
    text: &str,
    ask: &Ask,
    entries: &[Entry],
    turn: usize,
) -> Result<(), Fail>
    requires ids { HaveDifferentIds entries.now }
    requires turn { turn < 6 }
{
    for (place, cut) in CUTS.iter().enumerate() {
        let block = BLOCKS[(turn * 3 + place) % 5];
        let mut partial = Partial::empty();
        check_in_blocks(rt, alloc, text, (ask, *cut), &mut partial, entries, block)?;
    }
    Ok(())
}

/// Rows of each shape, by the order of this text.
fn check_shapes(rt: &impl Abort, alloc: Global, text: &str) -> Result<(), Fail> {
    let ask = ask_of(alloc, text.as_bytes())?;
    for (turn, shape) in SHAPES.iter().enumerate() {
        let entries = of_shape_behind(alloc, &[], *shape)?;
        check_entries(rt, alloc, text, &ask, &entries, turn)?;
    }
    Ok(())
}

/// Checks all shapes by the order of each text.
fn check_texts(rt: &impl Abort, alloc: Global, texts: &[&str]) -> Result<(), Fail> {
    for text in texts {
        check_shapes(rt, alloc, text)?;
    }
    Ok(())
}

const TEXTS: [&str; 10] = [
    "best low(x) * low(y)",
    // No chains lead four that all vary: rows that are held meet those alone that came or came down.
    "best low(x) * low(y) * around(x, 7) * around(y, 9)",
    "best -(low(x) * low(y))",
    // A product behind a chain, and one before a chain.
    "best between(y, 12, 20) & (low(x) * high(y))",
    "best (between(x, 5, 9) * between(y, 12, 20)) & high(x)",
    "best low(x) * around(x, 7) by y",
    "skyline of distinct x min, y min",
    "best low(x)",
    "best high(y) & low(x)",
    "skyline of distinct x min, y diff",
];

#[test]
fn rows_of_each_shape(rt: HostRuntime) -> Result<(), Fail> {
    check_texts(&rt, rt.alloc(), &TEXTS)
}

/// Rows by a first order, and rows of few values behind them by a second one, each up to a cut.
struct Change {
    first: (&'static str, u32),
    second: (&'static str, u32),
    front: &'static [(i64, i64)],
}

/// To a partial result that holds nothing the first entries are added by one order, by which they have the same levels as by the
/// other one, and the others by that: then it holds the levels by that of all.
fn check_change(
    rt: &impl Abort,
    alloc: Global,
    case: &Change,
    first: &Ask,
    second: &Ask,
    partial: &mut Partial,
    entries: &[Entry],
) -> Result<(), Fail>
    requires nothing { partial.old ≡ [] }
    requires ids { HaveDifferentIds entries.now }
{
    let first = (first, case.first.1);
    let second = (second, case.second.1);
    let (front, back) = entries.split_at(case.front.len().min(entries.len()));
    let before = levels(alloc, first.0, 64, first.1, front)?;
    let after = levels(alloc, second.0, 64, second.1, front)?;
    let orders = (case.first.0, case.second.0);
    assert_same(rt, orders, before.as_slice(), after.as_slice());
    add_by_two(alloc, first, second, partial, front, back)?;
    let count = entries.len();
    check_held_of(rt, alloc, case.second.0, second, partial, entries, count)
}

fn check_changed(rt: &impl Abort, alloc: Global, case: &Change) -> Result<(), Fail> {
    let entries = of_shape_behind(alloc, case.front, Shape::FewValues)?;
    let before = ask_of(alloc, case.first.0.as_bytes())?;
    let after = ask_of(alloc, case.second.0.as_bytes())?;
    let mut partial = Partial::empty();
    check_change(rt, alloc, case, &before, &after, &mut partial, &entries)
}

fn check_changes(rt: &impl Abort, alloc: Global, cases: &[Change]) -> Result<(), Fail> {
    for case in cases {
        check_changed(rt, alloc, case)?;
    }
    Ok(())
}

const PRODUCT: &str = "best low(x) * low(y)";

const CHAIN: &str = "best low(x) & low(y)";

const WALKED: &str = "best (low(x) * low(y)) & layered(x, {1}, {2, 3})";

const ONCE: &str = "skyline of distinct x min, y min";

const IN_GROUPS: &str = "best low(x) by y";

const ONE_COLUMN: &str = "best low(x)";

/// Two rows of each of two levels, by the product and by the chain of its parts.
const TWO_OF_EACH: &[(i64, i64)] = &[(1, 1), (1, 1), (3, 3), (3, 3)];

const NO_TWO_EQUAL: &[(i64, i64)] = &[(2, 1), (1, 2), (3, 3)];

const OF_ONE_GROUP: &[(i64, i64)] = &[(1, 2), (3, 2), (2, 2)];

/// Each is alone in its group, and they tie.
const ALONE: &[(i64, i64)] = &[(1, 2), (2, 0), (3, 1)];

/// They have two levels, and so the same ones up to either cut.
const TWO_LEVELS: &[(i64, i64)] = &[(1, 3), (3, 1), (3, 3)];

static CHANGES: [Change; 17] = [
    Change {
        first: (PRODUCT, 3),
        second: (CHAIN, 3),
        front: TWO_OF_EACH,
    },
    Change {
        first: (CHAIN, 3),
        second: (PRODUCT, 3),
        front: TWO_OF_EACH,
    },
    Change {
        first: (PRODUCT, 3),
        second: (WALKED, 3),
        front: TWO_OF_EACH,
    },
    Change {
        first: (WALKED, 3),
        second: (CHAIN, 3),
        front: TWO_OF_EACH,
    },
    Change {
        first: (PRODUCT, 3),
        second: (ONCE, 3),
        front: NO_TWO_EQUAL,
    },
    Change {
        first: (ONCE, 3),
        second: (PRODUCT, 3),
        front: NO_TWO_EQUAL,
    },
    Change {
        first: (IN_GROUPS, 4),
        second: (ONE_COLUMN, 4),
        front: OF_ONE_GROUP,
    },
    Change {
        first: (ONE_COLUMN, 4),
        second: (IN_GROUPS, 4),
        front: OF_ONE_GROUP,
    },
    Change {
        first: (IN_GROUPS, 4),
        second: ("best low(y) by x", 4),
        front: ALONE,
    },
    Change {
        first: (PRODUCT, 6),
        second: (PRODUCT, 3),
        front: TWO_LEVELS,
    },
    Change {
        first: (PRODUCT, 3),
        second: (PRODUCT, 6),
        front: TWO_LEVELS,
    },
    Change {
        first: (CHAIN, 6),
        second: (CHAIN, 3),
        front: TWO_LEVELS,
    },
    Change {
        first: (CHAIN, 3),
        second: (CHAIN, 6),
        front: TWO_LEVELS,
    },
    Change {
        first: (ONCE, 6),
        second: (ONCE, 3),
        front: TWO_LEVELS,
    },
    Change {
        first: (ONCE, 3),
        second: (ONCE, 6),
        front: TWO_LEVELS,
    },
    Change {
        first: (IN_GROUPS, 6),
        second: (IN_GROUPS, 3),
        front: TWO_LEVELS,
    },
    Change {
        first: (IN_GROUPS, 3),
        second: (IN_GROUPS, 6),
        front: TWO_LEVELS,
    },
];

#[test]
fn another_question_after_the_first(rt: HostRuntime) -> Result<(), Fail> {
    check_changes(&rt, rt.alloc(), &CHANGES)
}
