//! The answer of an ask, from a partial result.

ghost use Rattle.std.specs.Prelude.{◌≡◌, ◌<◌, Bool, List, cond, map, nat_lt, IfOk, All};
ghost use Rattle.pref_term.specs.AskOrder.{order_of};
ghost use Rattle.pref_term.specs.Better.{in_same_group};
ghost use Rattle.pref_term.specs.Question.{cut_of};
ghost use Rattle.pref_sky.specs.Answers.{answer_of, at_least, count_before};
ghost use Rattle.pref_sky.specs.Levels.{entry_order, levels};
ghost use Rattle.pref_sky.specs.declared.entry.Entry.{Entry};
ghost use Rattle.pref_sky.specs.declared.entry.Ranked.{Ranked};

use crate::entry::Ranked;
use crate::grouped::{InFront, by_group, in_front};
use crate::partial::Partial;
use crate::ranking::drop_below;
use pref_term::{Ask, Mode};
use std::alloc::{AllocError, Global};

/// Of each entry 1 where fewer than `k` of its group are on the levels before its own, else 0.
fn choose(
    alloc: Global,
    columns: &[usize],
    k: usize,
    ranked: &[Ranked],
) -> Result<Vec<u32>, AllocError>
    requires { All (λ column. column < 16) columns.now }
    ensures { IfOk result (λ chosen. chosen.items ≡ map (λ r. cond (nat_lt (count_before (in_same_group columns.now) ranked.now r) k) 1 0) ranked.now) }
{
    let grouped = by_group(alloc, columns, ranked)?;
    let placed = grouped.as_slice();
    let mut chosen = vec![in alloc; 0_u32; ranked.len()]?;
    let mut front = InFront { group: 0, level: 0 };
    for (at, entry) in placed.iter().enumerate() {
        front = in_front(columns, placed, at, front);
        chosen[entry.place] = u32::from(front.level - front.group < k);
    }
    Ok(chosen)
}

/// In each group the first levels that hold `k` entries together.
fn at_least(
    alloc: Global,
    columns: &[usize],
    k: usize,
    mut ranked: Vec<Ranked>,
) -> Result<Vec<Ranked>, AllocError>
    requires { All (λ column. column < 16) columns.now }
    ensures { IfOk result (λ kept. kept.items ≡ at_least (in_same_group columns.now) k ranked.items) }
{
    let chosen = choose(alloc, columns, k, &ranked)?;
    drop_below(&mut ranked, &chosen);
    Ok(ranked)
}

/// The answer of an ask, in order of level, then id, from a partial result at [`Ask::cut`]: where this
/// holds the levels up to the cut of some entries, it is the ask's selection from all of them.
///
/// Cost: that of [`Partial::ranked`]. For "at least" the held entries are also sorted by group and level, and then each is
/// compared with the one before it. Memory: the list alone, and for "at least" 20 bytes for each held entry.
/// `Err` is out of memory.
pub fn answer(alloc: Global, ask: &Ask, partial: &Partial) -> Result<Vec<Ranked>, AllocError>
    ensures { (entries : List Entry) → partial.now ≡ levels (entry_order (order_of ask.now)) entries (cut_of ask.now.mode)
        → IfOk result (λ ranked. ranked.items ≡ answer_of ask.now entries) }
{
    match ask.mode() {
        Mode::Best | Mode::TopLevel(_) => partial.ranked(alloc),
        Mode::AtLeast(k) => at_least(alloc, ask.group(), k as usize, partial.ranked(alloc)?),
    }
}
