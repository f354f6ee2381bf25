//! Scales by keys that lead an order, from a sample of rows. A signature is right with any marks, so nothing about them is proved: only that
//! each scale's key is one of these keys.
ghost use Rattle.std.specs.Prelude.{◌<◌, All, Contains, List, IfOk, OnOk};
ghost use Rattle.pref_term.specs.Signatures.{IsBy};
ghost use Rattle.pref_term.specs.declared.key.Key.{Key};

use crate::key::Key;
use crate::signature::scale::{MOST_MARKS, Scale};
use crate::signature::scales::Scales;
use pref_table::Row;
use std::alloc::{AllocError, Global};

/// The bits of a signature.
const BITS: usize = 64;

/// The different numbers of the sample's rows, in order.
fn numbers_of(alloc: Global, key: &Key, sample: &[Row]) -> Result<Vec<u64>, AllocError>
    requires { key.now.col < 16 }
{
    let mut numbers = Vec::new(alloc);
    for row in sample {
        numbers.push(key.of(row))?;
    }
    numbers.sort_unstable();
    numbers.dedup();
    Ok(numbers)
}

/// The number in the middle of each of this many equal shares of these; each of them where there are no more.
fn middles_of(alloc: Global, numbers: &[u64], shares: usize) -> Result<Vec<u64>, AllocError>
    requires { 0 < shares }
{
    let share = numbers.len().div_ceil(shares).max(1);
    let mut middles = Vec::new(alloc);
    for (place, number) in numbers.iter().enumerate() {
        if place % share == share / 2 {
            middles.push(*number)?;
        }
    }
    Ok(middles)
}

/// How many of these keys have different numbers in the sample.
fn count_varying(alloc: Global, keys: &[Key], sample: &[Row]) -> Result<usize, AllocError>
    requires { All (λ key. key.col < 16) keys.now }
{
    let mut count: usize = 0;
    for key in keys {
        if numbers_of(alloc, key, sample)?.len() > 1 {
            count = count.saturating_add(1);
        }
    }
    Ok(count)
}

/// Puts a key's scale behind these: so many marks at most, which divide the sample into equal shares. A key that has one number in
/// the whole sample has no scale, since its mark would distinguish nothing.
fn push_key(
    alloc: Global,
    scales: &mut Vec<Scale>,
    key: &Key,
    sample: &[Row],
    shares: usize,
) -> Result<(), AllocError>
    requires column { key.now.col < 16 }
    requires shares { 0 < shares }
    requires within { All (λ scale. scale.key.col < 16) scales.old.items }
    ensures within { OnOk result (All (λ scale. scale.key.col < 16) scales.new.items) }
    ensures by { OnOk result ((keys : List Key) → Contains keys key.now → All (IsBy keys) scales.old.items → All (IsBy keys) scales.new.items) }
{
    let numbers = numbers_of(alloc, key, sample)?;
    if numbers.len() > 1 {
        let marks = middles_of(alloc, &numbers, shares)?;
        let key = key.copy(alloc)?;
        scales.push(Scale::of(key, marks))?;
    }
    Ok(())
}

/// Scales for an order that these keys lead. The bits of a signature are dealt out evenly among the keys that vary in the sample, and a key's
/// marks divide it into equal shares. Takes memory for a key's numbers and for the scales.
pub(crate) fn scales_for(alloc: Global, keys: &[Key], sample: &[Row]) -> Result<Scales, AllocError>
    requires { All (λ key. key.col < 16) keys.now }
    ensures { IfOk result (λ scales. All (IsBy keys.now) scales) }
{
    let varying = count_varying(alloc, keys, sample)?;
    let shares = (BITS / varying.max(1)).min(MOST_MARKS);
    let mut scales = Vec::new(alloc);
    for key in keys {
        push_key(alloc, &mut scales, key, sample, shares.max(1))?;
    }
    Ok(Scales::of(scales))
}
