//! The sizes of a table, as C gives them.
ghost use Rattle.std.specs.Prelude.{◌≡◌, MatchResult};
ghost use Rattle.pref_core.specs.Limits.{AreAllowed};
ghost use Rattle.prefq_c.specs.Openings.{feeds, limits_of, or_else, usual_capacity};
ghost use Rattle.prefq_c.specs.declared.fault.Fault.TheVariants.{Outside};

use crate::fault::Fault;
use pref_core::Setup;

/// The sizes of a setup, where a zero stands for the usual one.
#[repr(C)]
#[derive(Clone, Copy)]
pub struct Sizes {
    pub clients: u32,
    pub capacity: u32,
    pub block: u32,
    pub window: u32,
}

/// The most clients of a table.
const MOST_CLIENTS: u32 = 8;

/// How many line feeds a text has.
pub fn count_feeds(text: &[u8]) -> usize
    ensures { result ≡ feeds text.now }
{
    let mut count = 0;
    for byte in text {
        if *byte == b'\n' {
            count += 1;
        }
    }
    count
}

/// A size that is given, or else the usual one.
fn or_else(size: u32, usual: u32) -> u32
    ensures { result ≡ or_else size usual }
{
    if size == 0 { usual } else { size }
}

/// The usual capacity of a table that opens with so many rows.
fn usual_capacity(rows: usize) -> u32
    ensures { result ≡ usual_capacity rows }
{
    if rows > 32768 {
        return 65536;
    }
    if rows > 512 { 2 * rows as u32 } else { 1024 }
}

/// The setup of these sizes for a table that opens with so many rows. Refused `Outside`.
pub fn setup_of(sizes: &Sizes, rows: usize) -> Result<Setup, Fault>
    ensures { MatchResult result (λ setup. (setup ≡ limits_of sizes.now rows) × AreAllowed (limits_of sizes.now rows)) (λ why. (why ≡ Outside) × (AreAllowed (limits_of sizes.now rows) → ⊥)) }
{
    let clients = or_else(sizes.clients, MOST_CLIENTS);
    if clients > MOST_CLIENTS {
        return Err(Fault::Outside);
    }
    let capacity = or_else(sizes.capacity, usual_capacity(rows));
    let block = or_else(sizes.block, 1024);
    let window = or_else(sizes.window, 64);
    match Setup::new(clients as u8, capacity, block, window) {
        Some(setup) => Ok(setup),
        None => Err(Fault::Outside),
    }
}
