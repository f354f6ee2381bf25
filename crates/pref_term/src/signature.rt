//! Signatures of rows: a word for each row, by which most pairs are distinguished without a comparison.
//!
//! Each bit says whether the row reaches a mark of a scale, by the score of a base term. A row that dominates another reaches no mark that the other does not reach, whatever the marks are: so where a bit of the first is missing in
//! the second, the first does not dominate the second.
//!
//! ```text
//! low(price) * high(stars)
//!
//!                  price, less is better    stars, more is better    signature
//!                  >= 50      >= 100        <= 4       <= 2
//! 60, 3 stars      1          0             1          0             1010
//! 120, 5 stars     1          1             0          0             1100
//! ```
//!
//! Each has a bit that the other lacks, so neither dominates the other, and their cells are not looked at.
ghost use Rattle.std.specs.Prelude.{◌≡◌};
ghost use Rattle.pref_term.specs.Signatures.{is_within};

mod choose;
mod scale;
mod scales;

pub(crate) use choose::scales_for;
pub use scales::Scales;

/// Whether the second signature has each bit that the first one has. If not, the first row neither dominates the second
/// nor is its twin, by any order that the scales of both suit.
#[inline(always)]
pub fn is_within(a: u64, b: u64) -> bool
    ensures { result ≡ is_within a b }
{
    a & !b == 0
}
