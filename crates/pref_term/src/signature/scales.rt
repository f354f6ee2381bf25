//! Lists of scales, by which rows are signed.
ghost use Rattle.std.specs.Prelude.{◌≡◌, ◌<◌, true, All, List, []};
ghost use Rattle.pref_term.specs.Signatures.{signature};

use crate::signature::scale::Scale;
use pref_table::Row;
use std::marker::Model;

/// The tests by which rows are signed: whether a row's number by a key reaches a mark. The outcomes are the bits of the
/// row's signature.
///
/// Signatures by the same scales can be compared by [`is_within`](crate::engine::is_within), which spares most comparisons of rows
/// where the scales suit the order, as those of [`Ask::scales`](crate::Ask::scales) do. Contracts see their list; which scales
/// these are can be seen in no answer.
#[derive(Drop)]
pub struct Scales {
    scales: Option<Vec<Scale>>,
}

impl Model for Scales {
    ghost use Rattle.std.specs.Prelude.{◌<◌, All, List, []};
    ghost use Rattle.std.specs.Option.{option_map_or};
    ghost use Rattle.pref_term.specs.declared.signature.scale.Scale.{Scale};

    ghost Value = { List Scale };

    ghost view = { λ c. option_map_or (λ v. v.items) c.scales [] };

    ghost invariant = { λ c. All (λ scale. scale.key.col < 16) (option_map_or (λ v. v.items) c.scales []) };
}

impl Scales {
    /// No scales: each signature is 0, which distinguishes no rows. They suit every order. Takes no memory.
    #[must_use]
    pub fn none() -> Scales
        ensures { result ≡ [] }
    {
        Scales { scales: None }
    }

    /// Whether these are [`Scales::none`]. Scales from a sample in which no key has two numbers are not, and have no bit either.
    pub fn is_none(&self) -> bool
        ensures { result ≡ true → self.now ≡ [] }
    {
        self.scales.is_none()
    }

    /// These scales. Of more than 64 the last 64 have bits. Takes no memory.
    pub(super) fn of(scales: Vec<Scale>) -> Scales
        requires { All (λ scale. scale.key.col < 16) scales.items }
        ensures { result ≡ scales.items }
    {
        Scales {
            scales: Some(scales),
        }
    }

    /// The scales.
    fn as_slice(&self) -> &[Scale]
        ensures scales { result.now ≡ self.now }
        ensures within { All (λ scale. scale.key.col < 16) result.now }
    {
        match &self.scales {
            None => &[],
            Some(scales) => scales.as_slice(),
        }
    }

    /// The signature of a row. Of more than 64 bits it has the last 64. Takes no memory; costs one comparison of numbers for
    /// each mark.
    pub fn signature(&self, row: &Row) -> u64
        ensures { result ≡ signature self.now row.now }
    {
        let mut bits = 0;
        for scale in self.as_slice() {
            bits = scale.sign_onto(bits, row);
        }
        bits
    }
}
