//! The counts of a question text.

ghost use Rattle.std.specs.Prelude.{◌≡◌, true, false, MatchOption};
ghost use Rattle.std.specs.Str.{all_ascii_digits};
ghost use Rattle.std.specs.Str.Parse.{digits_value};
ghost use Rattle.pref_term.specs.Question.{is_count};

use pref_table::engine::signed_number;

/// The most levels or rows that a question asks for.
pub(crate) const MAX_COUNT: i64 = 1000;

/// The count that the digits name, where it is from 1 to 1000.
pub(crate) fn count_value(digits: &[u8]) -> Option<u32>
    requires { all_ascii_digits digits.now ≡ true }
    ensures { let value = digits_value 10 digits.now in
        MatchOption result (is_count value ≡ false) (λ k. (k ≡ value) × (is_count value ≡ true)) }
{
    let value = signed_number(false, digits)?;
    if value < 1 || value > MAX_COUNT {
        return None;
    }
    u32::try_from(value).ok()
}
