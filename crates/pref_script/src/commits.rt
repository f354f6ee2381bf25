//! The changes of a commit line.
ghost use Rattle.std.specs.Prelude.{◌≡◌, option_map};
ghost use Rattle.pref_script.specs.Commands.{commit_said};
ghost use Rattle.pref_script.specs.Reading.{Reads, first_refusal};

use crate::command::{Refusal, Stop, read_change};
use crate::pieces::{are_changes, cut_piece, piece_form};
use pref_core::{Change, Commit};
use pref_table::Schema;

/// How many changes are kept of a line: one more than a commit has, which shows that there are too many.
const KEPT: usize = 9;

/// The refusal of a line whose piece is refused for its values, by what follows the piece: that one of the pieces there has not
/// the form of a change comes first.
fn refusal_before(why: Stop, rest: Option<&[u8]>) -> Stop
    ensures { result ≡ first_refusal why (option_map (λ pieces. pieces.now) rest.entry) }
{
    match rest {
        Some(pieces) if !are_changes(pieces) => Stop::Refused(Refusal::NotCommand),
        _ => why,
    }
}

/// The commit of a text whose pieces are between semicolons, in one pass. Takes no memory, however many pieces there are.
///
/// A piece that has not the form of a change is refused before any values, and these before the number of the changes and their ids.
#[tactic(auto, unfolding(crate::specs::Commands::commit_said))]
pub fn read_commit(schema: &Schema, text: &[u8]) -> Result<Commit, Stop>
    ensures { Reads result (commit_said schema.now text.now) }
{
    let mut changes = [Change::Remove(0); KEPT];
    let mut count = 0;
    let mut left = Some(text);
    while let Some(pieces) = left {
        let (piece, rest) = cut_piece(pieces);
        let Some(form) = piece_form(piece) else {
            return Err(Stop::Refused(Refusal::NotCommand));
        };
        let change = match read_change(schema, form) {
            Ok(change) => change,
            Err(why) => return Err(refusal_before(why, rest)),
        };
        if count < KEPT {
            changes[count] = change;
            count += 1;
        }
        left = rest;
    }
    match Commit::of(&changes[..count]) {
        Ok(commit) => Ok(commit),
        Err(why) => Err(Stop::Refused(Refusal::Changes(why))),
    }
}
