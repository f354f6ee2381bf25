//! The calls that give a table lines of the language of `prefq live`.
ghost use Rattle.std.specs.Prelude.{◌≡◌, ◌<◌, IfSome, IsSome, length, string_bytes};
ghost use Rattle.pref_script.specs.Script.{raw_lines};
ghost use Rattle.prefq_c.specs.Ends.{Ends, Put};
ghost use Rattle.prefq_c.specs.Lines.{KeepsNoReplies, RepliesEach};

use crate::answer::{end, put_text};
use crate::ended::{Ended, Refusal};
use crate::handle::{Handle, freeze, take};
use std::alloc::Global;

/// Gives a table lines, one after the other. Their replies, which are none to a blank line, come behind those that the table keeps; the result is how many bytes
/// these are together.
#[unsafe(no_mangle)]
pub extern "C" fn prefq_table_lines(
    alloc: Global,
    handle: &mut Handle,
    lines: &[u8],
    said: &mut Refusal,
) -> Ended
    requires { IsSome handle.old.value }
    ensures { IfSome handle.old.value (λ before. Ends (RepliesEach (raw_lines lines.now) before) handle.new.value said.old said.new result) }
{
    let mut table = take(alloc, handle);
    let returned = table.reply_to_lines(alloc, lines);
    end(alloc, handle, table, returned, said)
}

/// Copies the replies that a table keeps, and a zero behind them, as far as they fit. The table has them no more then.
#[unsafe(no_mangle)]
pub extern "C" fn prefq_table_replies(alloc: Global, handle: &mut Handle, replies: &mut [u8])
    requires some { IsSome handle.old.value }
    requires room { 0 < length replies.old }
    ensures replies { IfSome handle.old.value (λ before. Put (string_bytes before.text) replies.old replies.new) }
    ensures left { IfSome handle.old.value (λ before. IfSome handle.new.value (λ after. KeepsNoReplies before after)) }
    ensures kept { IsSome handle.new.value }
{
    let mut table = take(alloc, handle);
    put_text(table.text.as_bytes(), replies);
    table.forget_replies();
    *handle = freeze(table);
}
