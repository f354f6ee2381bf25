//! The texts of replies and faults.
ghost use Rattle.std.specs.Prelude.{◌≡◌, ◌≤◌, ◌++◌, OnOk, codes, string_bytes};
ghost use Rattle.std.specs.Fmt.{decimal, signed_decimal};
ghost use Rattle.pref_script.specs.Text.{◌<>◌, core_fault_text, level_line, level_lines, refusal_text, refused_line, reply_lines, row_text, table_fault_text, term_fault_text};

use crate::command::Refusal;
use itoa::Buffer;
use pref_core::{Committed, CoreFault, Reply};
use pref_sky::Ranked;
use pref_table::{Row, TableFault};
use pref_term::TermFault;
use std::alloc::AllocError;

/// Appends a number of any size.
#[inline(never)]
fn push_digits(out: &mut String, number: u64) -> Result<(), AllocError>
    ensures { OnOk result (string_bytes out.new ≡ string_bytes out.old ++ decimal number) }
{
    let mut buffer = Buffer::new();
    out.push_str(buffer.format(number))
}

/// Appends a number. Many have one digit, as a client's has: it is appended without a call.
#[inline(always)]
#[tactic(auto, using(crate::proofs::TextLaws::digit_text))]
fn push_number(out: &mut String, number: u64) -> Result<(), AllocError>
    ensures { OnOk result (string_bytes out.new ≡ string_bytes out.old ++ decimal number) }
{
    if number < 10 {
        return out.push((b'0' + number as u8) as char);
    }
    push_digits(out, number)
}

/// Appends a text and the number behind it.
fn push_text_and_number(out: &mut String, text: &str, number: u64) -> Result<(), AllocError>
    ensures { OnOk result (string_bytes out.new ≡ string_bytes out.old ++ (text.now <> decimal number)) }
{
    out.push_str(text)?;
    push_number(out, number)
}

/// Appends a text and the place of a cell behind it.
fn push_text_and_place(out: &mut String, text: &str, row: u64, col: u64) -> Result<(), AllocError>
    ensures { OnOk result (string_bytes out.new ≡ string_bytes out.old ++ (text.now <> decimal row <> codes " col " <> decimal col)) }
{
    push_text_and_number(out, text, row)?;
    push_text_and_number(out, " col ", col)
}

/// Appends the number and the text of a fault of a table.
pub fn push_table_fault(out: &mut String, fault: TableFault) -> Result<(), AllocError>
    ensures { OnOk result (string_bytes out.new ≡ string_bytes out.old ++ table_fault_text fault) }
{
    match fault {
        TableFault::NoColumns => out.push_str("1: no columns"),
        TableFault::TooManyColumns => out.push_str("2: too many columns"),
        TableFault::BadName { col } => push_text_and_number(out, "3: bad name col ", col),
        TableFault::SameName { col } => push_text_and_number(out, "4: same name col ", col),
        TableFault::Width { row } => push_text_and_number(out, "5: width row ", row),
        TableFault::NotWhole { row, col } => push_text_and_place(
            out,
            "6: not whole row ",
            row,
            col,
        ),
        TableFault::OutOfRange { row, col } => push_text_and_place(
            out,
            "7: out of range row ",
            row,
            col,
        ),
        TableFault::TooManyRows => out.push_str("8: too many rows"),
        TableFault::OutOfMemory => out.push_str("9: out of memory"),
    }
}

/// Appends the number and the text of a fault of a question.
pub fn push_term_fault(out: &mut String, fault: TermFault) -> Result<(), AllocError>
    ensures { OnOk result (string_bytes out.new ≡ string_bytes out.old ++ term_fault_text fault) }
{
    match fault {
        TermFault::Unexpected { at } => push_text_and_number(out, "1: unexpected at ", at),
        TermFault::UnknownColumn { at } => push_text_and_number(out, "2: unknown column at ", at),
        TermFault::NumberRange { at } => push_text_and_number(out, "3: number range at ", at),
        TermFault::TooDeep { at } => push_text_and_number(out, "4: too deep at ", at),
        TermFault::TooLong => out.push_str("5: too long"),
        TermFault::BadCount { at } => push_text_and_number(out, "6: bad count at ", at),
        TermFault::NoMinOrMax => out.push_str("7: no min or max"),
        TermFault::OutOfMemory => out.push_str("8: out of memory"),
        TermFault::EmptyRange { at } => push_text_and_number(out, "9: empty range at ", at),
    }
}

/// Appends the number and the text of a refusal of the engine.
pub fn push_core_fault(out: &mut String, fault: CoreFault) -> Result<(), AllocError>
    ensures { OnOk result (string_bytes out.new ≡ string_bytes out.old ++ core_fault_text fault) }
{
    match fault {
        CoreFault::NoSuchClient => out.push_str("1: no such client"),
        CoreFault::Spent => out.push_str("2: spent"),
        CoreFault::QueryOpen => out.push_str("3: query open"),
        CoreFault::NoQuery => out.push_str("4: no query"),
        CoreFault::AllScanned => out.push_str("5: all scanned"),
        CoreFault::NotDone { left } => push_text_and_number(out, "6: not done left ", left),
        CoreFault::NoSuchRow { id } => push_text_and_number(out, "7: no such row ", id),
        CoreFault::Full { needed } => push_text_and_number(out, "8: full needed ", needed),
        CoreFault::OutOfMemory => out.push_str("9: out of memory"),
        CoreFault::Twice { place } => push_text_and_number(out, "12: twice place ", place),
        CoreFault::ChangeCount => out.push_str("13: change count"),
    }
}

/// Appends what is printed for a refused line after its number.
fn push_refusal(out: &mut String, why: &Refusal) -> Result<(), AllocError>
    ensures { OnOk result (string_bytes out.new ≡ string_bytes out.old ++ refusal_text why.now) }
{
    match why {
        Refusal::NotCommand => write!(out, " refused: command"),
        Refusal::Values(fault) => {
            write!(out, " refused table ")?;
            push_table_fault(out, *fault)
        }
        Refusal::Question(fault) => {
            write!(out, " refused term ")?;
            push_term_fault(out, *fault)
        }
        Refusal::Changes(fault) => {
            write!(out, " refused commit ")?;
            push_core_fault(out, *fault)
        }
    }
}

/// Appends the line of a refused line.
pub fn push_refused(out: &mut String, number: u64, why: &Refusal) -> Result<(), AllocError>
    ensures { OnOk result (string_bytes out.new ≡ string_bytes out.old ++ refused_line number why.now) }
{
    write!(out, "line {number}")?;
    push_refusal(out, why)?;
    write!(out, "\n")
}

/// Appends a cell. Many have one digit, as a rating has: it is appended without a call.
#[tactic(auto, using(crate::proofs::TextLaws::digit_text))]
fn push_cell(out: &mut String, cell: i64) -> Result<(), AllocError>
    ensures { OnOk result (string_bytes out.new ≡ string_bytes out.old ++ signed_decimal cell) }
{
    if (0..10).contains(&cell) {
        return out.push((b'0' + cell as u8) as char);
    }
    let mut buffer = Buffer::new();
    out.push_str(buffer.format(cell))
}

/// Appends the cells of a row below the width, with commas between them.
fn push_row(out: &mut String, width: usize, row: &Row) -> Result<(), AllocError>
    requires { width ≤ 16 }
    ensures { OnOk result (string_bytes out.new ≡ string_bytes out.old ++ row_text width row.now) }
{
    for col in 0..width {
        if col > 0 {
            out.push(',')?;
        }
        push_cell(out, row.cell(col))?;
    }
    Ok(())
}

/// Appends the line of a row in an answer.
fn push_level(out: &mut String, width: usize, ranked: &Ranked) -> Result<(), AllocError>
    requires { width ≤ 16 }
    ensures { OnOk result (string_bytes out.new ≡ string_bytes out.old ++ level_line width ranked.now) }
{
    out.push_str("level ")?;
    push_number(out, u64::from(ranked.level))?;
    out.push_str(" id ")?;
    push_number(out, ranked.id)?;
    out.push_str(": ")?;
    push_row(out, width, &ranked.row)?;
    out.push('\n')
}

/// Appends the lines of the rows in an answer.
fn push_levels(out: &mut String, width: usize, rows: &[Ranked]) -> Result<(), AllocError>
    requires { width ≤ 16 }
    ensures { OnOk result (string_bytes out.new ≡ string_bytes out.old ++ level_lines width rows.now) }
{
    for ranked in rows {
        push_level(out, width, ranked)?;
    }
    Ok(())
}

/// Appends what most replies are: a client's number, what became of its command, and a number. It is made a part of its
/// callers, where the size of what became of the command is known: the text is copied without a call.
#[inline(always)]
pub fn push_line(out: &mut String, client: u8, what: &str, number: u64) -> Result<(), AllocError>
    ensures { OnOk result (string_bytes out.new ≡ string_bytes out.old ++ (decimal client <> what.now <> decimal number <> codes "\n")) }
{
    push_number(out, u64::from(client))?;
    out.push_str(what)?;
    push_number(out, number)?;
    out.push('\n')
}

/// Appends the line of a commit.
fn push_committed(out: &mut String, client: u8, done: &Committed) -> Result<(), AllocError>
    ensures { OnOk result (string_bytes out.new ≡ string_bytes out.old ++ reply_lines 0 client (Reply.Committed done.now)) }
{
    let Committed { changes, first } = done;
    write!(out, "{client} committed {changes} first {first}\n")
}

/// Appends the line of an answer's size, and those of its rows.
fn push_answer(
    out: &mut String,
    width: usize,
    client: u8,
    rows: &[Ranked],
) -> Result<(), AllocError>
    requires { width ≤ 16 }
    ensures { OnOk result (string_bytes out.new ≡ string_bytes out.old ++ reply_lines width client (Reply.Answer rows.now)) }
{
    push_line(out, client, " answer ", rows.len() as u64)?;
    push_levels(out, width, rows)
}

/// Appends the line of the end of a query without an answer.
fn push_abandoned(out: &mut String, client: u8) -> Result<(), AllocError>
    ensures { OnOk result (string_bytes out.new ≡ string_bytes out.old ++ reply_lines 0 client Reply.Abandoned) }
{
    push_number(out, u64::from(client))?;
    out.push_str(" abandoned\n")
}

/// Appends the line of a row that was got.
fn push_found(
    out: &mut String,
    width: usize,
    client: u8,
    id: u64,
    row: &Row,
) -> Result<(), AllocError>
    requires { width ≤ 16 }
    ensures { OnOk result (string_bytes out.new ≡ string_bytes out.old ++ reply_lines width client (Reply.Found id row.now)) }
{
    push_number(out, u64::from(client))?;
    push_text_and_number(out, " row ", id)?;
    out.push_str(": ")?;
    push_row(out, width, row)?;
    out.push_str("\n")
}

/// Appends the line of a client's act that is refused. It stays a call of its own, since it is rare.
#[inline(never)]
pub fn push_refused_act(out: &mut String, client: u8, why: CoreFault) -> Result<(), AllocError>
    ensures { OnOk result (string_bytes out.new ≡ string_bytes out.old ++ reply_lines 0 client (Reply.Refused why)) }
{
    write!(out, "{client} refused ")?;
    push_core_fault(out, why)?;
    write!(out, "\n")
}

/// Appends the line or the lines of a reply to a client. Rows are printed over the width of the table.
pub fn push_reply(
    out: &mut String,
    width: usize,
    client: u8,
    reply: &Reply,
) -> Result<(), AllocError>
    requires { width ≤ 16 }
    ensures { OnOk result (string_bytes out.new ≡ string_bytes out.old ++ reply_lines width client reply.now) }
{
    match reply {
        Reply::Inserted(id) => push_line(out, client, " inserted ", *id),
        Reply::Updated(id) => push_line(out, client, " updated ", *id),
        Reply::Deleted(id) => push_line(out, client, " deleted ", *id),
        Reply::Committed(done) => push_committed(out, client, done),
        Reply::Begun(blocks) => push_line(out, client, " begun ", u64::from(*blocks)),
        Reply::Left(blocks) => push_line(out, client, " left ", u64::from(*blocks)),
        Reply::Answer(rows) => push_answer(out, width, client, rows.as_slice()),
        Reply::Abandoned => push_abandoned(out, client),
        Reply::Found(id, row) => push_found(out, width, client, *id, row),
        Reply::Room(room) => push_line(out, client, " room ", u64::from(*room)),
        Reply::Refused(why) => push_refused_act(out, client, *why),
    }
}
