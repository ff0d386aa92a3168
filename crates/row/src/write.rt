// Rows written into a buffer.
ghost use Rattle.std.specs.Prelude.{◌≡◌, ℕ, ◌≤◌, [], ◌∷◌, length, IsTrue};
ghost use Rattle.std.specs.List.{list_all};
ghost use Rattle.row.specs.declared.row.Row.TheVariants.{Ran};
ghost use Rattle.row.specs.Fields.{field_text, fields_text, refusal_text, is_short};
ghost use Rattle.row.specs.Rows.{runner_text, letter_byte, row_text, Writes};

use crate::field::Field::{self, Text};
use crate::field::{digits, fields_size, put_fields, sign};
use crate::row::{Row, RowFault};
use level::ticked::Letter;

/// No row is longer, its byte 10 counted.
pub const LONGEST_ROW: usize = 99;

// Who ran a tick, with `-` for nobody.
fn runner_field(runner: Option<u8>) -> Field
    ensures text { field_text result ≡ runner_text runner }
    ensures short { IsTrue (is_short result) }
{
    runner.map_or(Text(b"-"), |activity| digits(u32::from(activity)))
}

// The letter of a tick.
fn letter_field(letter: Letter) -> Field
    ensures text { field_text result ≡ letter_byte letter ∷ [] }
    ensures short { IsTrue (is_short result) }
{
    Text(match letter {
        Letter::Constrained { .. } => b"c",
        Letter::Reserved => b"r",
        Letter::Spare => b"s",
        Letter::Idle => b"i",
    })
}

// Writes the fields at the front of the buffer, where it has room for all.
fn write_fields(out: &mut [u8], fields: &[Field]) -> Result<usize, RowFault>
    requires few { length fields.now ≤ 9 }
    requires short { IsTrue (list_all is_short fields.now) }
    ensures { Writes (fields_text fields.now) out.old result out.new }
{
    if out.len() < fields_size(fields) {
        return Err(RowFault::Full);
    }
    Ok(put_fields(out, fields))
}

// `TICK ACTIVITY LETTER` and byte 10, with `-` for nobody
fn write_ran(
    out: &mut [u8],
    tick: i32,
    runner: Option<u8>,
    letter: Letter,
) -> Result<usize, RowFault>
    ensures { Writes (row_text (Ran tick runner letter)) out.old result out.new }
{
    write_fields(
        out,
        &[
            sign(tick),
            digits(tick.unsigned_abs()),
            Text(b" "),
            runner_field(runner),
            Text(b" "),
            letter_field(letter),
            Text(b"\n"),
        ],
    )
}

// `CALL ID no NUMBER` and byte 10
fn write_refusal(
    out: &mut [u8],
    call: &'static [u8],
    id: u16,
    number: u8,
) -> Result<usize, RowFault>
    requires { length call.now ≤ 11 }
    ensures { Writes (refusal_text call.now id number) out.old result out.new }
{
    write_fields(
        out,
        &[
            Text(call),
            digits(u32::from(id)),
            Text(b" no "),
            digits(u32::from(number)),
            Text(b"\n"),
        ],
    )
}

/// Writes a row and byte 10 at the front of the buffer, and returns their length; later bytes stay. A buffer that is shorter
/// holds what it held. No row is longer than 99 bytes.
pub fn write_row(row: &Row, out: &mut [u8]) -> Result<usize, RowFault>
    ensures { Writes (row_text row.now) out.old result out.new }
{
    match *row {
        Row::Ran {
            tick,
            runner,
            letter,
        } => write_ran(out, tick, runner, letter),
        Row::Began { seat } => write_fields(
            out,
            &[Text(b"c "), digits(u32::from(seat)), Text(b" ok\n")],
        ),
        Row::Ended { seat, taken } => write_fields(
            out,
            &[
                Text(b"e "),
                digits(u32::from(seat)),
                Text(b" "),
                digits(taken),
                Text(b"\n"),
            ],
        ),
        Row::BeginRefused { seat, number } => write_refusal(out, b"c ", seat, number),
        Row::EndRefused { seat, number } => write_refusal(out, b"e ", seat, number),
        Row::WakeRefused { activity, number } => write_refusal(out, b"w ", activity, number),
        Row::BlockRefused { activity, number } => write_refusal(out, b"b ", activity, number),
        Row::TickRefused { number } => write_fields(
            out,
            &[Text(b"t no "), digits(u32::from(number)), Text(b"\n")],
        ),
        Row::Malformed { line } => write_fields(out, &[Text(b"? "), digits(line), Text(b"\n")]),
    }
}
