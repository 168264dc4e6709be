//! Characters in rows of 64, each behind the number of its first one.

ghost use Rattle.std.specs.Prelude.{◌≡◌, ◌+◌, ◌≤◌, ◌++◌, length};
ghost use Rattle.store_model.specs.Parameters.{slots_limit};
ghost use Rattle.script_lines.specs.SinkState.{IsPut, Puts};
ghost use Rattle.slot_map.specs.Pictures.{six_digits, row_text, rows_text};

use itoa::Buffer;
use script_lines::{MAX_TEXT, Sink, SinkFault, Text};

/// How many characters a row has.
const ROW: usize = 64;

/// Adds a number, with as many 0 in front as make six digits of it.
fn push_six(text: &mut Text, number: u32)
    requires { length text.old + 16 ≤ MAX_TEXT }
    ensures value { text.new ≡ text.old ++ six_digits number }
    ensures fits { length text.new ≤ length text.old + 16 }
{
    let mut buffer = Buffer::new();
    let digits = buffer.format(number).as_bytes();
    text.push(&b"000000"[..6usize.saturating_sub(digits.len())]);
    text.push(digits);
}

/// Writes a row, whose first character has this number.
#[tactic(auto, unfolding(crate::specs::Pictures::row_text))]
fn write_row<W: Sink>(sink: &mut W, first: u32, chars: &[u8]) -> Result<(), SinkFault>
    requires { length chars.now ≤ 64 }
    ensures { IsPut (W.state sink.old) (W.state sink.new) (row_text first chars.now) result }
{
    let mut text = Text::new();
    push_six(&mut text, first);
    text.push(b"  ");
    text.push(chars);
    text.push(b"\n");
    sink.put(text.as_slice())
}

/// Writes the characters in rows, each in a put of its own.
pub(crate) fn write_rows<W: Sink>(sink: &mut W, chars: &[u8]) -> Result<(), SinkFault>
    requires { length chars.now ≤ slots_limit }
    ensures { Puts (W.state sink.old) (W.state sink.new) (rows_text chars.now) result }
{
    for row in 0..chars.len().div_ceil(ROW) {
        let first = row * ROW;
        let past = (first + ROW).min(chars.len());
        write_row(sink, first as u32, &chars[first..past])?;
    }
    Ok(())
}
