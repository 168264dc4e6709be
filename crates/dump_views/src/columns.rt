//! Columns of a line.

ghost use Rattle.std.specs.Prelude.{◌≡◌, ◌≤◌, ◌+◌, ◌++◌, length};
ghost use Rattle.dump_views.specs.Texts.{right_aligned};

use script_lines::{MAX_TEXT, Text};

/// The room of a length.
const WIDTH: usize = 8;

/// Adds a text of 20 bytes at most, at the right end of a column of eight; a longer text takes its own room.
pub fn push_aligned(text: &mut Text, column: &[u8])
    requires room { length text.old + 20 ≤ MAX_TEXT }
    requires short { length column.now ≤ 20 }
    ensures value { text.new ≡ text.old ++ right_aligned column.now }
    ensures fits { length text.new ≤ length text.old + 20 }
{
    text.push(&[b' '; WIDTH][..WIDTH.saturating_sub(column.len())]);
    text.push(column);
}
