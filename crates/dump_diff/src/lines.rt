//! The lines of differences.

ghost use Rattle.std.specs.Prelude.{◌≡◌};
ghost use Rattle.std.specs.List.{flat_map};
ghost use Rattle.script_lines.specs.SinkState.{IsPut, Puts};
ghost use Rattle.dump_diff.specs.Scripts as model;
ghost use Rattle.dump_diff.specs.Scripts.{difference_line};

use crate::difference::{Difference, Mark};
use crate::differences::Differences;
use script_lines::{Sink, SinkFault, Text};

/// Writes a line for each path at which two trees differ: `D PATH` where the first has an entry alone, `A PATH` where
/// the second has, and `M PATH` where both have and the entries differ.
/// `SinkFault`: a put failed, and no other was made after it. A prefix of the lines may have been written.
pub fn write_differences<W: Sink>(found: &Differences, sink: &mut W) -> Result<(), SinkFault>
    ensures { Puts (W.state sink.old) (W.state sink.new)
        (flat_map difference_line found.now.paths.items) result }
{
    for difference in found.paths() {
        write_difference(difference, sink)?;
    }
    Ok(())
}

/// Writes the line of one path.
#[tactic(auto, unfolding(crate::specs::Scripts::difference_line))]
fn write_difference<W: Sink>(difference: &Difference, sink: &mut W) -> Result<(), SinkFault>
    ensures { IsPut (W.state sink.old) (W.state sink.new) (difference_line difference.now) result }
{
    let mut text = Text::new();
    text.push(letter(difference.mark));
    text.push_path(&difference.path);
    text.push(b"\n");
    sink.put(text.as_slice())
}

/// The letter of a mark, and a space.
fn letter(mark: Mark) -> &'static [u8]
    ensures { result.now ≡ model.letter mark }
{
    match mark {
        Mark::Removed => b"D ",
        Mark::Added => b"A ",
        Mark::Kind | Mark::Bytes | Mark::Attributes => b"M ",
    }
}
