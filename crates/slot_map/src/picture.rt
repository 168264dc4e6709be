//! The text of a picture.

ghost use Rattle.std.specs.Prelude.{◌≡◌, ◌+◌, ◌≤◌, ◌++◌, map, length};
ghost use Rattle.store_model.specs.Parameters.{Parameters, slots_limit};
ghost use Rattle.script_lines.specs.SinkState.{IsPut, Puts};
ghost use Rattle.slot_map.specs.Pictures as model;
ghost use Rattle.slot_map.specs.Pictures.{used_count, title_text, gate_text, mark_character, is_under_way, marks_title};
ghost use Rattle.slot_map.specs.Pictures.{version_text, marks_text, journal_text, body_text, picture_text};

use crate::rows::write_rows;
use script_lines::{Sink, SinkFault, Text};
use store_base::{DrawKind, Params, version_byte};

/// How many slots are not free, by their characters.
fn used_count(chars: &[u8]) -> u32
    requires { length chars.now ≤ slots_limit }
    ensures { result ≡ used_count chars.now }
{
    let mut used = 0;
    for char in chars {
        if *char != b'.' {
            used += 1;
        }
    }
    used
}

/// The word of a kind of draw.
fn draw_word(kind: DrawKind) -> &'static [u8]
    ensures value { result.now ≡ model.draw_word kind }
    ensures few { length result.now ≤ 6 }
{
    match kind {
        DrawKind::Ruler => b"ruler",
        DrawKind::Sha256 => b"sha256",
    }
}

/// Writes the first line: the parameters, and how many slots are not free.
#[tactic(auto, unfolding(crate::specs::Pictures::title_text))]
fn write_title<W: Sink>(sink: &mut W, params: &Params, used: u32) -> Result<(), SinkFault>
    ensures { IsPut (W.state sink.old) (W.state sink.new) (title_text params.now used) result }
{
    let mut text = Text::new();
    text.push(b"hstore image, version ");
    text.push_number(u32::from(version_byte(params.version())));
    text.push(b", ");
    text.push_number(params.slots());
    text.push(b" slots, ");
    text.push_number(used);
    text.push(b" used, height ");
    text.push_number(u32::from(params.height()));
    text.push(b", ");
    text.push(draw_word(params.kind()));
    text.push(b"\n");
    sink.put(text.as_slice())
}

/// What the commit flag says.
fn flag_words(flag: u8) -> &'static [u8]
    ensures value { result.now ≡ model.flag_words flag }
    ensures few { length result.now ≤ 32 }
{
    if flag == 0 {
        b": no commit is under way\n"
    } else {
        b": a commit is under way\n"
    }
}

/// Writes the line of the commit flag.
#[tactic(auto, unfolding(crate::specs::Pictures::gate_text))]
fn write_gate<W: Sink>(sink: &mut W, flag: u8) -> Result<(), SinkFault>
    ensures { IsPut (W.state sink.old) (W.state sink.new) (gate_text flag) result }
{
    let mut digits = [0; 2];
    let Ok(()) = hex::encode_to_slice([flag], &mut digits) else {
        unreachable!()
    };
    let mut text = Text::new();
    text.push(b"gate ");
    text.push(&digits);
    text.push(flag_words(flag));
    sink.put(text.as_slice())
}

/// The character of a mark: `.` where it is not set, and `+` where it is.
fn mark_character(mark: u8) -> u8
    ensures { result ≡ mark_character mark }
{
    if mark == 0 { b'.' } else { b'+' }
}

/// Puts its character in the place of each mark.
fn show_marks(marks: &mut [u8])
    ensures { marks.new ≡ map mark_character marks.old }
{
    for mark in marks.iter_mut() {
        *mark = mark_character(*mark);
    }
}

/// Whether the commit flag or a mark is set.
fn is_under_way(flag: u8, marks: &[u8]) -> bool
    ensures { result ≡ is_under_way flag marks.now }
{
    flag != 0 || marks.iter().any(|mark| *mark != 0)
}

/// The line before the marks.
fn marks_title(flag: u8) -> &'static [u8]
    ensures { result.now ≡ marks_title flag }
{
    if flag == 0 {
        b"marks: they do not count, since the gate is 00\n"
    } else {
        b"marks: they count, since the gate is set\n"
    }
}

/// Writes the line of the version's mark, by its character.
#[tactic(auto, unfolding(crate::specs::Pictures::version_text))]
fn write_version<W: Sink>(sink: &mut W, character: &[u8]) -> Result<(), SinkFault>
    requires { length character.now ≤ 1 }
    ensures { IsPut (W.state sink.old) (W.state sink.new) (version_text character.now) result }
{
    let mut text = Text::new();
    text.push(b"version ");
    text.push(character);
    text.push(b"\n");
    sink.put(text.as_slice())
}

/// Writes the picture of the marks, whose last one is the version's. Their characters come in their place.
fn write_marks<W: Sink>(
    sink: &mut W,
    flag: u8,
    slots: u32,
    marks: &mut [u8],
) -> Result<(), SinkFault>
    requires in_range { slots ≤ slots_limit }
    requires count { length marks.old ≡ slots + 1 }
    ensures { Puts (W.state sink.old) (W.state sink.new) (marks_text slots flag marks.old) result }
{
    show_marks(marks);
    sink.put(marks_title(flag))?;
    write_rows(sink, &marks[..slots as usize])?;
    write_version(sink, &marks[slots as usize..])
}

/// Writes what is shown of the journal behind the slots: the marks, where the commit flag or one of them is set.
fn write_journal<W: Sink>(
    sink: &mut W,
    flag: u8,
    slots: u32,
    marks: &mut [u8],
) -> Result<(), SinkFault>
    requires in_range { slots ≤ slots_limit }
    requires count { length marks.old ≡ slots + 1 }
    ensures { Puts (W.state sink.old) (W.state sink.new)
        (journal_text slots flag marks.old) result }
{
    if is_under_way(flag, marks) {
        write_marks(sink, flag, slots, marks)
    } else {
        Ok(())
    }
}

/// Writes what stands behind the first line: the commit flag, the slots, and what is shown of the journal.
fn write_body<W: Sink>(
    sink: &mut W,
    flag: u8,
    slots: u32,
    chars: &[u8],
    marks: &mut [u8],
) -> Result<(), SinkFault>
    requires in_range { slots ≤ slots_limit }
    requires chars { length chars.now ≡ slots }
    requires marks { length marks.old ≡ slots + 1 }
    ensures { Puts (W.state sink.old) (W.state sink.new)
        (body_text slots flag chars.now marks.old) result }
{
    write_gate(sink, flag)?;
    write_rows(sink, chars)?;
    write_journal(sink, flag, slots, marks)
}

/// Writes the picture of an image: by its parameters, its commit flag, a character for each slot, and its marks, of
/// which the last one is the version's. Characters come in the place of the marks where those are shown.
pub(crate) fn write_picture<W: Sink>(
    sink: &mut W,
    params: &Params,
    flag: u8,
    chars: &[u8],
    marks: &mut [u8],
) -> Result<(), SinkFault>
    requires slots { length chars.now ≡ params.now.slots }
    requires marks { length marks.old ≡ params.now.slots + 1 }
    ensures { IsPut (W.state sink.old) (W.state sink.new)
        (picture_text params.now flag chars.now marks.old) result }
{
    let slots = params.slots();
    write_title(sink, params, used_count(chars))?;
    write_body(sink, flag, slots, chars, marks)
}
