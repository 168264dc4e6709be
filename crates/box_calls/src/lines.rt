//! Texts of what an image is.

ghost use Rattle.std.specs.Prelude.{◌≡◌, ◌≤◌, ◌+◌, ◌++◌, length};
ghost use Rattle.std.specs.Fmt.{decimal};
ghost use Rattle.hex.specs.Hex.{encode_lower};
ghost use Rattle.slot_map.specs.Pictures as pictures;
ghost use Rattle.box_calls.specs.Texts as model;
ghost use Rattle.box_calls.specs.Texts.{counts_text, line_if, params_text, contents_text};

use image_check::Contents;
use image_summary::{Summary, SummaryFault};
use script_lines::{MAX_TEXT, Text};
use store_base::{DrawKind, Params, version_byte};

/// Adds a number, and what stands behind it.
fn push_count(text: &mut Text, count: u64, behind: &[u8])
    requires { length text.old + 20 + length behind.now ≤ MAX_TEXT }
    ensures value { text.new ≡ text.old ++ decimal count ++ behind.now }
    ensures fits { length text.new ≤ length text.old + 20 + length behind.now }
{
    text.push_long(count);
    text.push(behind);
}

/// Adds 32 bytes in hexadecimal digits.
fn push_digits(text: &mut Text, bytes: &[u8; 32])
    requires { length text.old + 64 ≤ MAX_TEXT }
    ensures value { text.new ≡ text.old ++ encode_lower bytes.now }
    ensures fits { length text.new ≤ length text.old + 64 }
{
    let mut digits = [0; 64];
    let Ok(()) = hex::encode_to_slice(bytes, &mut digits) else {
        unreachable!()
    };
    text.push(&digits);
}

/// Adds the line of a sound image.
#[tactic(auto, unfolding(crate::specs::Texts::counts_text))]
fn push_counts(text: &mut Text, contents: &Contents)
    requires { length text.old + 200 ≤ MAX_TEXT }
    ensures value { text.new ≡ text.old ++ counts_text contents.now }
    ensures fits { length text.new ≤ length text.old + 200 }
{
    text.push(b"sound: ");
    push_count(text, u64::from(contents.counts.dirs), b" folders, ");
    push_count(text, u64::from(contents.counts.files), b" files, ");
    push_count(text, contents.counts.bytes, b" bytes, ");
    push_count(text, u64::from(contents.used), b" of ");
    push_count(text, u64::from(contents.params.slots()), b" slots\n");
}

/// Adds a line, where it is so.
fn push_if(text: &mut Text, is_so: bool, line: &[u8])
    requires { length text.old + length line.now ≤ MAX_TEXT }
    ensures value { text.new ≡ text.old ++ line_if is_so line.now }
    ensures fits { length text.new ≤ length text.old + length line.now }
{
    if is_so {
        text.push(line);
    }
}

/// What `check` prints of a sound image, whose digest differs from the one that was given, or not.
#[tactic(auto, unfolding(crate::specs::Texts::sound_text))]
pub(crate) fn sound_text(summary: &Summary, differs: bool) -> Text
    ensures { result ≡ model.sound_text summary.now differs }
{
    let mut text = Text::new();
    push_counts(&mut text, &summary.contents);
    text.push(b"sha256 ");
    push_digits(&mut text, &summary.digest);
    text.push(b"\n");
    push_if(&mut text, summary.is_pending, b"recovery pending\n");
    push_if(&mut text, differs, b"digest differs\n");
    text
}

/// These bytes as a text.
fn text_of(bytes: &[u8]) -> Text
    requires { length bytes.now ≤ MAX_TEXT }
    ensures { result ≡ bytes.now }
{
    let mut text = Text::new();
    text.push(bytes);
    text
}

/// What `check` prints of an image that has no summary.
pub(crate) fn fault_text(fault: SummaryFault) -> Text
    ensures { result ≡ model.fault_text fault }
{
    match fault {
        SummaryFault::NotImage => text_of(b"not an image\n"),
        SummaryFault::Damaged => text_of(b"damaged\n"),
        SummaryFault::Disk => text_of(b""),
    }
}

/// The word of a kind of draw.
fn draw_word(kind: DrawKind) -> &'static [u8]
    ensures value { result.now ≡ pictures.draw_word kind }
    ensures few { length result.now ≤ 6 }
{
    match kind {
        DrawKind::Ruler => b"ruler",
        DrawKind::Sha256 => b"sha256",
    }
}

/// Adds the lines of the parameters, and between them how many slots are in use.
#[tactic(auto, unfolding(crate::specs::Texts::params_text))]
fn push_params(text: &mut Text, params: &Params, used: u32)
    requires { length text.old + 300 ≤ MAX_TEXT }
    ensures value { text.new ≡ text.old ++ params_text params.now used }
    ensures fits { length text.new ≤ length text.old + 300 }
{
    text.push(b"version: ");
    push_count(
        text,
        u64::from(version_byte(params.version())),
        b"\nslots: ",
    );
    push_count(text, u64::from(params.slots()), b"\nused: ");
    push_count(text, u64::from(used), b"\nheight: ");
    push_count(text, u64::from(params.height()), b"\ndraw: ");
    text.push(draw_word(params.kind()));
    text.push(b"\nseed: ");
    push_digits(text, &params.seed());
    text.push(b"\n");
}

/// Adds the lines of what a tree holds.
#[tactic(auto, unfolding(crate::specs::Texts::contents_text))]
fn push_contents(text: &mut Text, contents: &Contents)
    requires { length text.old + 100 ≤ MAX_TEXT }
    ensures { text.new ≡ text.old ++ contents_text contents.now }
{
    text.push(b"folders: ");
    push_count(text, u64::from(contents.counts.dirs), b"\nfiles: ");
    push_count(text, u64::from(contents.counts.files), b"\nbytes: ");
    push_count(text, contents.counts.bytes, b"\n");
}

/// What `info` prints.
pub(crate) fn info_text(contents: &Contents) -> Text
    ensures { result ≡ model.info_text contents.now }
{
    let mut text = Text::new();
    push_params(&mut text, &contents.params, contents.used);
    push_contents(&mut text, contents);
    text
}
