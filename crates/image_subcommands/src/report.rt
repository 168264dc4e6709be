//! The line that a check or a scrub prints.

ghost use Rattle.std.specs.Prelude.{◌≡◌, ◌≤◌, ◌+◌, ◌++◌, length, codes};
ghost use Rattle.std.specs.Fmt.{decimal};
ghost use Rattle.image_check.specs.declared.verdict.Verdict.TheVariants.{Clean};
ghost use Rattle.image_subcommands.specs.Reports.{report_text, verdict_status, PrintsVerdict, PrintsReport};

use crate::status::Status;
use image_check::Verdict;
use script_lines::{MAX_TEXT, Sink, Text};
use store_base::Fault;

/// Adds a number and the blank behind it.
fn push_count(line: &mut Text, count: u32)
    requires { length line.old + 11 ≤ MAX_TEXT }
    ensures value { line.new ≡ line.old ++ decimal count ++ codes " " }
    ensures fits { length line.new ≤ length line.old + 11 }
{
    line.push_number(count);
    line.push(b" ");
}

/// The line of a clean image.
#[tactic(auto, unfolding(crate::specs::Reports::report_text))]
fn clean_line(pages: u32, dirs: u32, files: u32, bytes: u64) -> Text
    ensures { result ≡ report_text (Clean pages dirs files bytes) }
{
    let mut line = Text::new();
    line.push(b"clean ");
    push_count(&mut line, pages);
    push_count(&mut line, dirs);
    push_count(&mut line, files);
    line.push_long(bytes);
    line.push(b"\n");
    line
}

/// These bytes as a text.
fn text_of(bytes: &[u8]) -> Text
    requires { length bytes.now ≤ MAX_TEXT }
    ensures { result ≡ bytes.now }
{
    let mut text = Text::new();
    text.push(bytes);
    text
}

/// The line of a verdict, ended by LF. It takes no memory.
#[tactic(auto, unfolding(crate::specs::Reports::report_text))]
fn report_line(verdict: Verdict) -> Text
    ensures { result ≡ report_text verdict }
{
    match verdict {
        Verdict::Clean {
            pages,
            dirs,
            files,
            bytes,
        } => clean_line(pages, dirs, files, bytes),
        Verdict::NotImage => text_of(b"not-image\n"),
        Verdict::Damaged => text_of(b"damaged\n"),
    }
}

/// The status of a call whose report is printed.
fn verdict_status(verdict: Verdict) -> Status
    ensures { result ≡ verdict_status verdict }
{
    match verdict {
        Verdict::Clean { .. } => Status::Done,
        Verdict::NotImage => Status::NotImage,
        Verdict::Damaged => Status::Damaged,
    }
}

/// Prints the line of a verdict, in one put, and answers how the call ends: as the verdict says, or with `SinkFault`
/// where the sink failed.
fn print_verdict<W: Sink>(sink: &mut W, verdict: Verdict) -> Status
    ensures { PrintsVerdict verdict (W.state sink.old) (W.state sink.new) result }
{
    match sink.put(report_line(verdict).as_slice()) {
        Ok(()) => verdict_status(verdict),
        Err(fault) => fault.into(),
    }
}

/// Prints the line of a verdict, and answers how the call ends; for a fault that came in place of a verdict nothing is
/// printed. It takes no memory, so once the disk was changed the call can't end for want of it.
pub fn print_report<W: Sink>(sink: &mut W, judged: Result<Verdict, Fault>) -> Status
    ensures { PrintsReport W.state judged sink.old sink.new result }
{
    match judged {
        Ok(verdict) => print_verdict(sink, verdict),
        Err(fault) => fault.into(),
    }
}
