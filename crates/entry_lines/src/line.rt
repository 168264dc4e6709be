//! The line of an entry.

ghost use Rattle.std.specs.Prelude.{◌≡◌, ◌≤◌, ◌+◌, ◌++◌, length, drop, OnOk, IsTrue};
ghost use Rattle.store_model.specs.Paths as model;
ghost use Rattle.dump_views.specs.Texts.{right_aligned};
ghost use Rattle.entry_lines.specs.Lines.{base_of, letter_of, size_text, columns_text, told_path};
ghost use Rattle.entry_lines.specs.Lines.{line_end, path_shown, seen, name_text, link_text, line_of};

use crate::entry::{EntryFacts, EntryKind};
use crate::form::ListForm;
use box_words::{shown, terminal_text};
use dump_views::{push_aligned, push_utc};
use path_keys::Path;
use script_lines::{MAX_TEXT, Text};
use std::alloc::Global;
use store_base::NoMemory;

/// Adds the line of an entry that stands at `top` or below it.
pub(crate) fn push_line(
    alloc: Global,
    into: &mut Vec<u8>,
    form: ListForm,
    top: &Path,
    facts: &EntryFacts,
) -> Result<(), NoMemory>
    requires { IsTrue (model.is_at_or_inside facts.now.path top.now) }
    ensures { OnOk result (into.new.items ≡ into.old.items ++ line_of form top.now facts.now) }
{
    push_columns(into, form, facts)?;
    push_name(alloc, into, form, top, facts)?;
    push_link(alloc, into, form, facts)?;
    push_end(into, form)
}

/// Adds bytes.
fn push_bytes(into: &mut Vec<u8>, bytes: &[u8]) -> Result<(), NoMemory>
    ensures { OnOk result (into.new.items ≡ into.old.items ++ bytes.now) }
{
    into.extend_from_slice(bytes)?;
    Ok(())
}

/// Adds the columns of kind, size and time of a long line.
fn push_columns(into: &mut Vec<u8>, form: ListForm, facts: &EntryFacts) -> Result<(), NoMemory>
    ensures { OnOk result (into.new.items ≡ into.old.items ++ columns_text form facts.now) }
{
    if !form.is_long {
        return Ok(());
    }
    let mut text = Text::new();
    text.push(letter_of(facts));
    text.push(b" ");
    push_size(&mut text, facts.kind);
    text.push(b" ");
    push_utc(&mut text, facts.seconds);
    text.push(b" ");
    push_bytes(into, text.as_slice())
}

/// The letter of what stands at a path.
fn letter_of(facts: &EntryFacts) -> &'static [u8]
    ensures value { result.now ≡ letter_of facts.now }
    ensures one { length result.now ≡ 1 }
{
    match facts.kind {
        EntryKind::Folder => b"d",
        EntryKind::File(_) if facts.link().is_some() => b"l",
        EntryKind::File(_) if facts.is_executable => b"x",
        EntryKind::File(_) => b"f",
    }
}

/// Adds the size of what stands at a path, at the right end of a column of eight, 20 bytes at most.
fn push_size(text: &mut Text, kind: EntryKind)
    requires { length text.old + 20 ≤ MAX_TEXT }
    ensures value { text.new ≡ text.old ++ right_aligned (size_text kind) }
    ensures fits { length text.new ≤ length text.old + 20 }
{
    match kind {
        EntryKind::Folder => push_aligned(text, b"-"),
        EntryKind::File(len) => {
            let mut digits = Text::new();
            digits.push_long(len);
            push_aligned(text, digits.as_slice());
        }
    }
}

/// Adds the name of an entry, and `/` behind that of a folder.
fn push_name(
    alloc: Global,
    into: &mut Vec<u8>,
    form: ListForm,
    top: &Path,
    facts: &EntryFacts,
) -> Result<(), NoMemory>
    requires { IsTrue (model.is_at_or_inside facts.now.path top.now) }
    ensures { OnOk result (into.new.items ≡ into.old.items ++ name_text form top.now facts.now) }
{
    let told = told_path(&facts.path, top);
    push_path(alloc, into, form, &told)?;
    match facts.kind {
        EntryKind::Folder => push_bytes(into, b"/"),
        EntryKind::File(_) => Ok(()),
    }
}

/// What is told of a path: its names below `top`, and of `top` itself its last name.
fn told_path(path: &Path, top: &Path) -> Path
    requires { IsTrue (model.is_at_or_inside path.now top.now) }
    ensures { result ≡ told_path top.now path.now }
{
    let base = base_of(path, top);
    match path.replant(&base, &Path::root()) {
        Some(told) => told,
        None => unreachable!(),
    }
}

/// The path below which the names stand that are told of a path.
fn base_of(path: &Path, top: &Path) -> Path
    requires { IsTrue (model.is_at_or_inside path.now top.now) }
    ensures value { result ≡ base_of top.now path.now }
    ensures within { IsTrue (model.is_at_or_inside path.now result) }
    ensures valid { IsTrue (model.is_path path.now) }
{
    if path.is_inside(top) {
        return *top;
    }
    match top.parent() {
        Some(parent) => parent,
        None => *top,
    }
}

/// Adds a path as it is shown, without the `/` in front.
fn push_path(alloc: Global, into: &mut Vec<u8>, form: ListForm, path: &Path) -> Result<(), NoMemory>
    ensures { OnOk result (into.new.items ≡ into.old.items ++ path_shown form path.now) }
{
    let Ok(text) = shown(alloc, path, form.spelling) else {
        return Err(NoMemory);
    };
    push_seen(alloc, into, form, behind_slash(&text))
}

/// The bytes of a text behind the first one.
fn behind_slash(text: &[u8]) -> &[u8]
    requires { 1 ≤ length text.now }
    ensures { result.now ≡ drop 1 text.now }
{
    &text[1..]
}

/// Adds bytes as they are shown.
fn push_seen(
    alloc: Global,
    into: &mut Vec<u8>,
    form: ListForm,
    bytes: &[u8],
) -> Result<(), NoMemory>
    ensures { OnOk result (into.new.items ≡ into.old.items ++ seen form bytes.now) }
{
    if !form.is_visible {
        return push_bytes(into, bytes);
    }
    match terminal_text(alloc, bytes) {
        Ok(text) => push_bytes(into, text.as_bytes()),
        Err(fault) => Err(fault),
    }
}

/// Adds to a long line where the link leads that stands at the path, if one does.
fn push_link(
    alloc: Global,
    into: &mut Vec<u8>,
    form: ListForm,
    facts: &EntryFacts,
) -> Result<(), NoMemory>
    ensures { OnOk result (into.new.items ≡ into.old.items ++ link_text form facts.now) }
{
    if !form.is_long {
        return Ok(());
    }
    let Some(target) = facts.link() else {
        return Ok(());
    };
    push_bytes(into, b" -> ")?;
    push_seen(alloc, into, form, target.as_slice())
}

/// Adds the end of a line.
fn push_end(into: &mut Vec<u8>, form: ListForm) -> Result<(), NoMemory>
    ensures { OnOk result (into.new.items ≡ into.old.items ++ line_end form) }
{
    if form.is_zero {
        push_bytes(into, b"\0")
    } else {
        push_bytes(into, b"\n")
    }
}
