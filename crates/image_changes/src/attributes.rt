//! Attributes that are set and taken away.

ghost use Rattle.std.specs.Prelude.{◌≡◌, ◌≤◌, length};
ghost use Rattle.store_model.specs.Commands.Command.{SetAttribute, UnsetAttribute};
ghost use Rattle.tree_changes.specs.AttributeChanges.{HasSet, HasUnset, IsRefusedAt};
ghost use Rattle.image_changes.specs.Words.{Changes};

use crate::outcome::{Outcome, outcome_of_reply};
use disk_model::Disk;
use path_keys::{AttrName, Path};
use script_lines::Command;
use store_base::Bytes;
use store_core::{ApplyFault, Store};
use tree_commands::reveal;

/// Gives a path of a store an attribute with these bytes. It replaces one of this name.
///
/// Refused are the root, `Missing` paths, more than 255 bytes (`Big`), an attribute for which the path is too long
/// (`Path`), and images of version 1 (`Version`). After a fault the tree is as it was, as of `Store::apply`.
pub fn set_attribute<D: Disk>(
    store: &mut Store<D>,
    path: &Path,
    name: &AttrName,
    bytes: &[u8],
) -> Result<Outcome, ApplyFault>
    requires { length bytes.now ≤ Bytes.MAX_LEN }
    ensures { Changes D.state (HasSet store.old.params path.now name.now bytes.now)
        (IsRefusedAt store.old.params path.now (SetAttribute path.now name.now bytes.now))
        store.old store.new result }
{
    let _params = store.params();
    let command = Command::Set(*path, *name, Bytes::new(bytes));
    reveal(&command);
    let reply = store.apply(&command)?;
    Ok(outcome_of_reply(path, &reply))
}

/// Takes an attribute of a path of a store away.
///
/// Refused are the root, `Missing` paths, an attribute that the path has not (`NoAttr`), and images of version 1
/// (`Version`). After a fault the tree is as it was, as of `Store::apply`.
pub fn unset_attribute<D: Disk>(
    store: &mut Store<D>,
    path: &Path,
    name: &AttrName,
) -> Result<Outcome, ApplyFault>
    ensures { Changes D.state (HasUnset store.old.params path.now name.now)
        (IsRefusedAt store.old.params path.now (UnsetAttribute path.now name.now))
        store.old store.new result }
{
    let _params = store.params();
    let command = Command::Unset(*path, *name);
    reveal(&command);
    let reply = store.apply(&command)?;
    Ok(outcome_of_reply(path, &reply))
}
