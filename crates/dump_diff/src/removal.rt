//! What is taken away of the first tree.

ghost use Rattle.std.specs.Prelude.{◌≡◌, ◌++◌, map, OnOk, IfOk};
ghost use Rattle.std.specs.List.{flat_map};
ghost use Rattle.script_lines.specs.Sessions.{change_of};
ghost use Rattle.dump_diff.specs.Differences.{marks_of};
ghost use Rattle.dump_diff.specs.Scripts as model;
ghost use Rattle.dump_diff.specs.Scripts.{AreRising, removal_command};

use crate::difference::AttributeDifference;
use crate::differences::Differences;
use crate::script::{cut_of, unset_of};
use path_keys::{AttrName, Path};
use script_lines::Change;
use std::alloc::Global;
use store_base::NoMemory;

/// What takes something away of the first tree.
#[derive(Clone, Copy, Debug)]
pub enum Removal {
    /// Takes away a path and all below it.
    Prune(Path),
    /// Cuts a file to no byte.
    Cut(Path),
    /// Takes an attribute of a path away.
    Unset(Path, AttrName),
}

impl Removal {
    /// The change that does it.
    pub fn change(&self) -> Change
        ensures { change_of result ≡ removal_command self.now }
    {
        match self {
            Removal::Prune(path) => Change::Prune(*path),
            Removal::Cut(path) => Change::Cut(*path, 0),
            Removal::Unset(path, name) => Change::Unset(*path, *name),
        }
    }
}

/// What is to be taken away of the first tree, in the order of the script.
pub fn removals(alloc: Global, found: &Differences) -> Result<Vec<Removal>, NoMemory>
    ensures { AreRising found.now → IfOk result (λ removals. map removal_command removals.items
        ≡ model.removal_commands found.now) }
{
    let mut removals = Vec::new(alloc);
    push_cuts(found, &mut removals)?;
    push_unsets(found.attributes(), &mut removals)?;
    Ok(removals)
}

/// Adds what prunes and cuts.
fn push_cuts(found: &Differences, removals: &mut Vec<Removal>) -> Result<(), NoMemory>
    ensures { AreRising found.now → OnOk result (map removal_command removals.new.items
        ≡ map removal_command removals.old.items
        ++ flat_map (model.cut_commands (marks_of found.now.paths.items)) found.now.paths.items) }
{
    for difference in found.paths() {
        push_if(cut_of(found, difference), removals)?;
    }
    Ok(())
}

/// Adds what takes attributes away.
fn push_unsets(
    attributes: &[AttributeDifference],
    removals: &mut Vec<Removal>,
) -> Result<(), NoMemory>
    ensures { OnOk result (map removal_command removals.new.items
        ≡ map removal_command removals.old.items ++ flat_map model.unset_commands attributes.now) }
{
    for attribute in attributes {
        push_if(unset_of(attribute), removals)?;
    }
    Ok(())
}

/// Adds a removal, if there is one.
fn push_if(removal: Option<Removal>, removals: &mut Vec<Removal>) -> Result<(), NoMemory>
    ensures { OnOk result (map removal_command removals.new.items
        ≡ map removal_command removals.old.items ++ model.commands_in removal) }
{
    if let Some(removal) = removal {
        removals.push(removal)?;
    }
    Ok(())
}
