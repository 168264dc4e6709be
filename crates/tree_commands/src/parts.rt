//! What a command is on.

ghost use Rattle.std.specs.Prelude.{◌≡◌};
ghost use Rattle.store_model.specs.Steps as model;
ghost use Rattle.script_lines.specs.Parsing.{command_of};

use script_lines::Command;

/// Whether a command is on attributes. Version 1 of the format has none.
#[tactic(auto, unfolding(store_model::specs::Steps::is_on_attributes))]
pub fn is_on_attributes(command: &Command) -> bool
    ensures { result ≡ model.is_on_attributes (command_of command.now) }
{
    matches!(
        command,
        Command::Set(..) | Command::Unset(..) | Command::Get(..) | Command::Attrs(_)
    )
}
