//! What is said.

ghost use Rattle.std.specs.Prelude.{IfOk};
ghost use Rattle.std.specs.String.{string_bytes};
ghost use Rattle.box_calls.specs.Endings.{IsLine, Says};

use box_words::Message;
use script_lines::Sink;
use std::alloc::{AllocError, Global};

/// What is said where there is no memory for a message.
const NO_MEMORY: &[u8] = b"hbox: memory ran out; end other programs, and try again\n";

/// Makes the line of a message.
fn line_of(alloc: Global, message: &Message<'_>) -> Result<String, AllocError>
    ensures { IfOk result (λ line. IsLine (string_bytes line)) }
{
    let mut line = format!(in alloc; "{message}")?;
    line.push('\n')?;
    Ok(line)
}

/// Puts the line of a message into a sink, by one call. A sink that fails is left alone.
pub fn say<E: Sink>(alloc: Global, message: &Message<'_>, sink: &mut E)
    ensures { Says (E.state sink.old) (E.state sink.new) }
{
    match line_of(alloc, message) {
        Ok(line) => {
            let _ = sink.put(line.as_bytes());
        }
        Err(_) => say_no_memory(sink),
    }
}

/// Says that memory ran out, without any.
pub fn say_no_memory<E: Sink>(sink: &mut E)
    ensures { Says (E.state sink.old) (E.state sink.new) }
{
    let _ = sink.put(NO_MEMORY);
}
