//! What stands between a script or a session and the store: sources and sinks of bytes, lines, the commands that they
//! spell, and the text of replies. Start at `LineReader`, `Command` and `Reply`.
#![tactic(auto)]

mod attributes;
mod command;
mod command_text;
mod copies;
mod fault;
mod fields;
mod find;
mod generator;
mod lines;
mod memory;
mod parts;
mod reply;
mod session;
mod session_reply;
mod sink;
mod source;
mod std_io;
mod text;

pub use command::{Command, parse_command, read_command};
pub use command_text::{write_command, write_piece};
pub use fault::{SinkFault, SourceFault};
pub use fields::{parse_long, parse_number};
pub use generator::Generator;
pub use lines::{Line, LineFault, LineReader, MAX_LINE, MAX_SCRIPT};
pub use memory::{MemSink, MemSource};
pub use parts::reveal;
pub use reply::{Reply, write_reply};
pub use session::{Change, Question, SessionLine, parse_session, read_session_line};
pub use session_reply::{SessionReply, write_session_reply};
pub use sink::Sink;
pub use source::Source;
pub use std_io::{StdSink, StdSource};
pub use text::{MAX_TEXT, Text};
