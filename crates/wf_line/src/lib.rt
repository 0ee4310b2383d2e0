//! The command line of the program `wfarm`.
//!
//! [`line`] parses the arguments to a [`Line`], the command with its numbers and texts. It promises
//! the line that the arguments ask for by the rules of `clap` (`Asks` of `specs/CommandLine.antt`),
//! with each number in its range (`specs/Line.antt`). Arguments that ask for a line are rejected
//! only if an allocation fails, and others by the parser's kind of error. Theorem:
//! [`plain_words_are_taken`], plain arguments are taken as they are.
//!
//! [`process_command`] does so for the command lines about processes of a farm, `init`, `node`,
//! `clear` and `replica` (`specs/ProcessCommandLine.antt`); [`names_process_command`] says which
//! these are. The parser's program is one (`program` of `specs/Program.antt`), so that help and
//! errors know all commands.
//!
//! Not here: what a command does (wf_commands), and the text that is printed for a rejected command
//! line.
#![tactic(auto)]

mod arguments;
mod command_line;
mod node_arguments;
mod node_line;
mod process_arguments;
mod process_line;
mod program;
mod replica_arguments;
mod replica_line;

pub use arguments::{line, plain_words_are_taken};
pub use command_line::{Format, Line};
pub use node_line::{ClearLine, InitLine, NodeCommand, NodeLine};
pub use process_arguments::{names_process_command, process_command};
pub use process_line::ProcessCommand;
pub use replica_line::ReplicaLine;
pub use wf_service::Service;
