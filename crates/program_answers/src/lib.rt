//! What the program answers to the words of its command line, over any devices and files; and the files of the system.
#![tactic(auto)]

pub mod answer;
mod answers;
mod assembled;
mod carry_out;
mod command_line;
mod compared;
mod debug;
mod files;
mod gate;
mod members;
mod opcodes;
mod output;
mod save;
mod skip_file;
mod source;
mod stored;
mod task;

pub use files::Files;
pub use save::SystemFiles;
pub use stored::Stored;
