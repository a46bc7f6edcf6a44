//! The command line: the arguments that stand behind the program's name, and what they ask for. The code calls them
//! words.
//!
//! `specs/Items.antt` says what stands on a command line, `specs/Options.antt` which options there are and what each
//! has for its value, `specs/Words.antt` which arguments are a command line and what it asks for. None of them knows
//! how arguments are read: that is `clap`'s part, and `specs/Found.antt` says what it is given and what it finds.
//!
//! - `command`: the command for `clap`, and what it finds in the arguments
//! - `options`: the options, and what each is given
//! - `words`: `read_words`
//! - `job`: what is asked for, and the file of a table
#![tactic(auto)]

mod command;
mod job;
mod options;
mod words;

pub use command::WordsFault;
pub use job::{Job, NamedFile, Source, TableFile};
pub use words::{lend_words, read_words};
