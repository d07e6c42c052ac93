//! The command line of the program: its commands and their arguments, help, mistakes, and what shells complete.
//!
//! The commands are a table, of which [`grammar`] makes what `clap` parses and prints as help, and [`write_completions`] what
//! a shell reads. [`spelled_out`] has options as the clients of MySQL have them, and [`option_of`] reads their option files.
//! [`escaped`] is the error of words that are no command line, without their control characters, and [`tip`] what to type.
//!
//! [`parse_set`], [`parse_number`], [`parse_digest`] and their like are what a word stands for, and [`ArgumentFault`] why it is
//! none. These three have a contract.
#![tactic(auto)]

mod arguments;
mod completions;
mod help;
mod mistake;
mod option_file;
mod short_options;
mod table;

pub use arguments::{
    ArgumentFault, parse_digest, parse_encoding, parse_gtid, parse_number, parse_schema, parse_set,
    parse_table, parse_tables, word,
};
pub use completions::write_completions;
pub use help::write_help;
pub use mistake::{escaped, input_again, no_command, tip};
pub use option_file::option_of;
pub use short_options::spelled_out;
pub use table::grammar;
