//! Texts of one value: names, bytes, sets, types of columns and words of options, and the output that they go to.
//!
//! [`Shown`] is a name or another argument in a message, [`Quoted`] one for the shell, and [`write_named`] a message about
//! something that has a name. [`Format`] and [`Encoding`] are what `--format` and `--bytes` name, and [`Screen`] is an output that
//! may be a terminal.
//!
//! The text of a set ([`text_of`]) and that of the type of a column ([`TypeText`]) have a contract.
#![tactic(auto)]

mod hex;
mod message;
mod name;
mod output_format;
mod quoted;
mod screen;
mod set_text;
mod type_text;

pub use hex::write_hex;
pub use message::write_named;
pub use name::{Shown, read_table, write_escaped, write_name, write_table};
pub use output_format::{ENCODINGS, Encoding, FORMATS, Format, encoding_of, format_of};
pub use quoted::Quoted;
pub use screen::Screen;
pub use set_text::text_of;
pub use type_text::TypeText;
