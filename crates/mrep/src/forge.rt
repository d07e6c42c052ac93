//! A scripted source, for tests and laws: the crate `scripted_source`.

pub use scripted_source::{Ending, ForgeFault, Part, Script, answer, check, laws, opening};
