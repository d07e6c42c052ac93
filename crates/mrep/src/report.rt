//! What a command reports while it reads and at its end, and why it failed.

pub mod console;
pub mod failure;
pub mod status;
pub mod wanted;
