//! The members of an ENUM, and of a SET.

ghost use Rattle.std.specs.Prelude.{◌≡◌, ◌<◌, ◌≤◌, vec_len};

use crate::member::Member;

/// The members of an ENUM, of which there are from 1 to 65,535. The first has the number 1.
#[derive(Debug, PartialEq, Eq, Drop)]
pub struct EnumMembers {
    pub members: Vec<Member>,
    pub ghost some: { 0 < vec_len members },
    pub ghost few: { vec_len members ≤ 65535 },
}

impl EnumMembers {
    /// How many members there are.
    pub fn count(&self) -> u16
        ensures { result ≡ vec_len self.now.members }
    {
        self.members.len() as u16
    }
}

/// The members of a SET, of which there are from 1 to 64. The first has the lowest bit.
#[derive(Debug, PartialEq, Eq, Drop)]
pub struct SetMembers {
    pub members: Vec<Member>,
    pub ghost some: { 0 < vec_len members },
    pub ghost few: { vec_len members ≤ 64 },
}

impl SetMembers {
    /// How many members there are.
    pub fn count(&self) -> u8
        ensures count { result ≡ vec_len self.now.members }
        ensures few { result ≤ 64 }
    {
        self.members.len() as u8
    }
}
