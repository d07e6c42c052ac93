//! The type of a column, with members.

ghost use Rattle.std.specs.Prelude.{◌≡◌, ◌++◌, ◌<◌, ◌≤◌, List, ℕ, Some, IfOk, IfErr, MatchResult, length};
ghost use Rattle.columns.specs.ColumnTypes.{TypeValue, type_value, column_type_text, IsType, IsMemberListFault, IsColumnTypeFault};
ghost use Rattle.columns.specs.Members.{members_text, member_bytes, AreMembers};
ghost use Rattle.columns.specs.declared.column_type.ColumnTypeFault.TheVariants.{Memory};

use crate::data_type::DataType;
use crate::fault::TypeFault;
use crate::member::Member;
use crate::member_lists::{EnumMembers, SetMembers};
use crate::members::{Members, MembersFault, read_members};
use crate::word::split_word;
use std::alloc::Global;
use std::fmt;
use thiserror::Error;

const ENUM: &[u8] = b"enum";

const SET: &[u8] = b"set";

/// How many members an ENUM has at most.
const MOST_OF_ENUM: usize = 65_535;

/// How many members a SET has at most.
const MOST_OF_SET: usize = 64;

/// The type of a column.
#[derive(Debug, PartialEq, Eq, Drop)]
pub enum ColumnType {
    /// A type without members.
    Scalar(DataType),
    /// ENUM with its members.
    Enum(EnumMembers),
    /// SET with its members.
    Set(SetMembers),
}

/// Why a text is not that of a type.
#[derive(Clone, Copy, Debug, PartialEq, Eq, Error)]
pub enum ColumnTypeFault {
    /// It is no ENUM or SET, and no other type.
    #[error("{0}")]
    DataType(TypeFault),
    /// From this offset on it is not the rest of an ENUM or a SET: a member is due where none stands, or something else
    /// than a comma and the closing parenthesis at the end stands after one, or there are too many.
    #[error("not a list of members, at byte {0}")]
    Members(usize),
    /// An allocation was refused.
    #[error("out of memory")]
    Memory,
}

impl ColumnType {
    /// Reads the text of a type, as the column `COLUMN_TYPE` of `INFORMATION_SCHEMA.COLUMNS` has it. The whole text is
    /// read. `Memory` is answered only of a text that begins with `enum(` or `set(`.
    pub fn read(alloc: Global, text: &[u8]) -> Result<ColumnType, ColumnTypeFault>
        ensures found { IfOk result (λ made. text.now ≡ column_type_text (type_value made)) }
        ensures lawful { IfOk result (λ made. IsType (type_value made)) }
        ensures only { (value : TypeValue) → IsType value → text.now ≡ column_type_text value
            → MatchResult result (λ made. type_value made ≡ value) (λ fault. fault
            ≡ ColumnTypeFault.Memory) }
        ensures fault { IfErr result (IsColumnTypeFault text.now) }
    {
        let (word, rest) = split_word(text);
        if word == ENUM {
            let members = read_behind_name(alloc, MOST_OF_ENUM, text.len(), rest)?;
            return Ok(ColumnType::Enum(EnumMembers { members }));
        }
        if word == SET {
            let members = read_behind_name(alloc, MOST_OF_SET, text.len(), rest)?;
            return Ok(ColumnType::Set(SetMembers { members }));
        }
        match DataType::read(text) {
            Ok(made) => Ok(ColumnType::Scalar(made)),
            Err(fault) => Err(ColumnTypeFault::DataType(fault)),
        }
    }
}

/// Reads the members that stand after the name, in a text of so many bytes.
fn read_behind_name(
    alloc: Global,
    most: usize,
    size: usize,
    list: &[u8],
) -> Result<Vec<Member>, ColumnTypeFault>
    requires some { 0 < most }
    requires within { length list.now ≤ size }
    ensures found { IfOk result (λ members. list.now ≡ members_text (member_bytes members.items)) }
    ensures lawful { IfOk result (λ members. AreMembers most (member_bytes members.items)) }
    ensures only { (members : List (List ℕ)) → AreMembers most members
        → list.now ≡ members_text members → MatchResult result (λ read. member_bytes read.items
        ≡ members) (λ fault. fault ≡ ColumnTypeFault.Memory) }
    ensures fault { IfErr result (IsMemberListFault most size list.now) }
{
    match read_members(alloc, most, list) {
        Ok(members) => Ok(members),
        Err(MembersFault::Text(left)) => Err(ColumnTypeFault::Members(size - left)),
        Err(MembersFault::Memory) => Err(ColumnTypeFault::Memory),
    }
}

/// Writes the text of the type, which [`ColumnType::read`] reads back. The only error is the writer's.
impl fmt::Display for ColumnType {
    ghost output = { λ made. Some (column_type_text (type_value made)) };

    fn fmt<W: fmt::Write>(&self, f: &mut fmt::Formatter<W>) -> fmt::Result {
        match self {
            ColumnType::Scalar(made) => write!(f, "{made}"),
            ColumnType::Enum(list) => {
                let members = Members(&list.members);
                write!(f, "enum{members}")
            }
            ColumnType::Set(list) => {
                let members = Members(&list.members);
                write!(f, "set{members}")
            }
        }
    }
}
