//! The texts of values of ENUM and SET.

ghost use Rattle.std.specs.Prelude.{◌≡◌, ◌++◌, ◌<◌, ◌≤◌, ◌+◌, true, false, length, vec_len, vec_capacity, IfOk, IfErr, OnOk, OnErr};
ghost use Rattle.columns.specs.Members.{member_bytes};
ghost use Rattle.columns.specs.MemberTexts.{member_of, chosen, with_commas, comma_unless};

use crate::member::Member;
use std::alloc::{AllocError, Global};

/// The bytes of the member with this ordinal, from 1 for the first one, and none for 0.
pub fn member_at(members: &[Member], ordinal: u16) -> &[u8]
    ensures { result.now ≡ member_of ordinal (member_bytes members.now) }
{
    if ordinal == 0 {
        return &[];
    }
    match members.get(usize::from(ordinal) - 1) {
        Some(member) => &member.text,
        None => &[],
    }
}

/// The bytes of the members whose bits are set, the lowest bit for the first one, with commas between. The only
/// error is one of memory, and there is none where the text is empty.
pub fn joined_members(alloc: Global, members: &[Member], bits: u64) -> Result<Vec<u8>, AllocError>
    ensures ok { IfOk result (λ all. all.items ≡ with_commas true
        (chosen bits (member_bytes members.now))) }
    ensures full { IfErr result (λ _.
        0 < length (with_commas true (chosen bits (member_bytes members.now)))) }
{
    let mut all = Vec::new(alloc);
    append_members(members, bits, true, &mut all)?;
    Ok(all)
}

/// Appends the members whose bits are set, with a comma in front of each but the first.
fn append_members(
    members: &[Member],
    bits: u64,
    is_first: bool,
    out: &mut Vec<u8>,
) -> Result<(), AllocError>
    ensures ok { OnOk result (out.new.items ≡
        out.old.items ++ with_commas is_first (chosen bits (member_bytes members.now))) }
    ensures full { OnErr result (vec_capacity out.old <
        vec_len out.old + length (with_commas is_first (chosen bits (member_bytes members.now)))) }
{
    let [member, rest @ ..] = members else {
        return Ok(());
    };
    if bits % 2 == 0 {
        return append_members(rest, bits / 2, is_first, out);
    }
    append_member(member, is_first, out)?;
    append_members(rest, bits / 2, false, out)
}

/// Appends a member, with a comma in front of it if it is not the first.
fn append_member(member: &Member, is_first: bool, out: &mut Vec<u8>) -> Result<(), AllocError>
    ensures ok { OnOk result (out.new.items ≡ out.old.items ++
        (comma_unless is_first ++ member.now.text.items)) }
    ensures full { OnErr result (vec_capacity out.old <
        vec_len out.old + length (comma_unless is_first ++ member.now.text.items)) }
    ensures capacity { vec_capacity out.old ≤ vec_capacity out.new }
{
    if !is_first {
        out.extend_from_slice(b",")?;
    }
    out.extend_from_slice(&member.text)
}
