//! The command `list` over a union.
ghost use Rattle.std.specs.Prelude.{◌≡◌, ◌<◌, ◌++◌, ℕ, List, length, IfOk, OnOk};
ghost use Rattle.esto_rewriting.specs.List.{IsMemberText, IsUnionText, disjunct_text, lists_union, prints_members};
ghost use Rattle.esto_query.specs.Unions.{FormUnion};
ghost use Rattle.esto_status.specs.Answers.{Answers};

use crate::members::{Member, Members, clash_of, copy_clash, members_of};
use esto_mapping::Catalogue;
use esto_query::Query;
use esto_status::{Status, status_line};
use esto_term::{Bytes, OutOfMemory};
use esto_views::put_count;
use std::alloc::Global;

// The text of a member: that of its plan and of its list, or the line of its clash.
fn member_text(alloc: Global, member: &Member, catalogue: &Catalogue) -> Result<Bytes, OutOfMemory>
    ensures { IfOk result (IsMemberText catalogue.now member.now) }
{
    match member {
        Member::Planned(plan, listing) => listing.text(alloc, plan, &catalogue.fragments),
        Member::Clashed(clash) => {
            let status = Status::Unsatisfiable(copy_clash(alloc, clash)?);
            status_line(alloc, &status)
        }
    }
}

// Puts a text at the end, after the line of its disjunct's number.
fn put_disjunct(
    alloc: Global,
    text: &mut Bytes,
    place: usize,
    own: &[u8],
) -> Result<(), OutOfMemory>
    ensures { OnOk result (text.new ≡ text.old ++ disjunct_text place own.now) }
{
    put_count(alloc, text, b"disjunct ", place as u128 + 1)?;
    text.append(own)
}

// Puts the text of a member at the end, after the line of its number.
fn put_member(
    alloc: Global,
    text: &mut Bytes,
    place: usize,
    member: &Member,
    catalogue: &Catalogue,
) -> Result<(), OutOfMemory>
    ensures { OnOk result ((own : List ℕ) × IsMemberText catalogue.now member.now own
        × (text.new ≡ text.old ++ disjunct_text place own)) }
{
    let own = member_text(alloc, member, catalogue)?;
    put_disjunct(alloc, text, place, own.bytes())
}

// The text of the members, in order, each after the line of its number.
fn union_text(
    alloc: Global,
    members: &[Member],
    catalogue: &Catalogue,
) -> Result<Bytes, OutOfMemory>
    ensures { IfOk result (IsUnionText catalogue.now members.now) }
{
    let mut text = Bytes::new(alloc);
    'members: for (place, member) in members.iter().enumerate() {
        put_member(alloc, &mut text, place, member, catalogue)?;
    }
    Ok(text)
}

// The text that the command prints of members, or the status of the first one's clash where none has a plan.
fn text_of(alloc: Global, members: &Members, catalogue: &Catalogue) -> Result<Bytes, Status>
    requires { 0 < length members.now }
    ensures { Answers (prints_members catalogue.now members.now) ⊥ result }
{
    match clash_of(alloc, members)? {
        Some(clash) => Err(Status::Unsatisfiable(clash)),
        None => {
            let text = union_text(alloc, members.items(), catalogue)?;
            Ok(text)
        }
    }
}

/// What `list` prints of a union: for each query in order the line `disjunct` and its number, counted from 1, and then the
/// text of its printed plan and of that plan's list in the union, or the line of the clash at which its run ends. Where no
/// query is satisfiable, the status of the first one's clash.
pub fn list_union(alloc: Global, queries: &[Query], catalogue: &Catalogue) -> Result<Bytes, Status>
    requires { FormUnion queries.now }
    ensures { Answers (lists_union catalogue.now queries.now) ⊥ result }
{
    let members = members_of(alloc, queries, catalogue)?;
    text_of(alloc, &members, catalogue)
}
