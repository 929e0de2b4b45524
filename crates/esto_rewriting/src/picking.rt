//! The choice of a set for each member of a union.
ghost use Rattle.std.specs.Prelude.{◌++◌, ◌∷◌, [], List, IfOk, IfErr, OnOk};
ghost use Rattle.esto_course.specs.Course.{Stops};
ghost use Rattle.esto_status.specs.Answers.{IsCaused, IsWant};
ghost use Rattle.esto_rewriting.specs.Picking.{AddsPick, ArePicksOf, HasChoice, HaveChoice, IsLeast, IsLesser, IsPickFrom};
ghost use Rattle.esto_rewriting.specs.Run.{HasNoChoice, chooses_each};
ghost use Rattle.esto_rewriting.specs.declared.members.Member.{Member};
ghost use Rattle.esto_rewriting.specs.declared.members.Member.TheVariants as member;

use crate::choice::choose;
use crate::members::Member;
use crate::planned_laws::chosen_items_are_listed;
use esto_list::Listing;
use esto_run::Pick;
use esto_status::Status;
use esto_term::List;
use esto_views::Plan;
use std::alloc::Global;

/// A list of picks.
pub type Picks<'a> = List<Pick<'a>>;

// The lesser of a length, where there is one, and of another.
fn lesser(least: Option<usize>, listed: usize) -> usize
    ensures { IsLesser least listed result }
{
    let Some(length) = least else {
        return listed;
    };
    if length < listed {
        return length;
    }
    listed
}

// The least length of lists and of that of one member more.
fn least_with(least: Option<usize>, member: &Member) -> Option<usize>
    ensures { (members : List Member) → IsLeast members least
        → IsLeast (members ++ member.now ∷ []) result }
{
    match member {
        Member::Planned(_, listing) => Some(lesser(least, listing.len())),
        Member::Clashed(_) => least,
    }
}

// The least length of the members' lists.
fn least_length(members: &[Member]) -> Option<usize>
    ensures { IsLeast members.now result }
{
    let mut least = None;
    'members: for member in members {
        least = least_with(least, member);
    }
    least
}

// Judges whether of each member's list an item can be chosen.
fn judge_choice(members: &[Member], number: Option<u64>) -> Result<(), Status>
    ensures ok { OnOk result (HaveChoice members.now number) }
    ensures refusal { IfErr result (HasNoChoice members.now number) }
{
    let Some(least) = least_length(members) else {
        return Ok(());
    };
    if least == 0 {
        return Err(Status::NoRewriting);
    }
    let Some(number) = number else {
        return Ok(());
    };
    let least = least as u64;
    if number > least {
        return Err(Status::NoSuchNumber(number, least));
    }
    Ok(())
}

// The pick of the plan's list, of which an item can be chosen.
fn pick_of<'a>(
    plan: &'a Plan,
    listing: &'a Listing,
    number: Option<u64>,
) -> Result<Pick<'a>, Status>
    requires { HasChoice listing.now number }
    ensures pick { IfOk result (IsPickFrom plan.now listing.now number) }
    ensures want { IfErr result IsWant }
{
    chosen_items_are_listed();
    let place = choose(listing, number)?;
    let item = listing.item(place);
    Ok(Pick {
        plan,
        set: &item.set,
        order: &item.order,
    })
}

// Puts the pick of the member at the end, if it has a plan.
fn push_pick<'a>(
    picks: &mut Picks<'a>,
    member: &'a Member,
    number: Option<u64>,
) -> Result<(), Status>
    requires { HaveChoice (member.now ∷ []) number }
    ensures added { OnOk result (AddsPick number member.now picks.old picks.new) }
    ensures want { IfErr result IsWant }
{
    match member {
        Member::Planned(plan, listing) => {
            let pick = pick_of(plan, listing, number)?;
            picks.push(pick)?;
            Ok(())
        }
        Member::Clashed(_) => Ok(()),
    }
}

// The picks of the members that have a plan, of whose lists an item can be chosen.
fn picks_of<'a>(
    alloc: Global,
    members: &'a [Member],
    number: Option<u64>,
) -> Result<Picks<'a>, Status>
    requires { HaveChoice members.now number }
    ensures picks { IfOk result (ArePicksOf number members.now) }
    ensures want { IfErr result IsWant }
{
    let mut picks = List::new(alloc);
    'members: for member in members {
        push_pick(&mut picks, member, number)?;
    }
    Ok(picks)
}

/// The picks of the members that have a plan: of each the pick of its list, or the item of the number, counted from 1. There
/// are none where some list is empty, or where the number is above the least length of the lists.
pub(crate) fn pick_each<'a>(
    alloc: Global,
    members: &'a [Member],
    number: Option<u64>,
) -> Result<Picks<'a>, Status>
    ensures picks { IfOk result (ArePicksOf number members.now) }
    ensures refusal { IfErr result
        (Stops IsWant (IsCaused ⊥) (chooses_each members.now number)) }
{
    judge_choice(members, number)?;
    picks_of(alloc, members, number)
}
