//! The choice of an item of a list.
ghost use Rattle.esto_status.specs.Answers.{Answers};
ghost use Rattle.esto_rewriting.specs.Planning.{chooses};

use esto_list::Listing;
use esto_status::Status;

/// The place, counted from 0, of the item of the list that is chosen: the pick, or that of the number, counted from 1;
/// 0 is taken as 1. NoRewriting comes exactly where the list is empty; else NoSuchNumber, with the number and how many
/// items there are, where the number is greater.
pub fn choose(listing: &Listing, number: Option<u64>) -> Result<usize, Status>
    ensures { Answers (chooses listing.now number) ⊥ result }
{
    let Some(pick) = listing.pick() else {
        return Err(Status::NoRewriting);
    };
    let Some(number) = number else {
        return Ok(pick);
    };
    let listed = listing.len() as u64;
    if number > listed {
        return Err(Status::NoSuchNumber(number, listed));
    }
    Ok(number.saturating_sub(1) as usize)
}
