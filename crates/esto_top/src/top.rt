//! The top call.
ghost use Rattle.std.specs.Prelude.{◌≡◌, ◌≤◌};
ghost use Rattle.esto_ports.specs.Faults.{Rises};
ghost use Rattle.esto_status.specs.Answers.{Answers};
ghost use Rattle.esto_status.specs.Asked.{AsksIn};
ghost use Rattle.esto_top.specs.DataOutcomes.{AnswersFill};
ghost use Rattle.esto_top.specs.Grammar.{course_of, request_of};
ghost use Rattle.esto_top.specs.Mediation.{IsMediation};
ghost use Rattle.esto_top.specs.Outcome.{PutsOnce};

use crate::command::{command_of, obey};
use crate::ending::finish;
use crate::laws::outcomes_hold;
use esto_ports::{Shelf, Sink};
use esto_status::{Reply, Status};
use esto_term::Text;
use std::alloc::Global;

fn answer<S: Shelf>(alloc: Global, words: &[Text], shelf: &mut S) -> Result<Reply, Status>
    ensures answer { Answers (course_of words.now (S.files shelf.old))
        (Rises S.faults shelf.old shelf.new) result }
    ensures asked { AsksIn (S.asked shelf.old) (S.asked shelf.new)
        (course_of words.now (S.files shelf.old)) result }
    ensures filled { AnswersFill (request_of words.now) (S.files shelf.old)
        (S.asked shelf.old) (S.asked shelf.new) (Rises S.faults shelf.old shelf.new) result }
    ensures files { S.files shelf.new ≡ S.files shelf.old }
    ensures later { S.faults shelf.old ≤ S.faults shelf.new }
{
    match command_of(words) {
        None => Err(Status::Usage),
        Some(command) => obey(alloc, shelf, command),
    }
}

/// Answers a command line: fetches files from the shelf, puts one text by one put, and answers the status.
pub fn mediate<S: Shelf, O: Sink>(
    alloc: Global,
    words: &[Text],
    shelf: &mut S,
    out: &mut O,
) -> Status
    // What the call does stands in `specs/Mediation.antt`, fact by fact, each under its sentence. The headline is one.
    ensures mediation { IsMediation (record {
      words = words.now;
      files = S.files shelf.old;
      shelf_rose = Rises S.faults shelf.old shelf.new;
      sink_rose = Rises O.faults out.old out.new;
      asked_before = S.asked shelf.old;
      asked_after = S.asked shelf.new;
      written_before = O.written out.old;
      written_after = O.written out.new;
      status = result;
    }) }

    // The text is put by one put, which the sink counts where it tells puts; where memory is wanting there may be none.
    ensures puts { PutsOnce (O.puts out.old) (O.puts out.new) result }

    // The files stay, and no count falls.
    ensures files { S.files shelf.new ≡ S.files shelf.old }
    ensures shelf_later { S.faults shelf.old ≤ S.faults shelf.new }
    ensures sink_later { O.faults out.old ≤ O.faults out.new }
{
    outcomes_hold();
    let answer = answer(alloc, words, shelf);
    finish(alloc, answer, out)
}
