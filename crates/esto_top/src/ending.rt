//! The one put of a command's answer.
ghost use Rattle.std.specs.Prelude.{◌≡◌, ◌≤◌, IfSome, Some, None, Err, MatchResult};
ghost use Rattle.esto_ports.specs.Faults.{Rises};
ghost use Rattle.esto_top.specs.Outcome.{IsSaid, Finishes, PutsOnce, status_of_error};

use esto_ports::{Sink, SinkError};
use esto_status::{Reply, Status, status_line};
use esto_term::{Bytes, OutOfMemory};
use std::alloc::Global;

// The line of a refusal; nothing where memory is refused.
fn refusal_line(alloc: Global, status: &Status) -> Option<Bytes>
    ensures { IfSome result (λ line. IsSaid (Err status.now) status.now line) }
{
    match status {
        Status::OutOfMemory => None,
        _ => match status_line(alloc, status) {
            Ok(line) => Some(line),
            Err(OutOfMemory) => None,
        },
    }
}

// A refusal with its line; nothing where memory is refused.
fn refusal(alloc: Global, status: Status) -> Option<(Status, Bytes)>
    ensures { IfSome result (λ said. IsSaid (Err status) said.0 said.1) }
{
    let line = refusal_line(alloc, &status);
    Some(status).zip(line)
}

// A status and the text to put; nothing where memory is refused.
fn said(alloc: Global, answer: Result<Reply, Status>) -> Option<(Status, Bytes)>
    ensures { IfSome result (λ said. IsSaid answer said.0 said.1) }
{
    match answer {
        Ok(Reply::Done(text)) => Some((Status::Done, text)),
        Ok(Reply::Unsatisfiable(clash, text)) => Some((Status::Unsatisfiable(clash), text)),
        Err(status) => refusal(alloc, status),
    }
}

// The status of a put's error; nothing where all was put.
fn status_of_put(put: Result<(), SinkError>) -> Option<Status>
    ensures { MatchResult put (λ _. result ≡ None)
        (λ error. result ≡ Some (status_of_error error)) }
{
    match put {
        Ok(()) => None,
        Err(SinkError::Failed) => Some(Status::WriteFault),
        Err(SinkError::OutOfMemory) => Some(Status::OutOfMemory),
    }
}

/// Puts the text of an answer, by one put, and answers the status.
pub fn finish<O: Sink>(alloc: Global, answer: Result<Reply, Status>, out: &mut O) -> Status
    ensures put { Finishes answer (O.written out.old) (O.written out.new)
        (Rises O.faults out.old out.new) result }
    ensures puts { PutsOnce (O.puts out.old) (O.puts out.new) result }
    ensures later { O.faults out.old ≤ O.faults out.new }
{
    match said(alloc, answer) {
        None => Status::OutOfMemory,
        Some((status, text)) => status_of_put(out.put(text.bytes())).unwrap_or(status),
    }
}
