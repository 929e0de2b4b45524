//! The command `audit`.
ghost use Rattle.std.specs.Prelude.{◌≡◌, ◌≤◌, ℕ, List, IfOk};
ghost use Rattle.esto_ports.specs.Faults.{Rises};
ghost use Rattle.esto_data.specs.CodedParts.{Stays};
ghost use Rattle.esto_data.specs.Coding.{IsCoded, IsCodedOf};
ghost use Rattle.esto_fill.specs.Trials.{IsTrialOf};
ghost use Rattle.esto_fill.specs.declared.loaded.Loaded.{Loaded};
ghost use Rattle.esto_semantics.specs.declared.fact.Fact.{Fact};
ghost use Rattle.esto_term.specs.declared.term.Term.{Term};
ghost use Rattle.esto_status.specs.Answers.{Answers};
ghost use Rattle.esto_status.specs.Asked.{AsksIn};
ghost use Rattle.esto_data.specs.Audit.{HoldContents, HoldsAudit, audit_text, audits_catalogue, audits_facts, audits_rows, judges_views, tells};
ghost use Rattle.esto_data.specs.Datasets.{HoldsFiles};

use crate::coded_audit::CodedRowsList;
use crate::coded_data::{CodedData, no_data};
use crate::coded_views::audit_views_coded;
use crate::comparing::compare;
use crate::kept::load_all;
use crate::opened::open_all_rows;
use esto_fill::{AnswerError, LoadList, Trial, trial_of};
use esto_mapping::Catalogue;
use esto_ports::Shelf;
use esto_status::{Reply, Status};
use esto_term::{Bytes, OutOfMemory};
use std::alloc::Global;

// No row of a fragment's view over the facts holds a node, or the status of one that does.
fn judge_views(alloc: Global, catalogue: &Catalogue, coded: &mut CodedData) -> Result<(), Status>
    requires { IsCoded coded.old }
    ensures views { (loaded : Loaded) → IsCodedOf loaded coded.old
        → Answers (judges_views catalogue.now loaded.facts) ⊥ result }
    ensures stays { Stays coded.old coded.new }
{
    match audit_views_coded(alloc, catalogue, coded) {
        Ok(()) => Ok(()),
        Err(AnswerError::NodeInRow(column)) => Err(Status::NodeInRow(column)),
        Err(AnswerError::OutOfMemory) => Err(Status::OutOfMemory),
    }
}

// What the command prints.
fn audit_text(alloc: Global, catalogue: &Catalogue) -> Result<Bytes, OutOfMemory>
    ensures { IfOk result (λ text. text ≡ audit_text catalogue.now) }
{
    let constraints = catalogue.given;
    let fragments = catalogue.fragments.len();
    let text = format!(in alloc; "constraints {constraints}\nfragments {fragments}\nagree\n")?;
    Ok(Bytes::from_string(text))
}

// Compares the facts and the rows of all fragments, and gives what the command prints where they agree.
fn tell(
    alloc: Global,
    catalogue: &Catalogue,
    trial: &Trial,
    files: &LoadList,
    coded: CodedData,
    rows: CodedRowsList,
) -> Result<Reply, Status>
    requires trial { IsTrialOf catalogue.now trial.now }
    requires facts { (facts : List (Fact Term))
        × HoldsAudit catalogue.now trial.now.wanted files.now facts coded }
    requires rows { (contents : ℕ → List ℕ)
        × HoldContents catalogue.now contents coded.facts.texts rows }
    ensures { (facts : List (Fact Term))
        → HoldsAudit catalogue.now trial.now.wanted files.now facts coded
        → (contents : ℕ → List ℕ) → HoldContents catalogue.now contents coded.facts.texts rows
        → Answers (tells catalogue.now facts contents) ⊥ result }
{
    compare(alloc, catalogue, trial, files, coded, rows)?;
    let text = audit_text(alloc, catalogue)?;
    Ok(Reply::Done(text))
}

// Opens the files of all fragments, and compares their rows and the facts.
fn audit_rows<S: Shelf>(
    alloc: Global,
    shelf: &mut S,
    catalogue: &Catalogue,
    trial: &Trial,
    files: &LoadList,
    coded: CodedData,
) -> Result<Reply, Status>
    requires trial { IsTrialOf catalogue.now trial.now }
    requires facts { (facts : List (Fact Term))
        × HoldsAudit catalogue.now trial.now.wanted files.now facts coded }
    ensures answer { (facts : List (Fact Term))
        → HoldsAudit catalogue.now trial.now.wanted files.now facts coded
        → Answers (audits_rows (S.files shelf.old) catalogue.now facts)
        (Rises S.faults shelf.old shelf.new) result }
    ensures asked { (facts : List (Fact Term))
        → HoldsAudit catalogue.now trial.now.wanted files.now facts coded
        → AsksIn (S.asked shelf.old) (S.asked shelf.new)
        (audits_rows (S.files shelf.old) catalogue.now facts) result }
    ensures files { S.files shelf.new ≡ S.files shelf.old }
    ensures later { S.faults shelf.old ≤ S.faults shelf.new }
{
    let mut coded = coded;
    let rows = open_all_rows(alloc, shelf, catalogue, &mut coded)?;
    tell(alloc, catalogue, trial, files, coded, rows)
}

// Judges the views over the facts of the files, opens the files of all fragments, and compares both.
fn audit_facts<S: Shelf>(
    alloc: Global,
    shelf: &mut S,
    catalogue: &Catalogue,
    trial: &Trial,
    files: &LoadList,
    coded: CodedData,
) -> Result<Reply, Status>
    requires trial { IsTrialOf catalogue.now trial.now }
    requires facts { (facts : List (Fact Term))
        × HoldsFiles catalogue.now.datasets trial.now.wanted facts files.now coded }
    ensures answer { (facts : List (Fact Term))
        → HoldsFiles catalogue.now.datasets trial.now.wanted facts files.now coded
        → Answers (audits_facts (S.files shelf.old) catalogue.now facts)
        (Rises S.faults shelf.old shelf.new) result }
    ensures asked { (facts : List (Fact Term))
        → HoldsFiles catalogue.now.datasets trial.now.wanted facts files.now coded
        → AsksIn (S.asked shelf.old) (S.asked shelf.new)
        (audits_facts (S.files shelf.old) catalogue.now facts) result }
    ensures files { S.files shelf.new ≡ S.files shelf.old }
    ensures later { S.faults shelf.old ≤ S.faults shelf.new }
{
    let mut coded = coded;
    judge_views(alloc, catalogue, &mut coded)?;
    audit_rows(alloc, shelf, catalogue, trial, files, coded)
}

// Loads of all datasets what the trial wants, and audits their facts.
fn audit_trial<S: Shelf>(
    alloc: Global,
    shelf: &mut S,
    catalogue: &Catalogue,
    trial: &Trial,
) -> Result<Reply, Status>
    requires { IsTrialOf catalogue.now trial.now }
    ensures answer { Answers (audits_catalogue (S.files shelf.old) catalogue.now)
        (Rises S.faults shelf.old shelf.new) result }
    ensures asked { AsksIn (S.asked shelf.old) (S.asked shelf.new)
        (audits_catalogue (S.files shelf.old) catalogue.now) result }
    ensures files { S.files shelf.new ≡ S.files shelf.old }
    ensures later { S.faults shelf.old ≤ S.faults shelf.new }
{
    let mut coded = no_data(alloc, catalogue)?;
    let files = load_all(alloc, shelf, catalogue, &trial.wanted, &mut coded)?;
    audit_facts(alloc, shelf, catalogue, trial, &files, coded)
}

/// Loads all datasets, as far as the audit rests on them, and tells whether their facts meet the rules and the
/// fragments' files hold the rows of their views; Differs comes with the first difference.
pub fn audit_catalogue<S: Shelf>(
    alloc: Global,
    shelf: &mut S,
    catalogue: &Catalogue,
) -> Result<Reply, Status>
    ensures answer { Answers (audits_catalogue (S.files shelf.old) catalogue.now)
        (Rises S.faults shelf.old shelf.new) result }
    ensures asked { AsksIn (S.asked shelf.old) (S.asked shelf.new)
        (audits_catalogue (S.files shelf.old) catalogue.now) result }
    ensures files { S.files shelf.new ≡ S.files shelf.old }
    ensures later { S.faults shelf.old ≤ S.faults shelf.new }
{
    let trial = trial_of(alloc, catalogue)?;
    audit_trial(alloc, shelf, catalogue, &trial)
}
