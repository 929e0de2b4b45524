//! The command `check`.
ghost use Rattle.std.specs.Prelude.{◌≡◌, ◌++◌, length, IfOk, OnOk};
ghost use Rattle.esto_query.specs.Schemas.{names_of};
ghost use Rattle.esto_top.specs.Check.{count_lines, rank_line, rank_lines, check_text, prints_check};
ghost use Rattle.esto_status.specs.Answers.{Answers};

use esto_constraint::Ranks;
use esto_mapping::{Catalogue, catalogues_are_sound};
use esto_query::Schema;
use esto_status::{Reply, Status};
use esto_term::{Bytes, OutOfMemory, Text};
use std::alloc::Global;

// The lines of the counts of datasets, fragments and constraints.
fn count_lines(
    alloc: Global,
    datasets: usize,
    fragments: usize,
    constraints: usize,
) -> Result<Bytes, OutOfMemory>
    ensures { IfOk result (λ text. text ≡ count_lines datasets fragments constraints) }
{
    let lines = format!(in alloc;
        "datasets {datasets}\nfragments {fragments}\nconstraints {constraints}\n"
    )?;
    Ok(Bytes::from_string(lines))
}

// Puts the line of a relation and its rank at the end.
fn put_rank(alloc: Global, text: &mut Bytes, name: &Text, rank: u64) -> Result<(), OutOfMemory>
    ensures { OnOk result (text.new ≡ text.old ++ rank_line name.now rank) }
{
    let name = name.as_str();
    let line = format!(in alloc; "{name} {rank}\n")?;
    text.append_str(line.as_str())
}

// Puts the lines of the relations and their ranks at the end.
fn put_ranks(
    alloc: Global,
    text: &mut Bytes,
    schema: &Schema,
    ranks: &Ranks,
) -> Result<(), OutOfMemory>
    requires { length ranks.now ≡ length schema.now }
    ensures { OnOk result (text.new ≡ text.old ++ rank_lines (names_of schema.now) ranks.now) }
{
    'relations: for relation in 0..schema.len() {
        put_rank(alloc, text, schema.name(relation), ranks.rank(relation))?;
    }
    Ok(())
}

// What the command prints.
fn check_text(alloc: Global, catalogue: &Catalogue) -> Result<Bytes, OutOfMemory>
    ensures { IfOk result (λ text. text ≡ check_text catalogue.now) }
{
    catalogues_are_sound();
    let datasets = catalogue.datasets.len();
    let fragments = catalogue.fragments.len();
    let mut text = count_lines(alloc, datasets, fragments, catalogue.given)?;
    put_ranks(alloc, &mut text, &catalogue.schema, &catalogue.ranks)?;
    Ok(text)
}

/// Prints the counts of the catalogue and the ranks of its relations.
#[tactic(auto, using(crate::proofs::Steps::steps))]
pub fn check(alloc: Global, catalogue: &Catalogue) -> Result<Reply, Status>
    ensures { Answers (prints_check catalogue.now) ⊥ result }
{
    let text = check_text(alloc, catalogue)?;
    Ok(Reply::Done(text))
}
