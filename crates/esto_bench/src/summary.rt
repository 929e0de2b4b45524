//! The summary of a query.
ghost use Rattle.std.specs.Prelude.{◌≡◌, IfOk};
ghost use Rattle.esto_bench.specs.Summary.{summary_text};

use esto_term::{Bytes, OutOfMemory};
use std::alloc::Global;

/// What is summed up of a query over a catalogue and over a database.
#[derive(Clone, Copy)]
pub struct Summary {
    /// How many atoms the query's universal plan has.
    pub plan: usize,
    /// How many sets of them are listed.
    pub rewritings: usize,
    /// What the pick weighs.
    pub weight: u128,
    /// How many distinct answers the query has over the database.
    pub rows: usize,
}

/// The lines of the summary.
pub fn summary_text(alloc: Global, summary: &Summary) -> Result<Bytes, OutOfMemory>
    ensures { IfOk result (λ it. it ≡ summary_text summary.now) }
{
    let Summary {
        plan,
        rewritings,
        weight,
        rows,
    } = *summary;
    let text = format!(in alloc;
        "plan {plan}\nrewritings {rewritings}\nweight {weight}\nrows {rows}\n"
    )?;
    Ok(Bytes::from_string(text))
}
