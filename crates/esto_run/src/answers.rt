//! The text of a query's answers.
ghost use Rattle.std.specs.Prelude.{◌≡◌, ◌<◌, ℕ, List, length, All, Contains, IfOk};
ghost use Rattle.esto_term.specs.declared.term.Term.{out-Term};
ghost use Rattle.esto_rows.specs.Lent.{lent_rows};
ghost use Rattle.esto_stores.specs.Rows.{Row};
ghost use Rattle.esto_run.specs.Answers.{IsAnswersText, level_name, head_names, rows_text};
ghost use Rattle.esto_run.specs.Coded.{IsCodedRow};

use esto_columns::{Codes, Rows};
use esto_query::{Name, Names, Query};
use esto_rows::{LentRows, sorted_rows};
use esto_stores::{write_lent_records, write_records};
use esto_term::{Bytes, List, OutOfMemory, Replicate, Term, Text, TextRow, TextRows};
use std::alloc::Global;

/// The given name of the variable that the term is; the empty text where it has none, or where the term is no variable.
fn name_of(alloc: Global, names: &Names, term: &Term) -> Result<Text, OutOfMemory>
    ensures { IfOk result (λ it. it ≡ level_name names.now (out-Term term.now)) }
{
    let Term::Plain(variable) = term else {
        return Ok(Text::new(alloc));
    };
    let place = *variable as usize;
    if place >= names.len() {
        return Ok(Text::new(alloc));
    }
    match names.item(place) {
        Name::Given(name) => name.copy(alloc),
        Name::Hidden => Ok(Text::new(alloc)),
    }
}

/// The names of the variables of the query's head, in order.
fn head_names(alloc: Global, query: &Query) -> Result<TextRow, OutOfMemory>
    ensures { IfOk result (λ it. it ≡ head_names query.now) }
{
    let mut names = List::new(alloc);
    'terms: for term in query.head.items() {
        let name = name_of(alloc, &query.names, term)?;
        names.push(name)?;
    }
    Ok(names)
}

/// The text of rows of answers of the query: a CSV record of the names of its head's variables, of which one may stand
/// there twice, and a record of each row, in order. With no rows it is the text of a query without answers.
pub fn answers_text(alloc: Global, query: &Query, rows: &TextRows) -> Result<Bytes, OutOfMemory>
    requires { All (λ row. length row ≡ length query.now.head) rows.now }
    ensures { IfOk result (λ it. it ≡ rows_text query.now rows.now) }
{
    let names = head_names(alloc, query)?;
    write_records(alloc, &names, rows)
}

// The text of rows of answers of the query, whose cells are lent.
fn lent_answers_text(alloc: Global, query: &Query, rows: &[&[&[u8]]]) -> Result<Bytes, OutOfMemory>
    requires { All (λ row. length row ≡ length query.now.head) (lent_rows rows.now) }
    ensures { IfOk result (λ it. it ≡ rows_text query.now (lent_rows rows.now)) }
{
    let names = head_names(alloc, query)?;
    write_lent_records(alloc, &names, rows)
}

/// The text of the rows of codes, each once, in rising order, cell by cell by bytes, under the names of the query's head.
pub(crate) fn coded_answers_text(
    alloc: Global,
    query: &Query,
    codes: &Codes,
    rows: &Rows,
) -> Result<Bytes, OutOfMemory>
    requires below { (row : List ℕ) → Contains rows.now.rows row
        → (code : ℕ) → Contains row code → code < length codes.now }
    requires wide { (row : Row) → IsCodedRow codes.now rows.now.rows row
        → length row ≡ length query.now.head }
    ensures { IfOk result (IsAnswersText query.now (IsCodedRow codes.now rows.now.rows)) }
{
    let lent = LentRows::of(alloc, rows, codes)?;
    let sorted = sorted_rows(alloc, &lent)?;
    lent_answers_text(alloc, query, sorted.as_slice())
}
