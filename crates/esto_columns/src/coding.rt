//! Rows of texts as rows of codes.
ghost use Rattle.std.specs.Prelude.{◌≡◌, ℕ, List, [], ◌∷◌, ◌++◌, length, Contains, IfOk, OnOk};
ghost use Rattle.esto_columns.specs.Interned.{Grows, AreCodesOf, AreCodedRows};

use crate::codes::Codes;
use crate::rows::Rows;
use esto_term::{List, OutOfMemory, TextRow, TextRows, Values};
use std::alloc::Global;

/// The codes of a row of texts. New texts get codes.
fn code_row(alloc: Global, row: &TextRow, codes: &mut Codes) -> Result<Values<u64>, OutOfMemory>
    ensures coded { IfOk result (λ it. AreCodesOf codes.new it row.now) }
    ensures grown { Grows codes.old codes.new }
{
    let mut coded = Values::new(alloc);
    'texts: for text in row.items() {
        match codes.intern(text.bytes()) {
            Ok(code) => coded.push(code)?,
            Err(_) => return Err(OutOfMemory),
        }
    }
    Ok(coded)
}

/// Puts the codes of a row of texts after the rows of codes. New texts get codes.
fn add_coded(
    alloc: Global,
    row: &TextRow,
    codes: &mut Codes,
    coded: &mut Rows,
) -> Result<(), OutOfMemory>
    requires { length row.now ≡ coded.old.arity }
    ensures arity { OnOk result (coded.new.arity ≡ coded.old.arity) }
    ensures coded { OnOk result ((rows : List (List (List ℕ)))
        → AreCodedRows codes.old coded.old.rows rows
        → AreCodedRows codes.new coded.new.rows (rows ++ row.now ∷ [])) }
    ensures grown { Grows codes.old codes.new }
{
    let code = code_row(alloc, row, codes)?;
    coded.add(code.items())
}

/// The rows of texts as rows of codes, in order. New texts get codes.
pub fn code_rows(
    alloc: Global,
    rows: &TextRows,
    arity: usize,
    codes: &mut Codes,
) -> Result<Rows, OutOfMemory>
    requires { (row : List (List ℕ)) → Contains rows.now row → length row ≡ arity }
    ensures arity { IfOk result (λ it. it.arity ≡ arity) }
    ensures coded { IfOk result (λ it. AreCodedRows codes.new it.rows rows.now) }
    ensures grown { Grows codes.old codes.new }
{
    let mut coded = Rows::new(alloc, arity)?;
    'rows: for row in rows.items() {
        add_coded(alloc, row, codes, &mut coded)?;
    }
    Ok(coded)
}

/// The rows of texts as rows of codes, in order. Each row is emptied as soon as it has its codes.
fn code_each(
    alloc: Global,
    rows: &mut TextRows,
    arity: usize,
    codes: &mut Codes,
) -> Result<Rows, OutOfMemory>
    requires { (row : List (List ℕ)) → Contains rows.old row → length row ≡ arity }
    ensures arity { IfOk result (λ it. it.arity ≡ arity) }
    ensures coded { IfOk result (λ it. AreCodedRows codes.new it.rows rows.old) }
    ensures grown { Grows codes.old codes.new }
{
    let mut coded = Rows::new(alloc, arity)?;
    'rows: for at in 0..rows.len() {
        add_coded(alloc, rows.item(at), codes, &mut coded)?;
        rows.set(at, List::new(alloc));
    }
    Ok(coded)
}

/// The same rows of codes as those of `code_rows`, for rows of texts that are not wanted any more: each is let go as soon
/// as it has its codes, so that texts and codes of a long list don't stand beside one another.
pub fn code_taken_rows(
    alloc: Global,
    rows: TextRows,
    arity: usize,
    codes: &mut Codes,
) -> Result<Rows, OutOfMemory>
    requires { (row : List (List ℕ)) → Contains rows row → length row ≡ arity }
    ensures arity { IfOk result (λ it. it.arity ≡ arity) }
    ensures coded { IfOk result (λ it. AreCodedRows codes.new it.rows rows) }
    ensures grown { Grows codes.old codes.new }
{
    let mut rows = rows;
    code_each(alloc, &mut rows, arity, codes)
}
