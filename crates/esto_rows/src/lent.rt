//! Rows of texts that codes lend, all in one list.
ghost use Rattle.std.specs.Prelude.{◌≡◌, ◌<◌, ◌+◌, List, [], ℕ, length, map, take, drop, Contains, IfOk, OnOk};
ghost use Rattle.std.specs.List.{concat};
ghost use Rattle.esto_columns.specs.Interned.{AreCodesOf, AreCodedRows};
ghost use Rattle.esto_rows.specs.Lent.{AddsTextsOf, lent_rows, rows_in};

use esto_columns::{Codes, Rows};
use esto_term::{OutOfMemory, Values};
use std::alloc::Global;
use std::marker::Model;

/// Rows of texts that are lent, which contracts see as the list of the rows. The texts stand in one list, row after
/// row, so that a row takes no memory of its own.
#[derive(Drop)]
pub struct LentRows<'a> {
    texts: Vec<&'a [u8]>,
    arity: usize,
    count: usize,
}

impl<'a> Model for LentRows<'a> {
    ghost use Rattle.std.specs.Prelude.{List, ℕ, map};
    ghost use Rattle.esto_rows.specs.Lent.{rows_in};

    ghost Value = { List (List (List ℕ)) };

    ghost view = { λ it. rows_in it.arity it.count (map (λ text. text.now) it.texts.items) };
}

/// Puts the texts of the codes at the end, which the codes lend.
fn push_texts<'a>(
    texts: &mut Vec<&'a [u8]>,
    codes: &'a Codes,
    row: &[u64],
) -> Result<(), OutOfMemory>
    requires { (code : ℕ) → Contains row.now code → code < length codes.now }
    ensures { OnOk result (AddsTextsOf codes.now row.now
        (map (λ text. text.now) texts.old.items) (map (λ text. text.now) texts.new.items)) }
{
    'codes: for code in row {
        let Ok(()) = texts.push(codes.text(*code)) else {
            return Err(OutOfMemory);
        };
    }
    Ok(())
}

/// Puts the texts of the row of codes at the place at the end. The codes are read into the list.
fn push_row<'a>(
    texts: &mut Vec<&'a [u8]>,
    codes: &'a Codes,
    rows: &Rows,
    at: usize,
    row: &mut Values<u64>,
) -> Result<(), OutOfMemory>
    requires there { at < length rows.now.rows }
    requires coded { (row : List ℕ) → Contains rows.now.rows row
        → (code : ℕ) → Contains row code → code < length codes.now }
    requires before { AreCodesOf codes.now (concat (take at rows.now.rows))
        (map (λ text. text.now) texts.old.items) }
    ensures { OnOk result (AreCodesOf codes.now (concat (take (at + 1) rows.now.rows))
        (map (λ text. text.now) texts.new.items)) }
{
    rows.read_row(at, row)?;
    push_texts(texts, codes, row.items())
}

/// Puts the texts of the rows of codes into the list, which is empty, row after row.
fn push_rows<'a>(
    texts: &mut Vec<&'a [u8]>,
    codes: &'a Codes,
    rows: &Rows,
) -> Result<(), OutOfMemory>
    requires coded { (row : List ℕ) → Contains rows.now.rows row
        → (code : ℕ) → Contains row code → code < length codes.now }
    requires none { texts.old.items ≡ [] }
    ensures { OnOk result (AreCodesOf codes.now (concat rows.now.rows)
        (map (λ text. text.now) texts.new.items)) }
{
    let mut row = Values::new(*texts.allocator());
    'rows: for at in 0..rows.len() {
        push_row(texts, codes, rows, at, &mut row)?;
    }
    Ok(())
}

/// The texts of the rows of codes, row after row.
fn texts_of<'a>(alloc: Global, rows: &Rows, codes: &'a Codes) -> Result<Vec<&'a [u8]>, OutOfMemory>
    requires { (row : List ℕ) → Contains rows.now.rows row
        → (code : ℕ) → Contains row code → code < length codes.now }
    ensures { IfOk result (λ it. AreCodesOf codes.now (concat rows.now.rows)
        (map (λ text. text.now) it.items)) }
{
    let Ok(mut texts) = Vec::with_capacity(alloc, rows.arity().saturating_mul(rows.len())) else {
        return Err(OutOfMemory);
    };
    push_rows(&mut texts, codes, rows)?;
    Ok(texts)
}

/// The first items, so many, or all where there are fewer.
fn before<T>(items: &[T], count: usize) -> &[T]
    ensures { result.now ≡ take count items.now }
{
    if items.len() < count {
        return items;
    }
    let (first, _) = items.split_at(count);
    first
}

/// The items from the place on.
pub(crate) fn after<T>(items: &[T], place: usize) -> &[T]
    ensures { result.now ≡ drop place items.now }
{
    if items.len() < place {
        return &[];
    }
    let (_, rest) = items.split_at(place);
    rest
}

/// Puts so many rows of so many texts each, which stand row after row, into the list of rows, which is empty.
fn push_parts<'a, 'b>(
    rows: &mut Vec<&'b [&'a [u8]]>,
    texts: &'b [&'a [u8]],
    arity: usize,
    count: usize,
) -> Result<(), OutOfMemory>
    requires none { rows.old.items ≡ [] }
    ensures { OnOk result
        (lent_rows rows.new.items ≡ rows_in arity count (map (λ text. text.now) texts.now)) }
{
    let mut rest = texts;
    'rows: for _row in 0..count {
        let Ok(()) = rows.push(before(rest, arity)) else {
            return Err(OutOfMemory);
        };
        rest = after(rest, arity);
    }
    Ok(())
}

impl<'a> LentRows<'a> {
    /// The texts of the rows of codes, in order. The codes lend the texts.
    pub fn of(alloc: Global, rows: &Rows, codes: &'a Codes) -> Result<LentRows<'a>, OutOfMemory>
        requires { (row : List ℕ) → Contains rows.now.rows row
            → (code : ℕ) → Contains row code → code < length codes.now }
        ensures { IfOk result (AreCodedRows codes.now rows.now.rows) }
    {
        let texts = texts_of(alloc, rows, codes)?;
        Ok(LentRows {
            texts,
            arity: rows.arity(),
            count: rows.len(),
        })
    }

    /// The rows, in order.
    pub fn rows(&self, alloc: Global) -> Result<Vec<&[&'a [u8]]>, OutOfMemory>
        ensures { IfOk result (λ it. lent_rows it.items ≡ self.now) }
    {
        let Ok(mut rows) = Vec::with_capacity(alloc, self.count) else {
            return Err(OutOfMemory);
        };
        push_parts(&mut rows, self.texts.as_slice(), self.arity, self.count)?;
        Ok(rows)
    }
}
