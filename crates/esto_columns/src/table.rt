//! Tables of codes.
ghost use Rattle.std.specs.Prelude.{◌≡◌, ℕ, List, [], ◌∷◌, ◌++◌, ◌<◌, length, map, slice_get, slice_index_or, Some, IfOk, OnOk, OnErr, take};
ghost use Rattle.esto_columns.specs.CodedRows.{CodedRows, rows_of};
ghost use Rattle.esto_columns.specs.Columns.{pushed, HaveLength};

use crate::column::Column;
use esto_term::{OutOfMemory, Replicate, Values};
use std::alloc::Global;
use std::marker::Model;

/// Rows of codes, kept by columns, which contracts see as their arity and their list.
#[derive(Drop)]
pub(crate) struct Table {
    columns: Vec<Column>,
    count: usize,
}

impl Model for Table {
    ghost use Rattle.std.specs.Prelude.{length};
    ghost use Rattle.esto_columns.specs.CodedRows.{CodedRows, rows_of};
    ghost use Rattle.esto_columns.specs.Columns.{HaveLength};

    ghost Value = { CodedRows };

    ghost view = { λ it. record {
      arity = length it.columns.items;
      rows =
          rows_of it.columns.items it.count;
    } };

    ghost invariant = { λ it. HaveLength it.count it.columns.items };
}

/// Puts the codes of a row at the ends of the columns, one each, as far as memory allows.
fn push_codes(columns: &mut Vec<Column>, row: &[u64]) -> Result<(), OutOfMemory>
    requires { length row.now ≡ length columns.old.items }
    ensures ok { OnOk result
        (columns.new.items ≡ pushed (length row.now) columns.old.items row.now) }
    ensures err { OnErr result ((count : ℕ)
        × (columns.new.items ≡ pushed count columns.old.items row.now)) }
{
    'codes: for (at, code) in row.iter().enumerate() {
        let column = &mut columns[at];
        column.push(*code)?;
    }
    Ok(())
}

/// Copies of the columns.
fn copied(alloc: Global, columns: &[Column]) -> Result<Vec<Column>, OutOfMemory>
    ensures { IfOk result (λ it. it.items ≡ columns.now) }
{
    let mut copies = Vec::new(alloc);
    'columns: for column in columns {
        let copy = column.copy(alloc)?;
        let Ok(()) = copies.push(copy) else {
            return Err(OutOfMemory);
        };
    }
    Ok(copies)
}

/// Cuts each column to so many codes.
fn cut(columns: &mut Vec<Column>, count: usize)
    ensures { columns.new.items ≡ map (λ column. take count column) columns.old.items }
{
    'columns: for column in columns.iter_mut() {
        column.truncate(count);
    }
}

impl Table {
    /// No rows of the arity, with memory for so many.
    pub(crate) fn new(alloc: Global, arity: usize, room: usize) -> Result<Table, OutOfMemory>
        ensures { IfOk result (λ it. it ≡ record { arity = arity; rows = [] }) }
    {
        let mut columns = Vec::new(alloc);
        'columns: for _column in 0..arity {
            let column = Column::with_room(alloc, room)?;
            let Ok(()) = columns.push(column) else {
                return Err(OutOfMemory);
            };
        }
        Ok(Table { columns, count: 0 })
    }

    /// The rows that so many codes of each column give: the row at a place holds the columns' codes there.
    pub(crate) fn of_columns(columns: Vec<Column>, count: usize) -> Table
        requires { HaveLength count columns.items }
        ensures { result ≡ record { arity = length columns.items; rows = rows_of columns.items count } }
    {
        Table { columns, count }
    }

    /// Puts a row at the end.
    pub(crate) fn add(&mut self, row: &[u64]) -> Result<(), OutOfMemory>
        requires { length row.now ≡ self.old.arity }
        ensures ok { OnOk result (self.new
            ≡ record { arity = self.old.arity; rows = self.old.rows ++ row.now ∷ [] }) }
        ensures err { OnErr result (self.new ≡ self.old) }
    {
        if self.count == usize::MAX {
            return Err(OutOfMemory);
        }
        match push_codes(&mut self.columns, row) {
            Ok(()) => {
                self.count += 1;
                Ok(())
            }
            Err(error) => {
                cut(&mut self.columns, self.count);
                Err(error)
            }
        }
    }

    /// How many columns each row has.
    pub(crate) fn arity(&self) -> usize
        ensures value { result ≡ self.now.arity }
        ensures fits { HaveLength self.now.arity self.now.rows }
    {
        self.columns.len()
    }

    /// How many rows there are.
    pub(crate) fn len(&self) -> usize
        ensures { result ≡ length self.now.rows }
    {
        self.count
    }

    /// The column, which holds the codes of all rows there.
    pub(crate) fn column(&self, column: usize) -> &Column
        requires { column < self.now.arity }
        ensures { result.now ≡ map (λ row. slice_index_or row column 0) self.now.rows }
    {
        &self.columns[column]
    }

    /// Puts the codes of the row at a place at the end of these codes.
    pub(crate) fn push_row(&self, at: usize, into: &mut Values<u64>) -> Result<(), OutOfMemory>
        requires { at < length self.now.rows }
        ensures { OnOk result ((row : List ℕ)
            × (slice_get self.now.rows at ≡ Some row) × (into.new ≡ into.old ++ row)) }
    {
        'columns: for column in self.columns.as_slice() {
            into.push(column.item(at))?;
        }
        Ok(())
    }

    /// Makes these codes those of the row at a place.
    pub(crate) fn read_row(&self, at: usize, codes: &mut Values<u64>) -> Result<(), OutOfMemory>
        requires { at < length self.now.rows }
        ensures { OnOk result (slice_get self.now.rows at ≡ Some codes.new) }
    {
        codes.truncate(0);
        self.push_row(at, codes)
    }

    /// The same rows.
    pub(crate) fn copy(&self, alloc: Global) -> Result<Table, OutOfMemory>
        ensures { IfOk result (λ it. it ≡ self.now) }
    {
        let columns = copied(alloc, self.columns.as_slice())?;
        Ok(Table {
            columns,
            count: self.count,
        })
    }
}
