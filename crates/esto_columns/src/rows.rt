//! Rows of codes, with indexes.
ghost use Rattle.std.specs.Prelude.{◌≡◌, ◌+◌, ℕ, List, [], ◌∷◌, ◌++◌, ◌<◌, length, map, take, slice_get, slice_index_or, Some, IfOk, OnOk, OnErr, MatchOption};
ghost use Rattle.esto_columns.specs.CodedRows.{CodedRows, rows_of};
ghost use Rattle.esto_columns.specs.Columns.{HaveLength};
ghost use Rattle.esto_columns.specs.Indexed.{IsIndexOf, AreAmongPlaces, key_at};

use crate::column::Column;
use crate::index::{Index, RowIndex};
use crate::table::Table;
use esto_term::{List, OutOfMemory, Places, Values};
use std::alloc::Global;
use std::marker::Model;

/// Rows of codes, which contracts see as their arity and their list. They are kept by columns. Their indexes serve
/// to find rows faster, and contracts don't see them.
#[derive(Drop)]
pub struct Rows {
    table: Table,
    indexes: List<RowIndex>,
}

impl Model for Rows {
    ghost use Rattle.esto_columns.specs.CodedRows.{CodedRows};
    ghost use Rattle.esto_columns.specs.RowIndexes.{AreIndexes};

    ghost Value = { CodedRows };

    ghost view = { λ it. it.table };

    ghost invariant = { λ it. AreIndexes it.table.rows it.indexes };
}

/// The code of the row in the column; a column that is not there has the code 0.
fn code_at(row: &[u64], column: usize) -> u64
    ensures { result ≡ slice_index_or row.now column 0 }
{
    match row.get(column) {
        Some(code) => *code,
        None => 0,
    }
}

/// Makes the key the codes of the row in the columns.
fn read_key(columns: &[usize], row: &[u64], key: &mut Values<u64>) -> Result<(), OutOfMemory>
    ensures { OnOk result (key.new ≡ key_at columns.now row.now) }
{
    key.truncate(0);
    'columns: for column in columns {
        key.push(code_at(row, *column))?;
    }
    Ok(())
}

/// Puts the key of the row at the place into the index of the rows before it. The row and its key are read into the two
/// lists.
fn index_row(
    table: &Table,
    columns: &[usize],
    at: usize,
    row: &mut Values<u64>,
    key: &mut Values<u64>,
    index: &mut Index,
) -> Result<(), OutOfMemory>
    requires there { at < length table.now.rows }
    requires own { IsIndexOf index.old (map (key_at columns.now) (take at table.now.rows)) }
    ensures { OnOk result
        (IsIndexOf index.new (map (key_at columns.now) (take (at + 1) table.now.rows))) }
{
    table.read_row(at, row)?;
    read_key(columns, row.items(), key)?;
    index.add(key.items())
}

/// Puts the keys of the table's rows by the columns into an index of no rows. The rows and their keys are read into the
/// two lists.
fn with_keys(
    table: &Table,
    columns: &[usize],
    row: &mut Values<u64>,
    key: &mut Values<u64>,
    none: Index,
) -> Result<Index, OutOfMemory>
    requires { IsIndexOf none [] }
    ensures { IfOk result (λ it. IsIndexOf it (map (key_at columns.now) table.now.rows)) }
{
    let mut index = none;
    'rows: for at in 0..table.len() {
        index_row(table, columns, at, row, key, &mut index)?;
    }
    Ok(index)
}

/// The index of the table's rows by the columns.
fn indexed(alloc: Global, table: &Table, columns: &[usize]) -> Result<Index, OutOfMemory>
    ensures { IfOk result (λ it. IsIndexOf it (map (key_at columns.now) table.now.rows)) }
{
    let index = Index::new(alloc, table.len())?;
    let mut row = Values::new(alloc);
    let mut key = Values::new(alloc);
    with_keys(table, columns, &mut row, &mut key, index)
}

impl Rows {
    /// No rows of the arity.
    pub fn new(alloc: Global, arity: usize) -> Result<Rows, OutOfMemory>
        ensures { IfOk result (λ it. it ≡ record { arity = arity; rows = [] }) }
    {
        Rows::with_room(alloc, arity, 0)
    }

    /// No rows of the arity, with memory for so many.
    pub fn with_room(alloc: Global, arity: usize, room: usize) -> Result<Rows, OutOfMemory>
        ensures { IfOk result (λ it. it ≡ record { arity = arity; rows = [] }) }
    {
        let table = Table::new(alloc, arity, room)?;
        Ok(Rows {
            table,
            indexes: List::new(alloc),
        })
    }

    /// The same rows, without indexes.
    pub fn copy(&self, alloc: Global) -> Result<Rows, OutOfMemory>
        ensures { IfOk result (λ it. it ≡ self.now) }
    {
        let table = self.table.copy(alloc)?;
        Ok(Rows {
            table,
            indexes: List::new(alloc),
        })
    }

    /// The rows that so many codes of each column give: the row at a place holds the columns' codes there.
    pub fn of_columns(alloc: Global, columns: Vec<Column>, count: usize) -> Rows
        requires { HaveLength count columns.items }
        ensures { result ≡ record { arity = length columns.items; rows = rows_of columns.items count } }
    {
        Rows {
            table: Table::of_columns(columns, count),
            indexes: List::new(alloc),
        }
    }

    /// Puts a row at the end. The indexes are dropped.
    pub fn add(&mut self, row: &[u64]) -> Result<(), OutOfMemory>
        requires { length row.now ≡ self.old.arity }
        ensures ok { OnOk result (self.new
            ≡ record { arity = self.old.arity; rows = self.old.rows ++ row.now ∷ [] }) }
        ensures err { OnErr result (self.new ≡ self.old) }
    {
        self.indexes.truncate(0);
        self.table.add(row)
    }

    /// Puts the row of other rows at the place at the end. It is read into the list.
    pub fn add_from(
        &mut self,
        rows: &Rows,
        at: usize,
        row: &mut Values<u64>,
    ) -> Result<(), OutOfMemory>
        requires there { at < length rows.now.rows }
        requires arity { self.old.arity ≡ rows.now.arity }
        ensures { OnOk result (self.new ≡ record {
          arity = self.old.arity;
          rows = self.old.rows ++ slice_index_or rows.now.rows at [] ∷ [];
        }) }
    {
        let _arity = rows.arity();
        rows.read_row(at, row)?;
        self.add(row.items())
    }

    /// Puts other rows at the end, one by one.
    pub fn add_all(&mut self, alloc: Global, rows: &Rows) -> Result<(), OutOfMemory>
        requires { self.old.arity ≡ rows.now.arity }
        ensures { OnOk result (self.new ≡ record {
          arity = self.old.arity;
          rows = self.old.rows ++ rows.now.rows;
        }) }
    {
        let mut row = Values::new(alloc);
        'rows: for at in 0..rows.len() {
            self.add_from(rows, at, &mut row)?;
        }
        Ok(())
    }

    /// How many columns each row has.
    pub fn arity(&self) -> usize
        ensures value { result ≡ self.now.arity }
        ensures fits { HaveLength self.now.arity self.now.rows }
    {
        self.table.arity()
    }

    /// How many rows there are.
    pub fn len(&self) -> usize
        ensures { result ≡ length self.now.rows }
    {
        self.table.len()
    }

    /// The column, which holds the codes of all rows there.
    pub fn column(&self, column: usize) -> &Column
        requires { column < self.now.arity }
        ensures { result.now ≡ map (λ row. slice_index_or row column 0) self.now.rows }
    {
        self.table.column(column)
    }

    /// Puts the codes of the row at a place at the end of these codes.
    pub fn push_row(&self, at: usize, into: &mut Values<u64>) -> Result<(), OutOfMemory>
        requires { at < length self.now.rows }
        ensures { OnOk result ((row : List ℕ)
            × (slice_get self.now.rows at ≡ Some row) × (into.new ≡ into.old ++ row)) }
    {
        self.table.push_row(at, into)
    }

    /// Makes these codes those of the row at a place.
    pub fn read_row(&self, at: usize, codes: &mut Values<u64>) -> Result<(), OutOfMemory>
        requires { at < length self.now.rows }
        ensures { OnOk result (slice_get self.now.rows at ≡ Some codes.new) }
    {
        self.table.read_row(at, codes)
    }

    /// Makes an index of the rows by the columns, which stays until a row is added.
    pub fn index(&mut self, alloc: Global, columns: &[usize]) -> Result<(), OutOfMemory>
        ensures { self.new ≡ self.old }
    {
        let index = indexed(alloc, &self.table, columns)?;
        let columns = Places::from_slice(alloc, columns)?;
        self.indexes.push(RowIndex { columns, index })
    }

    /// The index of the rows by the columns, in this order, if they have one.
    pub fn index_by(&self, columns: &[usize]) -> Option<&Index>
        ensures { MatchOption result Unit (λ index.
            IsIndexOf index.now (map (key_at columns.now) self.now.rows)) }
    {
        'indexes: for own in self.indexes.items() {
            if own.columns.items() == columns {
                return Some(&own.index);
            }
        }
        None
    }

    /// Places of rows in rising order, among which are all that hold the codes of the key in the columns. `None` may
    /// come where the rows have no index by these columns, in this order.
    pub fn places(
        &self,
        alloc: Global,
        columns: &[usize],
        key: &[u64],
    ) -> Result<Option<Vec<usize>>, OutOfMemory>
        ensures { IfOk result (λ found. MatchOption found Unit (λ places.
            AreAmongPlaces key.now (map (key_at columns.now) self.now.rows) places.items)) }
    {
        let Some(index) = self.index_by(columns) else {
            return Ok(None);
        };
        let places = index.places(alloc, key)?;
        Ok(Some(places))
    }
}
