//! Facts put as rows of codes.
ghost use Rattle.std.specs.Prelude.{◌≡◌, ◌+◌, [], length, slice_get, Some, IfOk, OnOk};
ghost use Rattle.esto_columns.specs.Interned.{Grows};
ghost use Rattle.esto_coded.specs.Coded.{StandInOrder, arities_of};
ghost use Rattle.esto_coded.specs.Relations.{AreWhole, PutsRow, coded_of};
ghost use Rattle.esto_coded.specs.declared.coded.TheConstants.{FIRST_NODE};

use crate::coded::{CodedFacts, FIRST_NODE};
use esto_columns::{Codes, StoredRows};
use esto_docmodel::FactSink;
use esto_term::OutOfMemory;
use std::alloc::Global;

/// The code of the node. Want of memory is answered where it has none.
fn code_of_node(node: u64) -> Result<u64, OutOfMemory>
    ensures { IfOk result (λ code. code ≡ FIRST_NODE + node) }
{
    match FIRST_NODE.checked_add(node) {
        Some(code) => Ok(code),
        None => Err(OutOfMemory),
    }
}

/// The code of the text. A new text gets a code.
fn code_of_text(text: &str, codes: &mut Codes) -> Result<u64, OutOfMemory>
    ensures code { IfOk result (λ code. slice_get codes.new code ≡ Some text.now) }
    ensures grown { Grows codes.old codes.new }
{
    match codes.intern(text.as_bytes()) {
        Ok(code) => Ok(code),
        Err(_) => Err(OutOfMemory),
    }
}

/// Puts the row of codes into the relation of the number.
fn put_row(number: usize, row: &[u64], relations: &mut Vec<StoredRows>) -> Result<(), OutOfMemory>
    requires { slice_get (arities_of (coded_of [] relations.old.items)) number
        ≡ Some (length row.now) }
    ensures whole { AreWhole relations.old.items → AreWhole relations.new.items }
    ensures row { OnOk result (PutsRow number row.now relations.old.items relations.new.items) }
{
    let relation = &mut relations[number];
    relation.rows.add(row)
}

/// The rows of codes stand for the facts in order. Want of memory is answered too where a node's number has no code.
impl FactSink for CodedFacts {
    ghost Holds = { StandInOrder };

    ghost arities = { λ it. Some (arities_of it) };

    fn put_one(&mut self, _: Global, relation: usize, node: u64) -> Result<(), OutOfMemory> {
        let node = code_of_node(node)?;
        put_row(relation, &[node], &mut self.relations)
    }

    fn put_two(
        &mut self,
        _: Global,
        relation: usize,
        node: u64,
        other: u64,
    ) -> Result<(), OutOfMemory> {
        let node = code_of_node(node)?;
        let other = code_of_node(other)?;
        put_row(relation, &[node, other], &mut self.relations)
    }

    fn put_text(
        &mut self,
        _: Global,
        relation: usize,
        node: u64,
        text: &str,
    ) -> Result<(), OutOfMemory> {
        let node = code_of_node(node)?;
        let text = code_of_text(text, &mut self.codes)?;
        put_row(relation, &[node, text], &mut self.relations)
    }

    fn put_named(
        &mut self,
        _: Global,
        relation: usize,
        node: u64,
        name: &str,
        other: u64,
    ) -> Result<(), OutOfMemory> {
        let node = code_of_node(node)?;
        let other = code_of_node(other)?;
        let name = code_of_text(name, &mut self.codes)?;
        put_row(relation, &[node, name, other], &mut self.relations)
    }
}
