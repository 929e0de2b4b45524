//! Facts as rows of codes.
ghost use Rattle.std.specs.Prelude.{◌≡◌, ℕ, ◌++◌, List, [], length, map, slice_get, Some, Contains, IfOk, OnOk};
ghost use Rattle.esto_columns.specs.Interned.{AreCodedRows, Grows};
ghost use Rattle.esto_relmodel.specs.RowFacts.{row_fact};
ghost use Rattle.esto_semantics.specs.declared.fact.Fact.{Fact};
ghost use Rattle.esto_stores.specs.Coded.{CodesRows};
ghost use Rattle.esto_stores.specs.Keys.{key_fault, key_rows};
ghost use Rattle.esto_stores.specs.Table.{table_fault, table_rows};
ghost use Rattle.esto_term.specs.declared.term.Term.{Term};
ghost use Rattle.esto_coded.specs.Coded.{OrderedStand, StandFor, StandInOrder, arities_of};
ghost use Rattle.esto_coded.specs.Relations.{AreWhole, coded_of};

use crate::relations::{no_relations, put_rows};
use esto_columns::{Codes, Rows, StoredRows, code_taken_rows};
use esto_ports::FileError;
use esto_stores::{code_keys, code_table};
use esto_term::{OutOfMemory, TextRow, TextRows};
use std::alloc::Global;
use std::marker::Model;

/// The first code of a node: the codes of texts stand below it. So many texts take more than a hundred gigabytes, and the
/// codes of as many nodes take four bytes each.
pub const FIRST_NODE: u64 = 2_147_483_648;

/// Facts over constants and plain terms, which are nodes, as rows of codes: contracts see the texts in the order of
/// their codes, and for each relation its rows. For which facts they stand, read as a set, says `StandFor`, and in
/// which order `StandInOrder`.
#[derive(Drop)]
pub struct CodedFacts {
    pub(crate) codes: Codes,
    pub(crate) relations: Vec<StoredRows>,
}

impl Model for CodedFacts {
    ghost use Rattle.esto_coded.specs.Coded.{Coded};
    ghost use Rattle.esto_coded.specs.Relations.{AreWhole, coded_of};

    ghost Value = { Coded };

    ghost view = { λ it. coded_of it.codes it.relations.items };

    ghost invariant = { λ it. AreWhole it.relations.items };
}

/// Puts the rows of codes into the relation of the number.
fn put_codes(
    alloc: Global,
    number: usize,
    rows: Rows,
    relations: &mut Vec<StoredRows>,
) -> Result<(), OutOfMemory>
    requires { slice_get (arities_of (coded_of [] relations.old.items)) number ≡ Some rows.arity }
    ensures whole { AreWhole relations.old.items → AreWhole relations.new.items }
    ensures arities { OnOk result (arities_of (coded_of [] relations.new.items)
        ≡ arities_of (coded_of [] relations.old.items)) }
    ensures facts { OnOk result ((texts : List (List ℕ)) (list : List (List (List ℕ)))
        → AreCodedRows texts rows.rows list → (facts : List (Fact Term))
        → StandFor (coded_of texts relations.old.items) facts
        → StandFor (coded_of texts relations.new.items) (facts ++ map (row_fact number) list)) }
    ensures ordered { OnOk result ((texts : List (List ℕ)) (list : List (List (List ℕ)))
        → AreCodedRows texts rows.rows list → (facts : List (Fact Term))
        → StandInOrder (coded_of texts relations.old.items) facts
        → StandInOrder (coded_of texts relations.new.items) (facts ++ map (row_fact number) list)) }
{
    let relation = &mut relations[number];
    put_rows(alloc, rows, &mut relation.rows)
}

impl CodedFacts {
    /// No facts, over so many relations as there are arities.
    pub fn none(alloc: Global, arities: &[usize]) -> Result<CodedFacts, OutOfMemory>
        ensures arities { IfOk result (λ it. arities_of it ≡ arities.now) }
        ensures facts { IfOk result (λ it. StandFor it []) }
        ensures ordered { IfOk result (λ it. StandInOrder it []) }
    {
        let relations = no_relations(alloc, arities)?;
        Ok(CodedFacts {
            codes: Codes::new(alloc),
            relations,
        })
    }

    /// Puts the facts of rows of texts, each over its cells as constants, of which these are the rows of codes. After an
    /// error some of them may be put.
    pub fn put_coded(
        &mut self,
        alloc: Global,
        relation: usize,
        rows: Rows,
    ) -> Result<(), OutOfMemory>
        requires { slice_get (arities_of self.old) relation ≡ Some rows.arity }
        ensures arities { OnOk result (arities_of self.new ≡ arities_of self.old) }
        ensures texts { self.new.texts ≡ self.old.texts }
        ensures facts { OnOk result ((list : List (List (List ℕ)))
            → AreCodedRows self.old.texts rows.rows list
            → (facts : List (Fact Term)) → StandFor self.old facts
            → StandFor self.new (facts ++ map (row_fact relation) list)) }
        ensures ordered { OnOk result ((list : List (List (List ℕ)))
            → AreCodedRows self.old.texts rows.rows list
            → (facts : List (Fact Term)) → StandInOrder self.old facts
            → StandInOrder self.new (facts ++ map (row_fact relation) list)) }
    {
        put_codes(alloc, relation, rows, &mut self.relations)
    }

    /// The rows of texts as rows of codes, in order. New texts get codes.
    pub fn code_rows(
        &mut self,
        alloc: Global,
        rows: TextRows,
        arity: usize,
    ) -> Result<Rows, OutOfMemory>
        requires { (row : List (List ℕ)) → Contains rows row → length row ≡ arity }
        ensures arities { arities_of self.new ≡ arities_of self.old }
        ensures facts { (facts : List (Fact Term))
            → StandFor self.old facts → StandFor self.new facts }
        ensures ordered { (facts : List (Fact Term)) → StandInOrder self.old facts
            → StandInOrder self.new facts }
        ensures grown { Grows self.old.texts self.new.texts }
        ensures rows { IfOk result (λ it. (it.arity ≡ arity)
            × AreCodedRows self.new.texts it.rows rows) }
    {
        code_taken_rows(alloc, rows, arity, &mut self.codes)
    }

    /// The rows of a CSV file that declares these columns, as rows of codes, in order, or its first fault. New texts
    /// get codes.
    pub fn code_table(
        &mut self,
        alloc: Global,
        bytes: &[u8],
        columns: &TextRow,
    ) -> Result<Rows, FileError>
        ensures arities { arities_of self.new ≡ arities_of self.old }
        ensures facts { (facts : List (Fact Term))
            → StandFor self.old facts → StandFor self.new facts }
        ensures ordered { (facts : List (Fact Term)) → StandInOrder self.old facts
            → StandInOrder self.new facts }
        ensures grown { Grows self.old.texts self.new.texts }
        ensures rows { CodesRows (table_rows columns.now bytes.now)
            (table_fault columns.now bytes.now) (length columns.now) self.new.texts result }
    {
        code_table(alloc, bytes, columns, &mut self.codes)
    }

    /// The rows of a key file with so many columns, as rows of codes, in order, or its first fault. New texts get
    /// codes.
    pub fn code_keys(
        &mut self,
        alloc: Global,
        bytes: &[u8],
        cells: usize,
    ) -> Result<Rows, FileError>
        ensures arities { arities_of self.new ≡ arities_of self.old }
        ensures facts { (facts : List (Fact Term))
            → StandFor self.old facts → StandFor self.new facts }
        ensures ordered { (facts : List (Fact Term)) → StandInOrder self.old facts
            → StandInOrder self.new facts }
        ensures grown { Grows self.old.texts self.new.texts }
        ensures rows { CodesRows (key_rows bytes.now) (key_fault cells bytes.now) cells
            self.new.texts result }
    {
        code_keys(alloc, bytes, cells, &mut self.codes)
    }
}

/// A law: rows of codes that stand for facts in order stand for these facts, read as a set.
pub fn rows_in_order_stand_for_facts()
    ensures { OrderedStand }
{}
