//! Rows of fragments, kept as codes of their texts.
ghost use Rattle.std.specs.Prelude.{◌≡◌, ◌<◌, [], length, map, OnOk, OnErr};
ghost use Rattle.esto_docmodel.specs.Stores.{IsShapeFor};
ghost use Rattle.esto_ports.specs.FileFaults.{Gives};
ghost use Rattle.esto_run.specs.Opened.{ArePut, HaveTexts, held_of};
ghost use Rattle.esto_run.specs.Stored.{AreEmpty};
ghost use Rattle.esto_docs.specs.Stores.{IsRowIn, first_fault_in};

use crate::stored::stored_rows;
use esto_columns::{Codes, StoredRows};
use esto_docmodel::Shape;
use esto_docs::code_store;
use esto_ports::FileError;
use esto_term::List;
use esto_views::FragmentDef;
use std::alloc::Global;
use std::marker::Model;

/// The rows of fragments: contracts see for each fragment how it is asked and its rows of texts, of which there are none
/// where its file is not opened. They are kept as codes, each text once.
#[derive(Drop)]
pub struct FragmentRows {
    codes: Codes,
    stored: List<StoredRows>,
}

impl Model for FragmentRows {
    ghost use Rattle.std.specs.Prelude.{List, map};
    ghost use Rattle.esto_run.specs.Opened.{Held, HaveTexts, held_of};

    ghost Value = { List Held };

    ghost view = { λ it. map (held_of it.codes) it.stored };

    ghost invariant = { λ it. HaveTexts it.codes it.stored };
}

impl FragmentRows {
    /// The fragments with no rows.
    pub(crate) fn of_none(alloc: Global, stored: List<StoredRows>) -> FragmentRows
        requires { AreEmpty stored }
        ensures { result ≡ map (held_of []) stored }
    {
        FragmentRows {
            codes: Codes::new(alloc),
            stored,
        }
    }

    /// Puts the rows of the fragment's file in this shape in place of what the fragment of the number had; or the file
    /// has a fault, and this is the first.
    pub(crate) fn put(
        &mut self,
        alloc: Global,
        number: usize,
        fragment: &FragmentDef,
        shape: &Shape,
        bytes: &[u8],
    ) -> Result<(), FileError>
        requires there { number < length self.old }
        requires fits { IsShapeFor shape.now fragment.now.view }
        ensures ok { OnOk result
            (ArePut (IsRowIn shape.now bytes.now) fragment.now number self.old self.new) }
        ensures err { OnErr result (self.new ≡ self.old) }
        ensures fault { Gives tt
            (first_fault_in shape.now (length fragment.now.view.head) bytes.now) result }
    {
        let coded = code_store(alloc, shape, fragment, bytes, &mut self.codes)?;
        let stored = stored_rows(alloc, fragment, coded)?;
        self.stored.set(number, stored);
        Ok(())
    }

    /// The codes of the texts, and the rows of codes of each fragment.
    pub(crate) fn into_parts(self) -> (Codes, List<StoredRows>)
        ensures held { map (held_of result.0) result.1 ≡ self }
        ensures texts { HaveTexts result.0 result.1 }
    {
        (self.codes, self.stored)
    }
}
