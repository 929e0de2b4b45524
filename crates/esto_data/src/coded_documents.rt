//! Files of documents whose facts are put into rows of codes, one by one.
ghost use Rattle.std.specs.Prelude.{◌≡◌};
ghost use Rattle.esto_docs.specs.Files.{file_trees, trees_fault};
ghost use Rattle.esto_docmodel.specs.declared.words.DataModel.{DataModel};
ghost use Rattle.esto_data.specs.CodedParts.{HasPlaces, HasRelations, PutsFile, PutsTrees};

use crate::coded_data::CodedData;
use esto_docmodel::{Kept, Layout};
use esto_docs::encode_into;
use esto_fill::{Wanted, kept_for};
use esto_mapping::Dataset;
use esto_ports::FileError;
use std::alloc::Global;

// Puts the facts of the documents of a file that are kept, and numbers nodes on after them.
fn put_kept(
    alloc: Global,
    bytes: &[u8],
    layout: &Layout,
    relations: &Kept,
    coded: &mut CodedData,
) -> Result<(), FileError>
    requires { HasPlaces relations.now coded.old }
    ensures { PutsTrees relations.now (file_trees layout.now bytes.now)
        (trees_fault layout.now bytes.now) coded.old coded.new result }
{
    let next = encode_into(
        alloc,
        bytes,
        layout,
        relations,
        &mut coded.facts,
        coded.next,
    )?;
    coded.next = next;
    Ok(())
}

/// Puts what is wanted of the facts of the documents of a file, whose nodes are numbered on.
pub fn put_documents(
    alloc: Global,
    dataset: &Dataset,
    wanted: &Wanted,
    bytes: &[u8],
    coded: &mut CodedData,
) -> Result<(), FileError>
    requires model { dataset.now.model ≡ DataModel.Documents }
    requires relations { HasRelations dataset.now coded.old }
    ensures { PutsFile DataModel.Documents dataset.now wanted.now bytes.now coded.old coded.new
        result }
{
    let relations = kept_for(alloc, wanted, dataset.base)?;
    put_kept(alloc, bytes, &dataset.layout, &relations, coded)
}
