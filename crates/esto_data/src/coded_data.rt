//! What is loaded of datasets' files, as rows of codes.
ghost use Rattle.std.specs.Prelude.{◌≡◌, [], IfOk};
ghost use Rattle.esto_query.specs.Schemas.{arities_of};
ghost use Rattle.esto_data.specs.Coding.{IsCodedFrom, IsOver};
ghost use Rattle.esto_fill.specs.declared.wanted.Wanted.{Wanted};

use esto_coded::CodedFacts;
use esto_mapping::Catalogue;
use esto_query::Schema;
use esto_term::{OutOfMemory, Places, Values};
use std::alloc::Global;

/// The facts of datasets' files as rows of codes, and a number such that no node has it or a greater one. `IsCodedOf`
/// says for what is loaded they stand.
#[derive(Drop)]
pub struct CodedData {
    pub facts: CodedFacts,
    pub next: u64,
}

// How many columns each relation has.
fn arities_of(alloc: Global, schema: &Schema) -> Result<Places, OutOfMemory>
    ensures { IfOk result (λ it. it ≡ arities_of schema.now) }
{
    let mut arities = Values::new(alloc);
    'relations: for relation in 0..schema.len() {
        arities.push(schema.arity(relation))?;
    }
    Ok(arities)
}

/// No facts and no nodes, before any file is loaded, over the relations of the catalogue.
pub fn no_data(alloc: Global, catalogue: &Catalogue) -> Result<CodedData, OutOfMemory>
    ensures over { IfOk result (IsOver catalogue.now.schema) }
    ensures nothing { IfOk result (λ it. (wanted : Wanted)
        → IsCodedFrom catalogue.now.datasets wanted [] it) }
{
    let arities = arities_of(alloc, &catalogue.schema)?;
    let facts = CodedFacts::none(alloc, arities.items())?;
    Ok(CodedData { facts, next: 0 })
}
