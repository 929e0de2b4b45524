//! The rules of a catalogue: its own constraints, and then those that the encodings of its datasets
//! bring.
ghost use Rattle.std.specs.Prelude.{◌≡◌, map, IfOk};
ghost use Rattle.esto_constraint.specs.Constraints.{rules_of};
ghost use Rattle.esto_constraint.specs.EncodingRules.{written};
ghost use Rattle.esto_query.specs.Schemas.{arities_of};
ghost use Rattle.esto_catalog.specs.Rules.{encoding_rules, encoding_names, AreAllRules};
ghost use Rattle.esto_catalog.specs.Scope.{IsScope};
ghost use Rattle.esto_catalog.specs.Soundness.{AreSoundRules};

use crate::scope::Scope;
use esto_constraint::{Rules, document_rules, document_rules_2, key_rules};
use esto_docmodel::DataModel;
use esto_mapping::Dataset;
use esto_term::{List, OutOfMemory};
use esto_text::Version;
use std::alloc::Global;

// The rules of the encoding of a dataset.
fn encoding(alloc: Global, version: Version, dataset: &Dataset) -> Result<Rules, OutOfMemory>
    ensures rules { IfOk result (λ it. rules_of it
        ≡ encoding_rules version dataset.now.model dataset.now.base) }
    ensures names { IfOk result (λ it. map written it
        ≡ encoding_names version dataset.now.model) }
{
    match dataset.model {
        DataModel::Table => Ok(List::new(alloc)),
        DataModel::Documents => match version {
            Version::One => document_rules(alloc, dataset.base),
            Version::Two => document_rules_2(alloc, dataset.base),
        },
        DataModel::Keys => key_rules(alloc, dataset.base),
    }
}

/// The given rules, and then those of the encodings of the datasets, in order of dataset.
pub fn with_encodings(
    alloc: Global,
    version: Version,
    scope: &Scope,
    given: Rules,
) -> Result<Rules, OutOfMemory>
    requires scope { IsScope scope.now }
    requires over { AreSoundRules (arities_of scope.now.schema) given }
    ensures rules { IfOk result (AreAllRules version scope.now.datasets given) }
    ensures over { IfOk result (AreSoundRules (arities_of scope.now.schema)) }
{
    let mut rules = given;
    'datasets: for dataset in scope.datasets.items() {
        let more = encoding(alloc, version, dataset)?;
        rules.append(more)?;
    }
    Ok(rules)
}
