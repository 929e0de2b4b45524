//! The catalogue.
ghost use Rattle.esto_mapping.specs.Soundness.{IsSoundCatalogue};

use crate::dataset::Datasets;
use esto_constraint::{Ranks, Rules};
use esto_docmodel::{Stores, Vocabulary};
use esto_query::Schema;
use esto_views::FragmentDefs;

/// The greatest number of binding patterns of a fragment.
pub const MAX_PATTERNS: usize = 8;

/// The greatest weight of a fragment.
pub const MAX_WEIGHT: u64 = 1_000_000;

/// What a catalogue says: the relations of its datasets, the names that texts may use, the
/// datasets, the fragments and where each is stored, the rules, with the ranks of the relations by
/// them, and whether plans are printed as their cores. The first `given` rules are the catalogue's
/// own constraints; those that the encodings of documents and keys bring follow, in order of
/// dataset. Words, views and rules are over the schema, in which each dataset's relations stand
/// from its base on; the fragments are well made; and no relation leads back to itself by the
/// rules. A fragment has at most `MAX_PATTERNS` binding patterns, all distinct, and weighs at most
/// `MAX_WEIGHT`. The columns of a table are distinct, as many as its view has, and the first does
/// not begin with a byte-order mark; the pattern of documents is a layout for as many columns.
#[derive(Drop)]
pub struct Catalogue {
    pub schema: Schema,
    pub words: Vocabulary,
    pub datasets: Datasets,
    pub fragments: FragmentDefs,
    pub stores: Stores,
    pub rules: Rules,
    pub given: usize,
    pub ranks: Ranks,
    pub core: bool,
    pub ghost sound: { ∥ IsSoundCatalogue
        schema words datasets fragments stores rules given ranks ∥₁ },
}
