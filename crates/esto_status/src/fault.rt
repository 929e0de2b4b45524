//! What may be wrong with a catalogue.

use esto_term::Text;
use esto_text::TextFault;

/// A section of a catalogue.
#[derive(Clone, Copy, PartialEq, Eq)]
pub enum Section {
    Top,
    Dataset,
    Fragment,
    Constraint,
}

/// What is wrong.
#[derive(Clone, Copy, PartialEq, Eq)]
pub enum CatalogueKind {
    /// The bytes are no TOML.
    Toml,
    /// The key is not one of the section's.
    UnknownKey,
    /// The version is neither the integer 1 nor 2.
    Version,
    /// The value has another type than the key wants.
    WrongType,
    /// A section has more than `MAX_ENTRIES` entries.
    TooMany,
    /// The key is needed and absent.
    Missing,
    /// The key is not one of this model or store.
    Unfit,
    /// The name is no name.
    BadName,
    /// The name is there already.
    SameName,
    /// The model is none of the models.
    BadModel,
    /// The store is none of the stores.
    BadStore,
    /// The columns are too few, too many or not distinct, or the first begins with a byte-order
    /// mark.
    BadColumns,
    /// The layout is none of the layouts.
    BadLayout,
    /// The text of a view or a rule has a fault.
    BadText,
    /// The pattern is no layout.
    BadPattern,
    /// The access has no text, more than `MAX_PATTERNS` or two equal ones, or one with a wrong
    /// length or something else than `i` and `o`.
    BadAccess,
    /// The weight is out of range.
    BadWeight,
}

/// The first fault of a catalogue: what is wrong, in which section, at which entry counted from 1
/// (0 for the top), and at which key (`-` where the bytes are no TOML). There is a text's fault
/// exactly where the kind is BadText.
#[derive(Drop)]
pub struct CatalogueFault {
    pub kind: CatalogueKind,
    pub section: Section,
    pub number: u64,
    pub key: Text,
    pub text: Option<TextFault>,
}
