//! Laws of files.
ghost use Rattle.esto_input_laws.specs.FileLaws.{TablesAreTotal, KeysAreTotal, TreesAreTotal, DocumentRowsAreTotal};
ghost use Rattle.esto_input_laws.specs.FileLaws.{StoredRowsAreTotal};

/// A law: whatever the bytes are, they have rows or a first fault as a CSV file of whatever columns, and as a key file of
/// whatever width; as a JSON file they have documents or a first fault, and by a layout a list of exactly the documents' rows
/// or a first fault. So the file of each fragment, in a shape for its view, has a list of exactly its rows or a first fault.
pub fn files_are_total()
    ensures table { TablesAreTotal }
    ensures keys { KeysAreTotal }
    ensures documents { TreesAreTotal }
    ensures rows { DocumentRowsAreTotal }
    ensures stored { StoredRowsAreTotal }
{}
