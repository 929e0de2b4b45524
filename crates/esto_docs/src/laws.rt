//! Laws of files of lines, for all bytes.
ghost use Rattle.esto_docs.specs.Laws.{TreesJoin, RowsJoin, TreesFaultsJoin};

use esto_ports::{faults_join, lines_begin_anew};

/// A law: of a file of lines that ends with LF and of another one after it, the documents are those of the one and then
/// those of the other, so the rows by any layout are those of both; the first fault is that of the one, or else that of
/// the other, whose place is moved on by the number of LF in the one.
pub fn files_of_lines_join()
    ensures trees { TreesJoin }
    ensures rows { RowsJoin }
    ensures fault { TreesFaultsJoin }
{
    lines_begin_anew();
    faults_join();
}
