//! Laws of lines.
ghost use Rattle.esto_ports.specs.Lines.{LinesBeginAnew, LinesJoin, LinesAreCounted};
ghost use Rattle.esto_ports.specs.FileFaults.{FaultsJoin};

/// A law: after a line feed the lines begin anew. So the lines of a text that ends with a line feed and of another
/// text after it are those of the one and then those of the other, and a text that ends with a line feed has as many
/// lines as line feeds.
pub fn lines_begin_anew()
    ensures first { LinesBeginAnew }
    ensures join { LinesJoin }
    ensures count { LinesAreCounted }
{}

/// A law: where a file's first fault is found line by line, the first fault of a text that ends with a line feed and
/// of another text after it is that of the one; or else that of the other, as many places later as the one has line
/// feeds.
pub fn faults_join()
    ensures { FaultsJoin }
{}
