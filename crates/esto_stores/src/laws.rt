//! Laws of key files, for all bytes.
ghost use Rattle.esto_stores.specs.KeyLaws.{KeyRowsJoin, KeyFaultsJoin, KeyRowsTakeReturns, KeyFaultsTakeReturns};

use esto_ports::{faults_join, lines_begin_anew};

/// A law: of a key file that ends with LF and of another one after it, the rows are those of the one and then those of the
/// other; the first fault is that of the one, or else that of the other, whose place is moved on by the number of LF in
/// the one.
pub fn key_files_join()
    ensures rows { KeyRowsJoin }
    ensures fault { KeyFaultsJoin }
{
    lines_begin_anew();
    faults_join();
}

/// A law: in a key file without CR, writing CR before each LF changes neither the rows nor the first fault.
pub fn key_files_take_returns()
    ensures rows { KeyRowsTakeReturns }
    ensures fault { KeyFaultsTakeReturns }
{}
