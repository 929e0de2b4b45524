//! Cases of command lines, in scripts whose names are the words of the command line: over files in memory, or over the
//! machine's.
#![tactic(auto)]

mod files;
mod sweep;
mod words;

use crate::files::FileSet;
use esto_script::obey_scripts;
use std::process::ExitCode;

fn main(rt: HostRuntime) -> ExitCode {
    obey_scripts::<FileSet>(&rt)
}
