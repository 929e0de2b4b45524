//! The words that lines of a script begin with: what they set, and what they ask.

use crate::files::{FileSet, run_on_machine};
use crate::sweep::put_sweep;
use esto_script::{Refused, Subject};
use esto_term::Bytes;
use std::alloc::Global;

impl Subject for FileSet {
    /// No file, and nothing is to go wrong.
    fn new(alloc: Global) -> Result<FileSet, Refused> {
        Ok(FileSet::empty(alloc))
    }

    /// Keeps a file, or sets what is to fail.
    fn set(
        &mut self,
        alloc: Global,
        content: &mut Bytes,
        word: &str,
        rest: &str,
    ) -> Option<Result<(), Refused>> {
        match word {
            "keep" => return Some(self.keep(alloc, content, rest)),
            "fetch" => self.fail_fetch(rest),
            "put" => self.fail_put(rest),
            _ => return None,
        }
        Some(Ok(()))
    }

    /// Answers what comes of a command line.
    fn ask(
        &mut self,
        rt: &HostRuntime,
        alloc: Global,
        word: &str,
        rest: &str,
    ) -> Result<(), Refused> {
        match word {
            "run" => self.run(rt, alloc, rest),
            "ends" => self.run_for_ends(rt, alloc, rest),
            "sweep" => put_sweep(rt, alloc, self, rest),
            "machine" => run_on_machine(rt, alloc, rest),
            _ => Err(Refused),
        }
    }
}
