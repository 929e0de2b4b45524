//! A command line over the files in memory, of which each fetch and the put fails in turn, and is refused in turn.

use crate::files::{FileSet, NONE, Ran, Trouble, words_of};
use esto_script::{Refused, let_go, put, put_bytes, put_counted, put_digits};
use esto_term::Text;
use std::alloc::Global;

/// A command line over files.
#[derive(Drop)]
struct Sweep<'a> {
    files: &'a FileSet,
    words: &'a [Text],
}

// The names of the files that were asked for, in order.
fn put_asked(rt: &HostRuntime, names: &[Text]) {
    put(rt, "asked");
    'names: for name in names {
        put(rt, " ");
        put_bytes(rt, name.bytes());
    }
    put(rt, "\n");
}

// What was put, the status, and how many files were asked for and how many puts there were.
fn put_outcome(rt: &HostRuntime, ran: &Ran) {
    put_bytes(rt, ran.out.written());
    put(rt, "status ");
    put_digits(rt, ran.code as u64);
    put(rt, ", fetches ");
    put_digits(rt, ran.shelf.asked().len() as u64);
    put_counted(rt, ", puts ", ran.out.puts());
}

// Whether these bytes alone were put, and the status is that of a write fault.
fn has_left(ran: &Ran, bytes: &[u8]) -> bool {
    ran.code == 4 && ran.out.written() == bytes
}

impl Sweep<'_> {
    fn run(&self, alloc: Global, trouble: Trouble) -> Result<Ran, Refused> {
        self.files.ran(alloc, self.words, trouble)
    }

    // What comes of it where this goes wrong.
    fn put_run(&self, rt: &HostRuntime, alloc: Global, trouble: Trouble) -> Result<(), Refused> {
        let ran = self.run(alloc, trouble)?;
        put_outcome(rt, &ran);
        let_go(ran);
        Ok(())
    }

    // Each fetch fails.
    fn fail_fetches(&self, rt: &HostRuntime, alloc: Global, count: u64) -> Result<(), Refused> {
        'fetches: for fetch in 1..=count {
            put(rt, "fetch ");
            put_digits(rt, fetch);
            put(rt, " fails\n");
            self.put_run(rt, alloc, Trouble { fetch, ..NONE })?;
        }
        Ok(())
    }

    // Memory is wanting at each fetch.
    fn refuse_fetches(&self, rt: &HostRuntime, alloc: Global, count: u64) -> Result<(), Refused> {
        'fetches: for refused_fetch in 1..=count {
            put(rt, "fetch ");
            put_digits(rt, refused_fetch);
            put(rt, " is refused\n");
            self.put_run(
                rt,
                alloc,
                Trouble {
                    refused_fetch,
                    ..NONE
                },
            )?;
        }
        Ok(())
    }

    // Whether the put, where it fails after so many bytes, leaves these bytes alone and the status
    // of a write fault.
    fn leaves(&self, alloc: Global, bytes: &[u8]) -> Result<bool, Refused> {
        let kept = bytes.len() as u64;
        let ran = self.run(
            alloc,
            Trouble {
                put: 1,
                kept,
                ..NONE
            },
        )?;
        let leaves = has_left(&ran, bytes);
        let_go(ran);
        Ok(leaves)
    }

    // The put fails after each number of bytes of the text, and how often that left these bytes
    // alone and the status of a write fault.
    fn fail_puts(&self, rt: &HostRuntime, alloc: Global, text: &[u8]) -> Result<(), Refused> {
        let mut right = 0u64;
        'counts: for kept in 0..=text.len() {
            right = right.saturating_add(u64::from(self.leaves(alloc, &text[..kept])?));
        }
        put(rt, "put fails after 0 to ");
        put_digits(rt, text.len() as u64);
        put(rt, " bytes, which it leaves with status 4: ");
        put_digits(rt, right);
        put(rt, " times\n");
        Ok(())
    }

    // What the run with nothing wrong asks for, and what comes of it where each fetch fails and is
    // refused, and the put.
    fn put_troubles(&self, rt: &HostRuntime, alloc: Global, whole: &Ran) -> Result<(), Refused> {
        let names = whole.shelf.asked().items();
        put_asked(rt, names);
        let count = names.len() as u64;
        self.fail_fetches(rt, alloc, count)?;
        self.refuse_fetches(rt, alloc, count)?;
        self.fail_puts(rt, alloc, whole.out.written())?;
        put(rt, "put is refused\n");
        self.put_run(
            rt,
            alloc,
            Trouble {
                refused_put: 1,
                ..NONE
            },
        )
    }

    // Runs the command line with nothing wrong, and then with each trouble.
    fn put_all(&self, rt: &HostRuntime, alloc: Global) -> Result<(), Refused> {
        let whole = self.run(alloc, NONE)?;
        let outcome = self.put_troubles(rt, alloc, &whole);
        let_go(whole);
        outcome
    }
}

/// Runs a command line over the files: what it asks for, and what comes of it where each fetch fails and is refused, and
/// the put.
pub fn put_sweep(
    rt: &HostRuntime,
    alloc: Global,
    files: &FileSet,
    line: &str,
) -> Result<(), Refused> {
    let words = words_of(alloc, line)?;
    let sweep = Sweep {
        files,
        words: words.items(),
    };
    sweep.put_all(rt, alloc)
}
