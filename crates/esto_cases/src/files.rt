//! Files in memory, and the program run over them or over the machine's.

use esto_ports::{FolderShelf, MemoryShelf, MemorySink, OutSink, Shelf, Sink};
use esto_script::{
    Refused, each, let_go, number, parts, put, put_bytes, put_counted, put_digits, text,
};
use esto_term::{Bytes, List, OutOfMemory, Replicate, Text};
use esto_top::mediate;
use std::alloc::Global;
use std::mem;

/// A file in memory.
#[derive(Drop)]
struct File {
    name: Text,
    bytes: Bytes,
}

/// What goes wrong in a run: which fetch fails, which put after how many bytes, and at which of them memory is wanting.
/// They are counted from 1, and 0 is none.
#[derive(Clone, Copy)]
pub struct Trouble {
    pub fetch: u64,
    pub put: u64,
    pub kept: u64,
    pub refused_fetch: u64,
    pub refused_put: u64,
}

pub const NONE: Trouble = Trouble {
    fetch: 0,
    put: 0,
    kept: 0,
    refused_fetch: 0,
    refused_put: 0,
};

/// What comes of a run: the outside after it, and the code of the status.
#[derive(Drop)]
pub struct Ran {
    pub shelf: MemoryShelf,
    pub out: MemorySink,
    pub code: u8,
}

/// The files in memory, and what is to go wrong in the next run.
#[derive(Drop)]
pub struct FileSet {
    files: List<File>,
    trouble: Trouble,
}

/// The words of a command line, between single blanks; an empty line has none.
pub fn words_of(alloc: Global, line: &str) -> Result<List<Text>, Refused> {
    if line.is_empty() {
        return Ok(List::new(alloc));
    }
    each(alloc, line, ' ', |word| text(alloc, word))
}

// The code of the status that a command line over a shelf and a sink ends with.
fn code_of<S: Shelf, O: Sink>(alloc: Global, words: &[Text], shelf: &mut S, out: &mut O) -> u8 {
    let status = mediate(alloc, words, shelf, out);
    let code = status.code();
    let_go(status);
    code
}

// Keeps a copy of a file.
fn keep_copy(alloc: Global, shelf: &mut MemoryShelf, file: &File) -> Result<(), OutOfMemory> {
    let name = file.name.copy(alloc)?;
    let bytes = file.bytes.copy(alloc)?;
    shelf.keep(name, bytes)
}

// The shelf of the files.
fn shelf_of(alloc: Global, files: &[File]) -> Result<MemoryShelf, OutOfMemory> {
    let mut shelf = MemoryShelf::new(alloc);
    'files: for file in files {
        keep_copy(alloc, &mut shelf, file)?;
    }
    Ok(shelf)
}

// Says to a shelf and a sink what is to go wrong.
fn spoil(
    shelf: &mut MemoryShelf,
    out: &mut MemorySink,
    trouble: Trouble,
) -> Result<(), OutOfMemory> {
    shelf.fail_at(trouble.fetch)?;
    shelf.refuse_at(trouble.refused_fetch)?;
    out.fail_at(trouble.put, trouble.kept)?;
    out.refuse_at(trouble.refused_put)
}

impl FileSet {
    /// No file, and nothing is to go wrong.
    pub fn empty(alloc: Global) -> FileSet {
        FileSet {
            files: List::new(alloc),
            trouble: NONE,
        }
    }

    /// Keeps the content as a file, and begins a new one.
    pub fn keep(&mut self, alloc: Global, content: &mut Bytes, name: &str) -> Result<(), Refused> {
        let name = text(alloc, name)?;
        let bytes = mem::replace(content, Bytes::new(alloc));
        self.files.push(File { name, bytes })?;
        Ok(())
    }

    /// The fetch of this number is to fail.
    pub fn fail_fetch(&mut self, word: &str) {
        self.trouble.fetch = number(word);
    }

    /// The put of this number is to fail, after so many bytes.
    pub fn fail_put(&mut self, line: &str) {
        let (put, kept) = parts(line, ' ');
        self.trouble.put = number(put);
        self.trouble.kept = number(kept);
    }

    /// What comes of a command line over the files where this goes wrong.
    pub fn ran(&self, alloc: Global, words: &[Text], trouble: Trouble) -> Result<Ran, Refused> {
        let mut shelf = shelf_of(alloc, self.files.items())?;
        let mut out = MemorySink::new(alloc);
        spoil(&mut shelf, &mut out, trouble)?;
        let code = code_of(alloc, words, &mut shelf, &mut out);
        Ok(Ran { shelf, out, code })
    }

    // What comes of a command line over the files. Nothing is to go wrong after it.
    fn outcome(&mut self, alloc: Global, line: &str) -> Result<Ran, Refused> {
        let trouble = mem::replace(&mut self.trouble, NONE);
        let words = words_of(alloc, line)?;
        self.ran(alloc, words.items(), trouble)
    }

    /// Runs a command line over the files, and prints what was put and the status. Nothing is to go wrong after it.
    pub fn run(&mut self, rt: &HostRuntime, alloc: Global, line: &str) -> Result<(), Refused> {
        let ran = self.outcome(alloc, line)?;
        put_bytes(rt, ran.out.written());
        put_status(rt, ran.code);
        let_go(ran);
        Ok(())
    }

    /// The same, but of what was put it prints how many lines there are, so many first ones and so many last ones. The first
    /// two words are these numbers.
    pub fn run_for_ends(
        &mut self,
        rt: &HostRuntime,
        alloc: Global,
        line: &str,
    ) -> Result<(), Refused> {
        let (first, rest) = parts(line, ' ');
        let (last, words) = parts(rest, ' ');
        let ran = self.outcome(alloc, words)?;
        put_ends(rt, ran.out.written(), number(first), number(last));
        put_status(rt, ran.code);
        let_go(ran);
        Ok(())
    }
}

// The code of the status.
fn put_status(rt: &HostRuntime, code: u8) {
    put_counted(rt, "status ", code as u64);
}

// How many lines the text has, so many first ones and so many last ones.
fn put_ends(rt: &HostRuntime, text: &[u8], first: u64, last: u64) {
    let count = text.iter().filter(|byte| **byte == 10).count();
    put_digits(rt, count as u64);
    put(rt, " lines\n");
    'lines: for (place, line) in text.split(|byte| *byte == 10).enumerate() {
        let is_first = (place as u64) < first;
        let is_last = place < count && (place as u64).saturating_add(last) >= count as u64;
        if is_first || is_last {
            put_bytes(rt, line);
            put(rt, "\n");
        }
    }
}

/// Runs a command line over the machine's files and standard output, and prints the status.
pub fn run_on_machine(rt: &HostRuntime, alloc: Global, line: &str) -> Result<(), Refused> {
    let words = words_of(alloc, line)?;
    let mut shelf = FolderShelf::new(rt);
    let mut out = OutSink::new(rt);
    let code = code_of(alloc, words.items(), &mut shelf, &mut out);
    put_status(rt, code);
    Ok(())
}
