//! Sets of codes.
ghost use Rattle.std.specs.Prelude.{◌≡◌, [], ◌∷◌, nat_eq, length, OnOk};
ghost use Rattle.std.specs.Set.{is_member};
ghost use Rattle.esto_rows.specs.Wanted.{TakesIn, are_among};

use esto_term::OutOfMemory;
use std::alloc::Global;
use std::collections::HashSet;
use std::marker::Model;

/// Codes, each once, found by their hash; contracts see their list.
#[derive(Drop)]
pub struct CodeSet {
    codes: HashSet<u64>,
}

impl Model for CodeSet {
    ghost use Rattle.std.specs.Prelude.{List, ℕ};

    ghost Value = { List ℕ };

    ghost view = { λ it. it.codes.keys };
}

impl CodeSet {
    /// No codes, which take no memory.
    pub fn new(alloc: Global) -> CodeSet
        ensures { result ≡ [] }
    {
        CodeSet {
            codes: HashSet::new(alloc),
        }
    }

    /// How many codes there are.
    pub fn len(&self) -> usize
        ensures { result ≡ length self.now }
    {
        self.codes.len()
    }

    /// Whether the code is there.
    pub fn has(&self, code: u64) -> bool
        ensures { result ≡ is_member nat_eq self.now code }
    {
        self.codes.contains(&code)
    }

    /// Adds the code, unless it is there.
    pub fn add(&mut self, code: u64) -> Result<(), OutOfMemory>
        ensures { OnOk result (TakesIn (code ∷ []) self.old self.new) }
    {
        let Ok(_) = self.codes.insert(code) else {
            return Err(OutOfMemory);
        };
        Ok(())
    }

    /// Adds those of the codes that are not there.
    pub fn add_all(&mut self, codes: &[u64]) -> Result<(), OutOfMemory>
        ensures { OnOk result (TakesIn codes.now self.old self.new) }
    {
        'codes: for code in codes {
            self.add(*code)?;
        }
        Ok(())
    }

    /// Whether each of the codes is there.
    pub fn has_all(&self, codes: &[u64]) -> bool
        ensures { result ≡ are_among self.now codes.now }
    {
        codes.iter().all(|code| self.has(*code))
    }
}
