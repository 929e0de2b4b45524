//! Codes of texts.
ghost use Rattle.std.specs.Prelude.{◌≡◌, ◌≢◌, ◌⊎◌, ◌↔◌, ◌<◌, ℕ, List, [], ◌∷◌, ◌++◌, length, slice_get, Some, Contains, AllPairs, IfOk, IfErr, OnErr, MatchOption, IsUtf8, IsTrue};
ghost use Rattle.esto_columns.specs.Interned.{IsRightFault};

use crate::index::mixed;
use crate::text_key::TextKey;
use esto_term::{OutOfMemory, TextError, Values};
use indexmap::IndexSet;
use smallvec::SmallVec;
use std::alloc::Global;
use std::marker::Model;
use std::str;

/// How many bytes of a text stand in its entry; longer ones have an allocation.
const INLINE: usize = 16;

/// How many bits the slot of a text among the recent codes has.
const SLOT_BITS: u32 = 13;

/// How many recent codes are kept.
const RECENT: usize = 1 << SLOT_BITS;

/// How many tags there are.
const TAGS: u64 = 1 << 32;

/// The code of a short text that came shortly before, and the text's tag: bits of its mixed bytes, by which it is told from
/// most others without a look at the text of the code, which is often in no cache of the processor.
#[derive(Clone, Copy)]
struct Recent {
    code: u32,
    tag: u32,
}

/// Codes of texts, which contracts see as the list of the texts in the order of their codes.
///
/// `recent` holds codes of short texts that came shortly before, each in the slot of its text: most cells of files hold
/// such a text, and a look there saves the keyed hash and two misses of the processor's cache. It is empty until the first
/// short text is put, and stays so where there is no memory for it. Nothing rests on it: a code that stands there is
/// answered only where its text is the wanted one. A text's slot and tag are fixed, so texts can be made that all have the
/// same ones: each of them costs the look, and then what it costs without the table.
#[derive(Drop)]
pub struct Codes {
    texts: IndexSet<SmallVec<u8, INLINE>>,
    recent: Values<Recent>,
}

impl Model for Codes {
    ghost use Rattle.std.specs.Prelude.{List, ℕ, map};
    ghost use Rattle.esto_columns.specs.Interned.{AreTexts};

    ghost Value = { List (List ℕ) };

    ghost view = { λ it. map (λ text. text.items) it.texts.keys };

    ghost invariant = { λ it. AreTexts (map (λ text. text.items) it.texts.keys) };
}

/// The bytes of the text, mixed into one number, eight of them at a time.
fn mixed_bytes(text: &[u8]) -> u64 {
    let mut hash = text.len() as u64;
    let mut word: u64 = 0;
    'bytes: for (place, byte) in text.iter().enumerate() {
        word = word << 8 | u64::from(*byte);
        if place % 8 == 7 {
            hash = mixed(hash, word);
            word = 0;
        }
    }
    mixed(mixed(hash, word), 0)
}

/// The slot of a text with these mixed bytes: the top bits of a product, which depend on all of its factor's bits.
fn slot_of(mixed: u64) -> usize {
    (mixed >> (64 - SLOT_BITS)) as usize
}

/// The tag of a text with these mixed bytes: the bits below those of the slot.
fn tag_of(mixed: u64) -> u32 {
    ((mixed >> (32 - SLOT_BITS)) % TAGS) as u32
}

/// So many slots with code and tag 0.
fn empty_slots(alloc: Global, count: usize) -> Result<Values<Recent>, OutOfMemory> {
    let mut slots = Values::with_room(alloc, count)?;
    'slots: for _slot in 0..count {
        slots.push(Recent { code: 0, tag: 0 })?;
    }
    Ok(slots)
}

/// Whether the bytes are UTF-8.
fn is_utf8(bytes: &[u8]) -> bool
    ensures { IsTrue result ↔ IsUtf8 bytes.now }
{
    str::from_utf8(bytes).is_ok()
}

impl Codes {
    /// No codes, which take no memory.
    pub fn new(alloc: Global) -> Codes
        ensures { result ≡ [] }
    {
        Codes {
            texts: IndexSet::new(alloc),
            recent: Values::new(alloc),
        }
    }

    /// The code in the slot of the text with these mixed bytes, if it is that of the text.
    fn recent_code(&self, mixed: u64, text: &[u8]) -> Option<u64>
        ensures code { MatchOption result Unit (λ code. slice_get self.now code ≡ Some text.now) }
        ensures utf8 { MatchOption result Unit (λ _. IsUtf8 text.now) }
    {
        let Some(recent) = self.recent.items().get(slot_of(mixed)) else {
            return None;
        };
        let code = recent.code as u64;
        if recent.tag == tag_of(mixed) && code < self.len() && self.text(code) == text {
            return Some(code);
        }
        None
    }

    /// Puts the code into the slot of a text with these mixed bytes, if there is memory for recent codes.
    fn note(&mut self, mixed: u64, code: u64)
        ensures { self.new ≡ self.old }
    {
        if self.recent.is_empty() {
            let Ok(slots) = empty_slots(*self.texts.allocator(), RECENT) else {
                return;
            };
            self.recent = slots;
        }
        let slot = slot_of(mixed);
        if slot < self.recent.len() && code <= u32::MAX as u64 {
            let code = code as u32;
            let tag = tag_of(mixed);
            self.recent.set(slot, Recent { code, tag });
        }
    }

    /// The code of the text, which is put into the set; a new text gets the next one.
    fn add(&mut self, text: &[u8]) -> Result<u64, TextError>
        ensures found { IfOk result (λ code. slice_get self.new code ≡ Some text.now) }
        ensures grown { IfOk result (λ code. (self.new ≡ self.old)
            ⊎ ((self.new ≡ self.old ++ text.now ∷ []) × (code ≡ length self.old))) }
        ensures fault { IfErr result (IsRightFault text.now) }
        ensures utf8 { IfOk result (λ _. IsUtf8 text.now) }
        ensures err { OnErr result (self.new ≡ self.old) }
    {
        if !is_utf8(text) {
            return Err(TextError::NotUtf8);
        }
        let alloc = *self.texts.allocator();
        let Ok(owned) = SmallVec::from_slice(alloc, text) else {
            return Err(TextError::OutOfMemory);
        };
        let Ok((number, _)) = self.texts.insert_full(owned) else {
            return Err(TextError::OutOfMemory);
        };
        Ok(number as u64)
    }

    /// The code of the text; a new text gets the next one. `NotUtf8` comes exactly where the bytes are not UTF-8.
    pub fn intern(&mut self, text: &[u8]) -> Result<u64, TextError>
        ensures found { IfOk result (λ code. slice_get self.new code ≡ Some text.now) }
        ensures grown { IfOk result (λ code. (self.new ≡ self.old)
            ⊎ ((self.new ≡ self.old ++ text.now ∷ []) × (code ≡ length self.old))) }
        ensures fault { IfErr result (IsRightFault text.now) }
        ensures utf8 { IfOk result (λ _. IsUtf8 text.now) }
        ensures err { OnErr result (self.new ≡ self.old) }
    {
        // a short text takes no memory of its own: if it is not a recent one, it is put at once, with one hash
        if text.len() <= INLINE {
            let mixed = mixed_bytes(text);
            if let Some(code) = self.recent_code(mixed, text) {
                return Ok(code);
            }
            let code = self.add(text)?;
            self.note(mixed, code);
            return Ok(code);
        }
        match self.find(text) {
            Some(code) => {
                // the text is read so that it is known to be UTF-8
                let _known = self.text(code);
                Ok(code)
            }
            None => self.add(text),
        }
    }

    /// The code of the text, if it has one.
    pub fn find(&self, text: &[u8]) -> Option<u64>
        ensures { MatchOption result (¬ (Contains self.now text.now))
            (λ code. slice_get self.now code ≡ Some text.now) }
    {
        match self.texts.get_index_of(TextKey { text }) {
            Some(number) => Some(number as u64),
            None => None,
        }
    }

    /// How many codes there are.
    pub fn len(&self) -> u64
        ensures count { result ≡ length self.now }
        ensures distinct { AllPairs ◌≢◌ self.now }
    {
        self.texts.len() as u64
    }

    /// The text of a code.
    pub fn text(&self, code: u64) -> &[u8]
        requires { code < length self.now }
        ensures value { slice_get self.now code ≡ Some result.now }
        ensures utf8 { IsUtf8 result.now }
    {
        self.texts.as_slice()[code as usize].as_slice()
    }
}
