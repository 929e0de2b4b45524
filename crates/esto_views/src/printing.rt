//! Numbers, commas and terms in print.
ghost use Rattle.std.specs.Prelude.{◌≡◌, ◌++◌, slice_get, codes, OnOk};
ghost use Rattle.std.specs.Fmt.{decimal};
ghost use Rattle.esto_views.specs.Names.{number_from};
ghost use Rattle.esto_views.specs.Printing.{byte_text, comma_before, constant_text, count_line, each_from, numbers_text, term_text, terms_text, variable_text};

use esto_query::{Name, Names};
use esto_term::{Bytes, OutOfMemory, Term, Text};
use std::alloc::Global;

/// Puts a number at the end, in decimal.
pub fn put_number(alloc: Global, text: &mut Bytes, number: u128) -> Result<(), OutOfMemory>
    ensures { OnOk result (text.new ≡ text.old ++ decimal number) }
{
    let digits = format!(in alloc; "{number}")?;
    text.append_str(digits.as_str())
}

// Puts a comma at the end, unless the place is the first.
fn put_comma(text: &mut Bytes, place: usize) -> Result<(), OutOfMemory>
    ensures { OnOk result (text.new ≡ text.old ++ comma_before place) }
{
    if place == 0 {
        return Ok(());
    }
    text.append(b",")
}

/// Puts numbers of atoms at the end, counted from 1 and between commas.
pub fn put_numbers(alloc: Global, text: &mut Bytes, numbers: &[usize]) -> Result<(), OutOfMemory>
    ensures { OnOk result (text.new ≡ text.old ++ numbers_text numbers.now) }
{
    'numbers: for (place, number) in numbers.iter().enumerate() {
        put_comma(text, place)?;
        put_number(alloc, text, *number as u128 + 1)?;
    }
    Ok(())
}

/// Puts a line of a word and a number at the end.
pub fn put_count(
    alloc: Global,
    text: &mut Bytes,
    word: &[u8],
    count: u128,
) -> Result<(), OutOfMemory>
    ensures { OnOk result (text.new ≡ text.old ++ count_line word.now count) }
{
    text.append(word)?;
    put_number(alloc, text, count)?;
    text.append(b"\n")
}

// Puts a byte of a constant at the end: a quote is doubled.
fn put_byte(text: &mut Bytes, byte: u8) -> Result<(), OutOfMemory>
    ensures { OnOk result (text.new ≡ text.old ++ byte_text byte) }
{
    if byte == 39 {
        return text.append(b"''");
    }
    text.append(&[byte])
}

// Puts the bytes of a constant at the end, with each quote doubled.
fn put_bytes(text: &mut Bytes, bytes: &[u8]) -> Result<(), OutOfMemory>
    ensures { OnOk result (text.new ≡ text.old
        ++ each_from (λ _ byte. byte_text byte) 0 bytes.now) }
{
    'bytes: for byte in bytes {
        put_byte(text, *byte)?;
    }
    Ok(())
}

/// Puts a constant at the end, between quotes, with each quote in it doubled.
pub fn put_constant(text: &mut Bytes, constant: &Text) -> Result<(), OutOfMemory>
    ensures { OnOk result (text.new ≡ text.old ++ constant_text constant.now) }
{
    text.append(b"'")?;
    put_bytes(text, constant.bytes())?;
    text.append(b"'")
}

// The number of a variable among those without a name, counted from 1; 0 where it isn't one of them.
fn number_of(nameless: &[u64], variable: u64) -> usize
    ensures { result ≡ number_from 1 nameless.now variable }
{
    'variables: for (place, other) in nameless.iter().enumerate() {
        if *other == variable {
            return place + 1;
        }
    }
    0
}

// Puts `_` and the number of a variable without a name at the end.
fn put_nameless(
    alloc: Global,
    text: &mut Bytes,
    nameless: &[u64],
    variable: u64,
) -> Result<(), OutOfMemory>
    ensures { OnOk result (text.new ≡ text.old
        ++ (codes "_" ++ decimal (number_from 1 nameless.now variable))) }
{
    text.append(b"_")?;
    put_number(alloc, text, number_of(nameless, variable) as u128)
}

// Puts a variable at the end: its name where one is given, and else its number.
fn put_variable(
    alloc: Global,
    text: &mut Bytes,
    names: &Names,
    nameless: &[u64],
    variable: u64,
) -> Result<(), OutOfMemory>
    ensures { OnOk result (text.new ≡ text.old
        ++ variable_text nameless.now variable (slice_get names.now variable)) }
{
    let place = variable as usize;
    if place >= names.len() {
        return put_nameless(alloc, text, nameless, variable);
    }
    match names.item(place) {
        Name::Given(name) => text.append(name.bytes()),
        Name::Hidden => put_nameless(alloc, text, nameless, variable),
    }
}

// Puts a term at the end.
fn put_term(
    alloc: Global,
    text: &mut Bytes,
    names: &Names,
    nameless: &[u64],
    term: &Term,
) -> Result<(), OutOfMemory>
    ensures { OnOk result (text.new ≡ text.old ++ term_text names.now nameless.now term.now) }
{
    match term {
        Term::Const(constant) => put_constant(text, constant),
        Term::Plain(variable) => put_variable(alloc, text, names, nameless, *variable),
        Term::Made(_, _, _) => text.append(b"_"),
    }
}

// Puts terms at the end, with commas between them.
fn put_each_term(
    alloc: Global,
    text: &mut Bytes,
    names: &Names,
    nameless: &[u64],
    terms: &[Term],
) -> Result<(), OutOfMemory>
    ensures { OnOk result (text.new ≡ text.old
        ++ each_from (λ place term. comma_before place
        ++ term_text names.now nameless.now term) 0 terms.now) }
{
    'terms: for (place, term) in terms.iter().enumerate() {
        put_comma(text, place)?;
        put_term(alloc, text, names, nameless, term)?;
    }
    Ok(())
}

/// Puts terms at the end, between parentheses.
pub fn put_terms(
    alloc: Global,
    text: &mut Bytes,
    names: &Names,
    nameless: &[u64],
    terms: &[Term],
) -> Result<(), OutOfMemory>
    ensures { OnOk result (text.new ≡ text.old ++ terms_text names.now nameless.now terms.now) }
{
    text.append(b"(")?;
    put_each_term(alloc, text, names, nameless, terms)?;
    text.append(b")")
}
