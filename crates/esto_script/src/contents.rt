//! What the lines of a script put into a file.

use crate::reading::{Refused, number, parts};
use esto_term::Bytes;

// Puts texts at the end, one after the other.
fn put_all(content: &mut Bytes, texts: &[&str]) -> Result<(), Refused> {
    'texts: for text in texts {
        content.append_str(text)?;
    }
    Ok(())
}

// Puts a part of a line at the end.
fn put_part(content: &mut Bytes, part: &str) -> Result<(), Refused> {
    content.append_str(part)?;
    Ok(())
}

// Puts so many copies of a part at the end.
fn repeat(content: &mut Bytes, line: &str) -> Result<(), Refused> {
    let (count, part) = parts(line, ' ');
    'turns: for _turn in 0..number(count) {
        put_part(content, part)?;
    }
    Ok(())
}

// Puts the byte of a number in decimal at the end.
fn put_number(content: &mut Bytes, word: &str) -> Result<(), Refused> {
    let byte = word.parse::<u8>().unwrap_or(0);
    content.append(&[byte])?;
    Ok(())
}

// Puts the bytes of numbers in decimal at the end.
fn put_numbers(content: &mut Bytes, line: &str) -> Result<(), Refused> {
    'numbers: for word in line.split(' ') {
        put_number(content, word)?;
    }
    Ok(())
}

/// Puts a line that begins with a sign at the end of a file: after `|` a line, after `+` a part of a line, after `*` so
/// many copies of a part, and after `!` bytes by their numbers. Answers None where the line has none of these signs.
pub fn put_line(content: &mut Bytes, line: &str) -> Option<Result<(), Refused>> {
    if let Some(rest) = line.strip_prefix('|') {
        return Some(put_all(content, &[rest, "\n"]));
    }
    if let Some(rest) = line.strip_prefix('+') {
        return Some(put_part(content, rest));
    }
    if let Some(rest) = line.strip_prefix('*') {
        return Some(repeat(content, rest));
    }
    let rest = line.strip_prefix('!')?;
    Some(put_numbers(content, rest))
}

/// Puts a dataset at the end of a catalogue: its name and, after a blank, the columns as TOML has them.
pub fn put_dataset(catalogue: &mut Bytes, line: &str) -> Result<(), Refused> {
    let (name, columns) = parts(line, ' ');
    let texts = [
        "[[dataset]]\nname = \"",
        name,
        "\"\nmodel = \"table\"\ncolumns = [",
        columns,
        "]\n",
    ];
    put_all(catalogue, &texts)
}

/// Puts a fragment of this view at the end of a catalogue.
pub fn put_fragment(catalogue: &mut Bytes, view: &str) -> Result<(), Refused> {
    let texts = [
        "[[fragment]]\nview = \"",
        view,
        "\"\nstore = \"table\"\nfile = \"f.csv\"\n",
    ];
    put_all(catalogue, &texts)
}

/// Puts a constraint of this rule at the end of a catalogue.
pub fn put_constraint(catalogue: &mut Bytes, rule: &str) -> Result<(), Refused> {
    put_all(catalogue, &["[[constraint]]\nrule = \"", rule, "\"\n"])
}
