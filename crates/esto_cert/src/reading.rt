//! Reading the lines of a certificate.
ghost use Rattle.std.specs.Prelude.{◌≡◌, ◌==◌, ◌∷◌, [], length, map, option_map, IfOk};
ghost use Rattle.std.specs.List.{slice_split};
ghost use Rattle.esto_cert.specs.Lines.{number_after, number_of, numbers_of, list_of, links_of, is_word};
ghost use Rattle.esto_cert.specs.Lines.{expanded_of, match_of, step_of, line_of_words, line_of};
ghost use Rattle.esto_cert.specs.Reading.{capped, nearest, within, list_within, line_within};

use crate::line::{Line, Numbers};
use esto_term::{OutOfMemory, Values};
use std::alloc::{AllocError, Global};

const ZERO: u8 = b'0';

const NINE: u8 = b'9';

/// The first number that 64 bits don't hold.
const PAST: u128 = 18446744073709551616;

/// The number, and for all that 64 bits don't hold the first of these.
fn capped(number: u128) -> u128
    ensures { result ≡ capped number }
{
    if number > PAST { PAST } else { number }
}

/// The number that the digits write in decimal, and for all that 64 bits don't hold the first of these.
fn number_after(digits: &[u8]) -> Option<u128>
    ensures { result ≡ option_map capped (number_after 0 digits.now) }
{
    let mut value: u128 = 0;
    'digits: for digit in digits {
        if *digit < ZERO || *digit > NINE {
            return None;
        }
        value = capped(value * 10 + (*digit - ZERO) as u128);
    }
    Some(value)
}

/// The number that the bytes write in decimal, without a leading zero, and for all that 64 bits don't hold the first of these.
fn number_of(bytes: &[u8]) -> Option<u128>
    ensures { result ≡ option_map capped (number_of bytes.now) }
{
    match bytes {
        [] => None,
        [_] => number_after(bytes),
        [first, _, ..] => {
            if *first == ZERO {
                None
            } else {
                number_after(bytes)
            }
        }
    }
}

/// The number that the bytes write, where 64 bits hold it.
fn exact_of(bytes: &[u8]) -> Option<u64>
    ensures { result ≡ within (number_of bytes.now) }
{
    let number = number_of(bytes)?;
    if number < PAST {
        Some(number as u64)
    } else {
        None
    }
}

/// The number that the bytes write, or the greatest that 64 bits hold where they don't hold it.
fn nearest_of(bytes: &[u8]) -> Option<u64>
    ensures { result ≡ option_map nearest (number_of bytes.now) }
{
    let number = number_of(bytes)?;
    if number < PAST {
        Some(number as u64)
    } else {
        Some(u64::MAX)
    }
}

/// The parts between commas.
pub fn parts_by_comma<'a>(alloc: Global, word: &'a [u8]) -> Result<Vec<&'a [u8]>, AllocError>
    ensures { IfOk result (λ parts.
        map (λ part. part.now) parts.items ≡ slice_split (λ byte. byte == 44) word.now) }
{
    word.split(|byte| *byte == b',').collect(alloc)
}

/// The parts between spaces.
fn parts_by_space<'a>(alloc: Global, line: &'a [u8]) -> Result<Vec<&'a [u8]>, AllocError>
    ensures { IfOk result (λ parts.
        map (λ part. part.now) parts.items ≡ slice_split (λ byte. byte == 32) line.now) }
{
    line.split(|byte| *byte == b' ').collect(alloc)
}

/// The parts between line feeds.
fn parts_by_feed<'a>(alloc: Global, bytes: &'a [u8]) -> Result<Vec<&'a [u8]>, AllocError>
    ensures { IfOk result (λ parts.
        map (λ part. part.now) parts.items ≡ slice_split (λ byte. byte == 10) bytes.now) }
{
    bytes.split(|byte| *byte == b'\n').collect(alloc)
}

/// The parts between line feeds: all but the last are lines.
pub fn lines_and_rest<'a>(alloc: Global, bytes: &'a [u8]) -> Result<Vec<&'a [u8]>, OutOfMemory>
    ensures { IfOk result (λ parts.
        map (λ part. part.now) parts.items ≡ slice_split (λ byte. byte == 10) bytes.now) }
{
    match parts_by_feed(alloc, bytes) {
        Ok(parts) => Ok(parts),
        Err(_) => Err(OutOfMemory),
    }
}

/// The numbers that the parts write, where each writes one that 64 bits hold.
fn numbers_of(alloc: Global, parts: &[&[u8]]) -> Result<Option<Numbers>, OutOfMemory>
    ensures { IfOk result (λ it. it ≡ list_within (numbers_of (map (λ part. part.now) parts.now))) }
{
    let mut numbers = Values::new(alloc);
    'parts: for part in parts {
        let Some(number) = exact_of(part) else {
            return Ok(None);
        };
        numbers.push(number)?;
    }
    Ok(Some(numbers))
}

/// The numbers of a list: they are parted by commas.
fn list_of(alloc: Global, word: &[u8]) -> Result<Option<Numbers>, OutOfMemory>
    ensures { IfOk result (λ it. it ≡ list_within (list_of word.now)) }
{
    match parts_by_comma(alloc, word) {
        Ok(parts) => numbers_of(alloc, parts.as_slice()),
        Err(_) => Err(OutOfMemory),
    }
}

/// The numbers of a list, or none where a minus stands in its place.
fn links_of(alloc: Global, word: &[u8]) -> Result<Option<Numbers>, OutOfMemory>
    ensures { IfOk result (λ it. it ≡ list_within (links_of word.now)) }
{
    if is_word(word, b"-") {
        return Ok(Some(Values::new(alloc)));
    }
    list_of(alloc, word)
}

/// Whether the word is this one.
fn is_word(word: &[u8], name: &[u8]) -> bool
    ensures { result ≡ is_word word.now name.now }
{
    word == name
}

/// What a fact's line says.
fn expanded_of(atom: &[u8], place: &[u8]) -> Option<Line>
    ensures { result ≡ expanded_of (within (number_of atom.now)) (within (number_of place.now)) }
{
    let number = exact_of(atom)?;
    let at = exact_of(place)?;
    Some(Line::Expanded(number, at))
}

/// What a match's line says.
fn match_of(alloc: Global, facts: &[u8], links: &[u8]) -> Result<Option<Line>, OutOfMemory>
    ensures { IfOk result (λ it. it ≡ match_of (list_within (list_of facts.now))
        (list_within (links_of links.now))) }
{
    let Some(fact_lines) = list_of(alloc, facts)? else {
        return Ok(None);
    };
    let Some(link_lines) = links_of(alloc, links)? else {
        return Ok(None);
    };
    Ok(Some(Line::Match(fact_lines, link_lines)))
}

/// What a step's line says.
fn step_of(
    alloc: Global,
    rule: &[u8],
    place: &[u8],
    facts: &[u8],
    links: &[u8],
) -> Result<Option<Line>, OutOfMemory>
    ensures { IfOk result (λ it. it ≡ step_of (within (number_of rule.now))
        (option_map nearest (number_of place.now)) (list_within (list_of facts.now))
        (list_within (links_of links.now))) }
{
    let Some(number) = exact_of(rule) else {
        return Ok(None);
    };
    let Some(at) = nearest_of(place) else {
        return Ok(None);
    };
    let Some(fact_lines) = list_of(alloc, facts)? else {
        return Ok(None);
    };
    let Some(link_lines) = links_of(alloc, links)? else {
        return Ok(None);
    };
    Ok(Some(Line::Step(number, at, fact_lines, link_lines)))
}

/// What three words say.
fn line_of_three(
    alloc: Global,
    verb: &[u8],
    first: &[u8],
    second: &[u8],
) -> Result<Option<Line>, OutOfMemory>
    ensures { IfOk result (λ it. it ≡ line_within
        (line_of_words (verb.now ∷ first.now ∷ second.now ∷ []))) }
{
    if is_word(verb, b"fact") {
        return Ok(expanded_of(first, second));
    }
    if is_word(verb, b"match") {
        return match_of(alloc, first, second);
    }
    Ok(None)
}

/// What five words say.
fn line_of_five(
    alloc: Global,
    verb: &[u8],
    rule: &[u8],
    place: &[u8],
    facts: &[u8],
    links: &[u8],
) -> Result<Option<Line>, OutOfMemory>
    ensures { IfOk result (λ it. it ≡ line_within (line_of_words
        (verb.now ∷ rule.now ∷ place.now ∷ facts.now ∷ links.now ∷ []))) }
{
    if is_word(verb, b"step") {
        return step_of(alloc, rule, place, facts, links);
    }
    Ok(None)
}

/// What words say that are three.
fn line_of_three_words(alloc: Global, words: &[&[u8]]) -> Result<Option<Line>, OutOfMemory>
    requires { length words.now ≡ 3 }
    ensures { IfOk result (λ it.
        it ≡ line_within (line_of_words (map (λ word. word.now) words.now))) }
{
    let [verb, first, second] = words else {
        return Ok(None);
    };
    line_of_three(alloc, verb, first, second)
}

/// What words say that are five.
fn line_of_five_words(alloc: Global, words: &[&[u8]]) -> Result<Option<Line>, OutOfMemory>
    requires { length words.now ≡ 5 }
    ensures { IfOk result (λ it.
        it ≡ line_within (line_of_words (map (λ word. word.now) words.now))) }
{
    let [verb, rule, place, facts, links] = words else {
        return Ok(None);
    };
    line_of_five(alloc, verb, rule, place, facts, links)
}

/// What words say.
fn line_of_words(alloc: Global, words: &[&[u8]]) -> Result<Option<Line>, OutOfMemory>
    ensures { IfOk result (λ it.
        it ≡ line_within (line_of_words (map (λ word. word.now) words.now))) }
{
    if words.len() == 3 {
        return line_of_three_words(alloc, words);
    }
    if words.len() == 5 {
        return line_of_five_words(alloc, words);
    }
    Ok(None)
}

/// What a line says, where 64 bits hold its numbers; in the place of a head's place that they don't hold is the nearest.
pub fn read_line(alloc: Global, bytes: &[u8]) -> Result<Option<Line>, OutOfMemory>
    ensures { IfOk result (λ it. it ≡ line_within (line_of bytes.now)) }
{
    match parts_by_space(alloc, bytes) {
        Ok(words) => line_of_words(alloc, words.as_slice()),
        Err(_) => Err(OutOfMemory),
    }
}
