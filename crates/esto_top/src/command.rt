//! The words of the command line.
ghost use Rattle.std.specs.Prelude.{◌≡◌, ◌≤◌, ◌<◌, length, map, true, None, IfOk, IfSome, MatchOption};
ghost use Rattle.std.specs.List.{list_all};
ghost use Rattle.esto_ports.specs.Faults.{Rises};
ghost use Rattle.esto_status.specs.Answers.{Answers};
ghost use Rattle.esto_status.specs.Asked.{AsksIn};
ghost use Rattle.esto_top.specs.DataOutcomes.{AnswersFill};
ghost use Rattle.esto_top.specs.Grammar.{is_word, is_digit, is_leading_digit, is_list_number, is_made_size, value_of, request_of_one, request_of_two};
ghost use Rattle.esto_top.specs.Grammar.{request_of_three, request_of_four, request_of, asked, IsMeant, course_of_asked, number_above, numbers_above};
ghost use Rattle.esto_top.specs.Grammar.{names_atoms, verifies_named};

use crate::bench::bench;
use crate::queries::QueryTask;
use crate::task::{Task, over_catalogue};
use crate::unions::UnionTask;
use esto_bench::MAX_SIZE;
use esto_cert::parts_by_comma;
use esto_ports::Shelf;
use esto_status::{Reply, Status};
use esto_term::{OutOfMemory, Text, Values};
use std::alloc::Global;

/// The greatest number of digits of the number of a list.
const MAX_DIGITS: usize = 9;

/// A command with its words.
#[derive(Clone, Copy)]
pub enum Command<'a> {
    /// `bench N`: the summary of the made case of this size, 1 to `MAX_SIZE`.
    Bench(usize),
    /// `verify C Q A FILE`: whether a certificate's file is accepted for the atoms of the plan that a word names, for a
    /// catalogue's file and a query's file.
    Verify(&'a Text, &'a Text, &'a Text, &'a Text),
    /// Each other command: a catalogue's file, and what is done over it.
    Over(&'a Text, Task<'a>),
}

fn is_word(word: &Text, name: &[u8]) -> bool
    ensures { result ≡ is_word word.now name.now }
{
    word.bytes() == name
}

fn is_digit(byte: u8) -> bool
    ensures { result ≡ is_digit byte }
{
    byte >= b'0' && byte <= b'9'
}

fn is_leading_digit(byte: u8) -> bool
    ensures { result ≡ is_leading_digit byte }
{
    byte >= b'1' && byte <= b'9'
}

fn are_digits(word: &[u8]) -> bool
    ensures { result ≡ list_all is_digit word.now }
{
    word.iter().all(|byte| is_digit(*byte))
}

// Whether the word is one to nine digits, of which the first is not 0.
fn is_list_number(word: &[u8]) -> bool
    ensures { result ≡ is_list_number word.now }
{
    let Some((first, rest)) = word.split_first() else {
        return false;
    };
    is_leading_digit(*first) && rest.len() < MAX_DIGITS && are_digits(rest)
}

// The number that the digits write in decimal.
fn value_of(digits: &[u8]) -> u64
    requires digits { list_all is_digit digits.now ≡ true }
    requires few { length digits.now ≤ MAX_DIGITS }
    ensures { result ≡ value_of digits.now }
{
    let mut value: u64 = 0;
    'digits: for digit in digits {
        value = value * 10 + (*digit - b'0') as u64;
    }
    value
}

// The number that the word writes, where it is a number of the list and above the one before it.
fn number_above(before: u64, word: &[u8]) -> Option<u64>
    ensures { result ≡ number_above before word.now }
{
    if !is_list_number(word) {
        return None;
    }
    let number = value_of(word);
    if number > before { Some(number) } else { None }
}

// The numbers that the words write, where each is above the one before it.
fn numbers_of(alloc: Global, words: &[&[u8]]) -> Result<Option<Values<u64>>, OutOfMemory>
    ensures { IfOk result (λ it. it ≡ numbers_above 0 (map (λ word. word.now) words.now)) }
{
    let mut numbers = Values::new(alloc);
    let mut before: u64 = 0;
    'words: for word in words {
        let Some(number) = number_above(before, word) else {
            return Ok(None);
        };
        numbers.push(number)?;
        before = number;
    }
    Ok(Some(numbers))
}

// The numbers of atoms that the word names.
fn named_atoms(alloc: Global, word: &Text) -> Result<Values<u64>, Status>
    ensures { Answers (names_atoms word.now) ⊥ result }
{
    let Ok(parts) = parts_by_comma(alloc, word.bytes()) else {
        return Err(Status::OutOfMemory);
    };
    match numbers_of(alloc, parts.as_slice())? {
        Some(numbers) => Ok(numbers),
        None => Err(Status::Usage),
    }
}

// Verifies the certificate of a file for the atoms that a word names.
fn verify_named<'a, S: Shelf>(
    alloc: Global,
    shelf: &mut S,
    catalogue: &Text,
    query: &'a Text,
    atoms: &Text,
    file: &'a Text,
) -> Result<Reply, Status>
    ensures answer { Answers (verifies_named (S.files shelf.old) catalogue.now query.now atoms.now
        file.now) (Rises S.faults shelf.old shelf.new) result }
    ensures asked { AsksIn (S.asked shelf.old) (S.asked shelf.new) (verifies_named
        (S.files shelf.old) catalogue.now query.now atoms.now file.now) result }
    ensures files { S.files shelf.new ≡ S.files shelf.old }
    ensures later { S.faults shelf.old ≤ S.faults shelf.new }
{
    let numbers = named_atoms(alloc, atoms)?;
    let task = QueryTask::Verify(numbers.items(), file);
    over_catalogue(alloc, shelf, catalogue, Task::Query(query, task))
}

// Whether the word is 1 to 14 in decimal.
fn is_made_size(word: &[u8]) -> bool
    ensures { result ≡ is_made_size word.now }
{
    match word {
        [digit] => is_leading_digit(*digit),
        [first, second] => *first == b'1' && *second >= b'0' && *second <= b'4',
        _ => false,
    }
}

// The size of the made case that the word writes.
fn made_size(word: &[u8]) -> usize
    requires { is_made_size word.now ≡ true }
    ensures value { result ≡ value_of word.now }
    ensures range { (0 < result) × (result ≤ MAX_SIZE) }
{
    value_of(word) as usize
}

// The command of one word after the verb.
fn command_of_one<'a>(verb: &Text, word: &'a Text) -> Option<Command<'a>>
    ensures command { MatchOption result (request_of_one verb.now word.now ≡ None)
        (λ command. request_of_one verb.now word.now ≡ asked command) }
    ensures meant { IfSome result IsMeant }
{
    if is_word(verb, b"check") {
        Some(Command::Over(word, Task::Check))
    } else if is_word(verb, b"audit") {
        Some(Command::Over(word, Task::Audit))
    } else if is_word(verb, b"bench") && is_made_size(word.bytes()) {
        Some(Command::Bench(made_size(word.bytes())))
    } else {
        None
    }
}

// The command of two words after the verb.
fn command_of_two<'a>(verb: &Text, first: &'a Text, second: &'a Text) -> Option<Command<'a>>
    ensures command { MatchOption result (request_of_two verb.now first.now second.now ≡ None)
        (λ command. request_of_two verb.now first.now second.now ≡ asked command) }
    ensures meant { IfSome result IsMeant }
{
    if is_word(verb, b"list") {
        Some(Command::Over(first, Task::Union(second, UnionTask::List)))
    } else if is_word(verb, b"run") {
        Some(Command::Over(first, Task::Union(second, UnionTask::Run(None))))
    } else if is_word(verb, b"fill") {
        Some(Command::Over(first, Task::Fill(second)))
    } else if is_word(verb, b"answer") {
        Some(Command::Over(first, Task::Union(second, UnionTask::Answer)))
    } else if is_word(verb, b"minimise") {
        Some(Command::Over(first, Task::Query(second, QueryTask::Minimise)))
    } else {
        None
    }
}

// The command of three words after the verb.
fn command_of_three<'a>(
    verb: &Text,
    first: &'a Text,
    second: &'a Text,
    third: &'a Text,
) -> Option<Command<'a>>
    ensures command { MatchOption result
        (request_of_three verb.now first.now second.now third.now ≡ None)
        (λ command. request_of_three verb.now first.now second.now third.now
        ≡ asked command) }
    ensures meant { IfSome result IsMeant }
{
    if is_word(verb, b"contains") {
        Some(Command::Over(first, Task::Contains(second, third)))
    } else if is_word(verb, b"run") && is_list_number(third.bytes()) {
        let number = value_of(third.bytes());
        Some(Command::Over(first, Task::Union(second, UnionTask::Run(Some(number)))))
    } else if is_word(verb, b"explain") && is_list_number(third.bytes()) {
        let number = value_of(third.bytes());
        Some(Command::Over(first, Task::Query(second, QueryTask::Explain(number))))
    } else {
        None
    }
}

// The command of four words after the verb.
fn command_of_four<'a>(
    verb: &Text,
    first: &'a Text,
    second: &'a Text,
    third: &'a Text,
    fourth: &'a Text,
) -> Option<Command<'a>>
    ensures command { MatchOption result
        (request_of_four verb.now first.now second.now third.now fourth.now ≡ None)
        (λ command. request_of_four verb.now first.now second.now third.now fourth.now
        ≡ asked command) }
    ensures meant { IfSome result IsMeant }
{
    if is_word(verb, b"verify") {
        Some(Command::Verify(first, second, third, fourth))
    } else {
        None
    }
}

/// The command that the words ask for, or nothing where they are outside the grammar.
pub fn command_of<'a>(words: &'a [Text]) -> Option<Command<'a>>
    ensures command { MatchOption result (request_of words.now ≡ None)
        (λ command. request_of words.now ≡ asked command) }
    ensures meant { IfSome result IsMeant }
{
    match words {
        [verb, word] => command_of_one(verb, word),
        [verb, first, second] => command_of_two(verb, first, second),
        [verb, first, second, third] => command_of_three(verb, first, second, third),
        [verb, first, second, third, fourth] => {
            command_of_four(verb, first, second, third, fourth)
        }
        _ => None,
    }
}

/// Does what a command asks for.
pub fn obey<S: Shelf>(alloc: Global, shelf: &mut S, command: Command<'_>) -> Result<Reply, Status>
    requires { IsMeant command }
    ensures answer { Answers (course_of_asked (S.files shelf.old) (asked command.entry))
        (Rises S.faults shelf.old shelf.new) result }
    ensures asked { AsksIn (S.asked shelf.old) (S.asked shelf.new)
        (course_of_asked (S.files shelf.old) (asked command.entry)) result }
    ensures filled { AnswersFill (asked command.entry) (S.files shelf.old)
        (S.asked shelf.old) (S.asked shelf.new) (Rises S.faults shelf.old shelf.new) result }
    ensures files { S.files shelf.new ≡ S.files shelf.old }
    ensures later { S.faults shelf.old ≤ S.faults shelf.new }
{
    match command {
        Command::Bench(size) => bench(alloc, size),
        Command::Verify(catalogue, query, atoms, file) => {
            verify_named(alloc, shelf, catalogue, query, atoms, file)
        }
        Command::Over(catalogue, task) => over_catalogue(alloc, shelf, catalogue, task),
    }
}
