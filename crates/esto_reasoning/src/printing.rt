//! The texts that `contains` and `minimise` print.
ghost use Rattle.std.specs.Prelude.{◌≡◌, ◌+◌, ◌++◌, [], codes, length, slice_get, IfOk, OnOk};
ghost use Rattle.std.specs.Fmt.{decimal};
ghost use Rattle.esto_views.specs.Names.{met_terms};
ghost use Rattle.esto_views.specs.Printing.{count_line, each_from, numbers_text};
ghost use Rattle.esto_query.specs.Schemas.{names_of};
ghost use Rattle.esto_reasoning.specs.Texts.{fact_line, fact_text, facts_lines, head_line, met_facts, minimal_text, no_text, numbered_line, relation_name};
ghost use Rattle.esto_reasoning.specs.Texts.{set_line};

use esto_bits::{RowBits, SetList};
use esto_query::{Atom, Names, Schema};
use esto_term::{Bytes, OutOfMemory, Term, Values};
use esto_views::{meet_terms, put_count, put_number, put_numbers, put_terms};
use std::alloc::Global;

// Notes the variables of facts that have no name and weren't met.
fn meet_facts(names: &Names, met: &mut Values<u64>, facts: &[Atom]) -> Result<(), OutOfMemory>
    ensures { OnOk result (met.new ≡ met_facts names.now met.old facts.now) }
{
    'facts: for fact in facts {
        meet_terms(names, met, fact.terms.items())?;
    }
    Ok(())
}

// Puts the name of a relation at the end, where there is one.
fn put_relation(text: &mut Bytes, schema: &Schema, relation: usize) -> Result<(), OutOfMemory>
    ensures { OnOk result (text.new ≡ text.old
        ++ relation_name (slice_get (names_of schema.now) relation)) }
{
    if relation >= schema.len() {
        return Ok(());
    }
    text.append(schema.name(relation).bytes())
}

// Puts a fact at the end.
fn put_fact(
    alloc: Global,
    text: &mut Bytes,
    schema: &Schema,
    names: &Names,
    nameless: &[u64],
    fact: &Atom,
) -> Result<(), OutOfMemory>
    ensures { OnOk result (text.new ≡ text.old
        ++ fact_text (names_of schema.now) names.now nameless.now fact.now) }
{
    put_relation(text, schema, fact.relation)?;
    put_terms(alloc, text, names, nameless, fact.terms.items())
}

// Puts the line of a fact at the end.
fn put_line(
    alloc: Global,
    text: &mut Bytes,
    schema: &Schema,
    names: &Names,
    nameless: &[u64],
    fact: &Atom,
) -> Result<(), OutOfMemory>
    ensures { OnOk result (text.new ≡ text.old
        ++ fact_line (names_of schema.now) names.now nameless.now fact.now) }
{
    put_fact(alloc, text, schema, names, nameless, fact)?;
    text.append(b"\n")
}

// Puts the lines of facts at the end.
fn put_lines(
    alloc: Global,
    text: &mut Bytes,
    schema: &Schema,
    names: &Names,
    nameless: &[u64],
    facts: &[Atom],
) -> Result<(), OutOfMemory>
    ensures { OnOk result (text.new ≡ text.old
        ++ facts_lines (names_of schema.now) names.now nameless.now facts.now) }
{
    'facts: for fact in facts {
        put_line(alloc, text, schema, names, nameless, fact)?;
    }
    Ok(())
}

// Puts the line of a fact and of its number at the end.
fn put_numbered(
    alloc: Global,
    text: &mut Bytes,
    schema: &Schema,
    names: &Names,
    nameless: &[u64],
    place: usize,
    fact: &Atom,
) -> Result<(), OutOfMemory>
    ensures { OnOk result (text.new ≡ text.old
        ++ numbered_line (names_of schema.now) names.now nameless.now place fact.now) }
{
    put_number(alloc, text, place as u128 + 1)?;
    text.append(b" ")?;
    put_line(alloc, text, schema, names, nameless, fact)
}

// Puts the lines of facts and of their numbers at the end.
fn put_numbered_lines(
    alloc: Global,
    text: &mut Bytes,
    schema: &Schema,
    names: &Names,
    nameless: &[u64],
    facts: &[Atom],
) -> Result<(), OutOfMemory>
    ensures { OnOk result (text.new ≡ text.old
        ++ each_from (numbered_line (names_of schema.now) names.now nameless.now) 0 facts.now) }
{
    'facts: for (place, fact) in facts.iter().enumerate() {
        put_numbered(alloc, text, schema, names, nameless, place, fact)?;
    }
    Ok(())
}

// Puts the line of a word and of terms at the end.
fn put_head(
    alloc: Global,
    text: &mut Bytes,
    word: &[u8],
    names: &Names,
    nameless: &[u64],
    head: &[Term],
) -> Result<(), OutOfMemory>
    ensures { OnOk result (text.new ≡ text.old
        ++ head_line word.now names.now nameless.now head.now) }
{
    text.append(word)?;
    put_terms(alloc, text, names, nameless, head)?;
    text.append(b"\n")
}

// Puts the line of the numbers of a set at the end.
fn put_set_numbers(
    alloc: Global,
    text: &mut Bytes,
    place: usize,
    numbers: &[usize],
) -> Result<(), OutOfMemory>
    ensures { OnOk result (text.new ≡ text.old ++ (decimal (place + 1) ++ codes " {"
        ++ numbers_text numbers.now ++ codes "}\n")) }
{
    put_number(alloc, text, place as u128 + 1)?;
    text.append(b" {")?;
    put_numbers(alloc, text, numbers)?;
    text.append(b"}\n")
}

// Puts the line of a set of numbers at the end.
fn put_set(alloc: Global, text: &mut Bytes, place: usize, set: &RowBits) -> Result<(), OutOfMemory>
    ensures { OnOk result (text.new ≡ text.old ++ set_line place set.now) }
{
    let numbers = set.numbers(alloc)?;
    put_set_numbers(alloc, text, place, numbers.items())
}

// Puts the lines of sets of numbers at the end.
fn put_sets(alloc: Global, text: &mut Bytes, sets: &[RowBits]) -> Result<(), OutOfMemory>
    ensures { OnOk result (text.new ≡ text.old ++ each_from set_line 0 sets.now) }
{
    'sets: for (place, set) in sets.iter().enumerate() {
        put_set(alloc, text, place, set)?;
    }
    Ok(())
}

// Puts the count of facts at the end, and their lines.
fn put_counted_facts(
    alloc: Global,
    text: &mut Bytes,
    schema: &Schema,
    names: &Names,
    nameless: &[u64],
    facts: &[Atom],
) -> Result<(), OutOfMemory>
    ensures { OnOk result (text.new ≡ text.old
        ++ (count_line (codes "facts ") (length facts.now)
        ++ each_from (numbered_line (names_of schema.now) names.now nameless.now) 0 facts.now)) }
{
    put_count(alloc, text, b"facts ", facts.len() as u128)?;
    put_numbered_lines(alloc, text, schema, names, nameless, facts)
}

// Puts the count of sets at the end, and their lines.
fn put_counted_sets(alloc: Global, text: &mut Bytes, sets: &[RowBits]) -> Result<(), OutOfMemory>
    ensures { OnOk result (text.new ≡ text.old
        ++ (count_line (codes "minimal ") (length sets.now) ++ each_from set_line 0 sets.now)) }
{
    put_count(alloc, text, b"minimal ", sets.len() as u128)?;
    put_sets(alloc, text, sets)
}

// The variables without a name, in the order in which they first occur in the row and then in the
// facts.
fn nameless_from_row(
    alloc: Global,
    names: &Names,
    row: &[Term],
    facts: &[Atom],
) -> Result<Values<u64>, OutOfMemory>
    ensures { IfOk result (λ it.
        it ≡ met_facts names.now (met_terms names.now [] row.now) facts.now) }
{
    let mut met = Values::new(alloc);
    meet_terms(names, &mut met, row)?;
    meet_facts(names, &mut met, facts)?;
    Ok(met)
}

// The variables without a name, in the order in which they first occur in the facts and then in the
// head.
fn nameless_from_facts(
    alloc: Global,
    names: &Names,
    facts: &[Atom],
    head: &[Term],
) -> Result<Values<u64>, OutOfMemory>
    ensures { IfOk result (λ it.
        it ≡ met_terms names.now (met_facts names.now [] facts.now) head.now) }
{
    let mut met = Values::new(alloc);
    meet_facts(names, &mut met, facts)?;
    meet_terms(names, &mut met, head)?;
    Ok(met)
}

/// The text of a no: the row and the facts that show it.
pub(crate) fn no_text(
    alloc: Global,
    schema: &Schema,
    names: &Names,
    row: &[Term],
    facts: &[Atom],
) -> Result<Bytes, OutOfMemory>
    ensures { IfOk result (λ text.
        text ≡ no_text (names_of schema.now) names.now row.now facts.now) }
{
    let met = nameless_from_row(alloc, names, row, facts)?;
    let nameless = met.items();
    let mut text = Bytes::from_slice(alloc, b"no\n")?;
    put_head(alloc, &mut text, b"row ", names, nameless, row)?;
    put_lines(alloc, &mut text, schema, names, nameless, facts)?;
    Ok(text)
}

/// The text of facts with a head, and of sets of their numbers.
pub(crate) fn minimal_text(
    alloc: Global,
    schema: &Schema,
    names: &Names,
    facts: &[Atom],
    head: &[Term],
    sets: &SetList,
) -> Result<Bytes, OutOfMemory>
    ensures { IfOk result (λ text. text
        ≡ minimal_text (names_of schema.now) names.now facts.now head.now sets.now) }
{
    let met = nameless_from_facts(alloc, names, facts, head)?;
    let nameless = met.items();
    let mut text = Bytes::new(alloc);
    put_counted_facts(alloc, &mut text, schema, names, nameless, facts)?;
    put_head(alloc, &mut text, b"head ", names, nameless, head)?;
    put_counted_sets(alloc, &mut text, sets.items())?;
    Ok(text)
}
