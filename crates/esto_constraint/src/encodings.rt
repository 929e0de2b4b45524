//! The rules of the encodings: those that the facts of documents and of keys are to meet. Variables are numbered by first
//! occurrence, the body first, and named as the rules are written.
ghost use Rattle.std.specs.Prelude.{◌≡◌, ◌<◌, ◌≤◌, ◌+◌, [], ◌∷◌, ◌++◌, length, map, take, slice_index_or, encode_utf8, IfOk, OnOk};
ghost use Rattle.std.specs.List.{AllByRecursion};
ghost use Rattle.esto_term.specs.declared.term.Term.TheVariants.{Plain};
ghost use Rattle.esto_query.specs.declared.query.Name.TheVariants.{Given};
ghost use Rattle.esto_semantics.specs.Rules.{tuple, equality, denial};
ghost use Rattle.esto_constraint.specs.Constraints.{rules_of};
ghost use Rattle.esto_constraint.specs.EncodingRules.{written, document_names, document_names_2, key_names};
ghost use Rattle.esto_semantics.specs.DocumentRules.{atom, document_rules, document_rules_2, key_rules};

use crate::rule::{Constraint, Denial, Egd, Rules, Tgd};
use esto_query::{Name, Names};
use esto_semantics::{Atoms, Fact};
use esto_term::{List, OutOfMemory, Term, Text};
use std::alloc::Global;

/// The greatest number of a base, beyond which one of the five relations of documents has no number.
const LAST_BASE: usize = usize::MAX - 4;

/// The name of one letter.
fn name_of(alloc: Global, letter: char) -> Result<Name, OutOfMemory>
    ensures { IfOk result (λ it. it ≡ Given (encode_utf8 letter)) }
{
    let mut bytes = [0; 4];
    let text = Text::from_str(alloc, letter.encode_utf8(&mut bytes))?;
    Ok(Name::Given(text))
}

/// The names of one letter each, in order.
fn names_of(alloc: Global, letters: &[char]) -> Result<Names, OutOfMemory>
    ensures { IfOk result (λ it. it ≡ map (λ letter. Given (encode_utf8 letter)) letters.now) }
{
    let mut names = List::new(alloc);
    'letters: for letter in letters {
        let name = name_of(alloc, *letter)?;
        names.push(name)?;
    }
    Ok(names)
}

/// Adds the atom of a relation over these variables.
fn add_atom(
    alloc: Global,
    relation: usize,
    variables: &[u64],
    atoms: &mut Atoms,
) -> Result<(), OutOfMemory>
    ensures { OnOk result (atoms.new ≡ atoms.old ++ atom relation variables.now ∷ []) }
{
    let mut terms = List::new(alloc);
    'variables: for variable in variables {
        terms.push(Term::Plain(*variable))?;
    }
    atoms.push(Fact { relation, terms })
}

/// The body or head of one atom of a relation over these variables.
fn one_atom(alloc: Global, relation: usize, variables: &[u64]) -> Result<Atoms, OutOfMemory>
    ensures { IfOk result (λ it. it ≡ atom relation variables.now ∷ []) }
{
    let mut atoms = List::new(alloc);
    add_atom(alloc, relation, variables, &mut atoms)?;
    Ok(atoms)
}

/// The body of two atoms.
fn two_atoms(
    alloc: Global,
    relation: usize,
    first: &[u64],
    other: usize,
    second: &[u64],
) -> Result<Atoms, OutOfMemory>
    ensures { IfOk result (λ it.
        it ≡ atom relation first.now ∷ atom other second.now ∷ []) }
{
    let mut atoms = one_atom(alloc, relation, first)?;
    add_atom(alloc, other, second, &mut atoms)?;
    Ok(atoms)
}

/// Adds the equality rule that two atoms of one relation agree at a place.
fn add_equality_rule(
    alloc: Global,
    relation: usize,
    first: &[u64],
    second: &[u64],
    place: usize,
    names: &[char],
    rules: &mut Rules,
) -> Result<(), OutOfMemory>
    requires in_first { place < length first.now }
    requires in_second { place < length second.now }
    requires first_named { AllByRecursion (λ v. v < length names.now) first.now }
    requires second_named { AllByRecursion (λ v. v < length names.now) second.now }
    ensures rules { OnOk result (rules_of rules.new ≡ rules_of rules.old ++ equality
        (atom relation first.now ∷ atom relation second.now ∷ [])
        (Plain (slice_index_or first.now place 0)) (Plain (slice_index_or second.now place 0))
        ∷ []) }
    ensures names { OnOk result (map written rules.new
        ≡ map written rules.old ++ map (λ letter. Given (encode_utf8 letter)) names.now ∷ []) }
{
    let body = two_atoms(alloc, relation, first, relation, second)?;
    let names = names_of(alloc, names)?;
    rules.push(Constraint::Equal(Egd {
        body,
        left: Term::Plain(first[place]),
        right: Term::Plain(second[place]),
        names,
    }))
}

/// Adds the tuple rule that an atom of one relation asks for one of another.
fn add_tuple_rule(
    alloc: Global,
    relation: usize,
    from: &[u64],
    other: usize,
    to: &[u64],
    names: &[char],
    rules: &mut Rules,
) -> Result<(), OutOfMemory>
    requires from_named { AllByRecursion (λ v. v < length names.now) from.now }
    requires to_named { AllByRecursion (λ v. v < length names.now) to.now }
    ensures rules { OnOk result (rules_of rules.new ≡ rules_of rules.old
        ++ tuple (atom relation from.now ∷ []) (atom other to.now ∷ []) ∷ []) }
    ensures names { OnOk result (map written rules.new
        ≡ map written rules.old ++ map (λ letter. Given (encode_utf8 letter)) names.now ∷ []) }
{
    let body = one_atom(alloc, relation, from)?;
    let head = one_atom(alloc, other, to)?;
    let names = names_of(alloc, names)?;
    rules.push(Constraint::Tuple(Tgd { body, head, names }))
}

/// Adds the denial by which two atoms never match together.
fn add_denial(
    alloc: Global,
    relation: usize,
    first: &[u64],
    other: usize,
    second: &[u64],
    names: &[char],
    rules: &mut Rules,
) -> Result<(), OutOfMemory>
    requires first_named { AllByRecursion (λ v. v < length names.now) first.now }
    requires second_named { AllByRecursion (λ v. v < length names.now) second.now }
    ensures rules { OnOk result (rules_of rules.new ≡ rules_of rules.old
        ++ denial (atom relation first.now ∷ atom other second.now ∷ []) ∷ []) }
    ensures names { OnOk result (map written rules.new
        ≡ map written rules.old ++ map (λ letter. Given (encode_utf8 letter)) names.now ∷ []) }
{
    let body = two_atoms(alloc, relation, first, other, second)?;
    let names = names_of(alloc, names)?;
    rules.push(Constraint::Never(Denial { body, names }))
}

/// Adds the first three rules of documents, whose five relations stand from the base on: a node has
/// one field of a name, and a field has one node and one name.
fn add_rules_of_fields(alloc: Global, base: usize, rules: &mut Rules) -> Result<(), OutOfMemory>
    requires base { base + 4 ≤ 18446744073709551615 }
    ensures rules { OnOk result (rules_of rules.new
        ≡ rules_of rules.old ++ take 3 (document_rules base)) }
    ensures names { OnOk result (map written rules.new
        ≡ map written rules.old ++ take 3 document_names) }
{
    let names = ['n', 'k', 'm', 'p'];
    add_equality_rule(alloc, base + 1, &[0, 1, 2], &[0, 1, 3], 2, &names, rules)?;
    let names = ['n', 'k', 'm', 'p', 'l'];
    add_equality_rule(alloc, base + 1, &[0, 1, 2], &[3, 4, 2], 0, &names, rules)?;
    add_equality_rule(alloc, base + 1, &[0, 1, 2], &[3, 4, 2], 1, &names, rules)
}

/// Adds the first five rules of documents: those of fields, and then that an item has one node and
/// a node holds one value.
fn add_rules_of_values(alloc: Global, base: usize, rules: &mut Rules) -> Result<(), OutOfMemory>
    requires base { base + 4 ≤ 18446744073709551615 }
    ensures rules { OnOk result (rules_of rules.new
        ≡ rules_of rules.old ++ take 5 (document_rules base)) }
    ensures names { OnOk result (map written rules.new
        ≡ map written rules.old ++ take 5 document_names) }
{
    add_rules_of_fields(alloc, base, rules)?;
    let names = ['n', 'm', 'p'];
    add_equality_rule(alloc, base + 2, &[0, 1], &[2, 1], 0, &names, rules)?;
    let names = ['n', 'v', 'w'];
    add_equality_rule(alloc, base + 3, &[0, 1], &[0, 2], 1, &names, rules)
}

/// Adds the seven rules of documents of version 1: the first five, and then that fields and items
/// stand below.
fn add_rules_of_documents(alloc: Global, base: usize, rules: &mut Rules) -> Result<(), OutOfMemory>
    requires base { base + 4 ≤ 18446744073709551615 }
    ensures rules { OnOk result (rules_of rules.new ≡ rules_of rules.old ++ document_rules base) }
    ensures names { OnOk result (map written rules.new
        ≡ map written rules.old ++ document_names) }
{
    add_rules_of_values(alloc, base, rules)?;
    let names = ['n', 'k', 'm'];
    add_tuple_rule(
        alloc,
        base + 1,
        &[0, 1, 2],
        base + 4,
        &[0, 2],
        &names,
        rules,
    )?;
    let names = ['n', 'm'];
    add_tuple_rule(alloc, base + 2, &[0, 1], base + 4, &[0, 1], &names, rules)
}

/// Adds the eight rules of documents of version 2: those of version 1, and then that no document
/// stands below a node.
fn add_rules_of_documents_2(
    alloc: Global,
    base: usize,
    rules: &mut Rules,
) -> Result<(), OutOfMemory>
    requires base { base + 4 ≤ 18446744073709551615 }
    ensures rules { OnOk result (rules_of rules.new
        ≡ rules_of rules.old ++ document_rules_2 base) }
    ensures names { OnOk result (map written rules.new
        ≡ map written rules.old ++ document_names_2) }
{
    add_rules_of_documents(alloc, base, rules)?;
    add_denial(alloc, base, &[0], base + 4, &[1, 0], &['n', 'm'], rules)
}

/// The rules that the facts of documents meet, in a catalogue of version 1, over the relations root, field, item, value
/// and below that stand from the base on: a node has one field of a name, a field has one node and one name, an item has
/// one node, a node holds one value, and fields and items stand below. OutOfMemory comes too where a relation has no
/// number of 64 bits.
pub fn document_rules(alloc: Global, base: usize) -> Result<Rules, OutOfMemory>
    ensures rules { IfOk result (λ it. rules_of it ≡ document_rules base) }
    ensures names { IfOk result (λ it. map written it ≡ document_names) }
{
    if base > LAST_BASE {
        return Err(OutOfMemory);
    }
    let mut rules = List::new(alloc);
    add_rules_of_documents(alloc, base, &mut rules)?;
    Ok(rules)
}

/// The rules that the facts of documents meet, in a catalogue of version 2: those of version 1, and then that no document
/// stands below a node. OutOfMemory comes too where a relation has no number of 64 bits.
pub fn document_rules_2(alloc: Global, base: usize) -> Result<Rules, OutOfMemory>
    ensures rules { IfOk result (λ it. rules_of it ≡ document_rules_2 base) }
    ensures names { IfOk result (λ it. map written it ≡ document_names_2) }
{
    if base > LAST_BASE {
        return Err(OutOfMemory);
    }
    let mut rules = List::new(alloc);
    add_rules_of_documents_2(alloc, base, &mut rules)?;
    Ok(rules)
}

/// The rule that the facts of keys are to meet: a field of a key has one value.
pub fn key_rules(alloc: Global, relation: usize) -> Result<Rules, OutOfMemory>
    ensures rules { IfOk result (λ it. rules_of it ≡ key_rules relation) }
    ensures names { IfOk result (λ it. map written it ≡ key_names) }
{
    let names = ['k', 'f', 'v', 'w'];
    let first = [0, 1, 2];
    let second = [0, 1, 3];
    let mut rules = List::new(alloc);
    add_equality_rule(alloc, relation, &first, &second, 2, &names, &mut rules)?;
    Ok(rules)
}
