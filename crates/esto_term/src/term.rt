//! Terms: constants, plain terms and made terms.
ghost use Rattle.std.specs.Prelude.{◌≡◌, ◌↔◌, Contains, IsTrue, IfOk};
ghost use Rattle.std.specs.Cmp.{IsTotalOrder};
ghost use Rattle.std.specs.Cmp.Lexicographic.{slice_cmp};
ghost use Rattle.esto_term.specs.Nesting.{nesting};
ghost use Rattle.esto_term.specs.Finite.{AreFinite};
ghost use Rattle.esto_term.specs.Kinds.{IsConstant};
ghost use Rattle.esto_term.specs.Order.{replaced, term_cmp};
ghost use Rattle.esto_term.specs.declared.term.Term.{Term};
ghost use Rattle.esto_term.specs.declared.term.Term.TheVariants as term;

use crate::list::{List, OutOfMemory, Replicate};
use crate::text::Text;
use std::alloc::Global;
use std::cmp::Ordering;

/// A term, which contracts see as a tree.
#[derive(Drop)]
pub enum Term {
    /// A text constant.
    Const(Text),
    /// A variable of a query, rule or view, a frozen variable, or a node of a document.
    Plain(u64),
    /// The value that a rule, the first number, made for one of its existential variables, the second, at
    /// these values of its frontier.
    Made(u64, u64, Terms),
}

/// A list of terms.
pub type Terms = List<Term>;

/// A list of rows of terms.
pub type TermRows = List<Terms>;

impl Term {
    /// How deep made terms nest: 0 for a constant, a plain term and a made term without frontier terms, and
    /// else 1 more than the greatest nesting of the frontier terms; the greatest `u64` stays as it is.
    pub fn nesting(&self) -> u64
        ensures { result ≡ nesting self.now }
    {
        match self {
            Term::Const(_) => 0,
            Term::Plain(_) => 0,
            Term::Made(_, _, frontier) => {
                let mut nesting: u64 = 0;
                'frontier: for part in frontier.items() {
                    nesting = nesting.max(part.nesting().saturating_add(1));
                }
                nesting
            }
        }
    }

    /// The order of terms: constants by bytes, then plain terms by number, then made terms by nesting, rule,
    /// variable and frontier. `Equal` comes at equal terms alone.
    #[cycle(compare)]
    #[tactic(auto, using(crate::proofs::CompareLemmas::compare_rules))]
    pub fn compare(&self, other: &Term) -> Ordering
        ensures { result ≡ term_cmp self.now other.now }
    {
        match self {
            Term::Const(text) => match other {
                Term::Const(text_b) => text.bytes().cmp(text_b.bytes()),
                Term::Plain(_) => Ordering::Less,
                Term::Made(_, _, _) => Ordering::Less,
            },
            Term::Plain(number) => match other {
                Term::Const(_) => Ordering::Greater,
                Term::Plain(number_b) => number.cmp(number_b),
                Term::Made(_, _, _) => Ordering::Less,
            },
            Term::Made(rule, variable, frontier) => match other {
                Term::Const(_) => Ordering::Greater,
                Term::Plain(_) => Ordering::Greater,
                Term::Made(rule_b, variable_b, frontier_b) => self
                    .nesting()
                    .cmp(&other.nesting())
                    .then(rule.cmp(rule_b))
                    .then(variable.cmp(variable_b))
                    .then(compare_terms(frontier.items(), frontier_b.items())),
            },
        }
    }

    /// Whether both are the same tree.
    #[cycle(equal)]
    pub fn equal(&self, other: &Term) -> bool
        ensures { IsTrue result ↔ (self.now ≡ other.now) }
    {
        match self {
            Term::Const(text) => match other {
                Term::Const(text_b) => text.bytes() == text_b.bytes(),
                Term::Plain(_) => false,
                Term::Made(_, _, _) => false,
            },
            Term::Plain(number) => match other {
                Term::Const(_) => false,
                Term::Plain(number_b) => number == number_b,
                Term::Made(_, _, _) => false,
            },
            Term::Made(rule, variable, frontier) => match other {
                Term::Const(_) => false,
                Term::Plain(_) => false,
                Term::Made(rule_b, variable_b, frontier_b) => {
                    rule == rule_b
                        && (variable == variable_b
                            && equal_terms(frontier.items(), frontier_b.items()))
                }
            },
        }
    }

    /// Whether the term is a constant.
    pub fn is_constant(&self) -> bool
        ensures { IsTrue result ↔ IsConstant self.now }
    {
        match self {
            Term::Const(_) => true,
            Term::Plain(_) => false,
            Term::Made(_, _, _) => false,
        }
    }

    /// A copy of `to` where this term is `from`, and else a copy of this term. A made term is a name: nothing
    /// is replaced inside it.
    pub fn substitute(&self, alloc: Global, from: &Term, to: &Term) -> Result<Term, OutOfMemory>
        ensures { IfOk result (λ it. it ≡ replaced from.now to.now self.now) }
    {
        if self.equal(from) {
            to.copy(alloc)
        } else {
            self.copy(alloc)
        }
    }
}

/// Whether both are the same terms in the same order.
#[cycle(equal)]
pub fn equal_terms(terms: &[Term], others: &[Term]) -> bool
    ensures { IsTrue result ↔ (terms.now ≡ others.now) }
{
    if terms.len() != others.len() {
        return false;
    }
    'terms: for (place, term) in terms.iter().enumerate() {
        if !term.equal(&others[place]) {
            return false;
        }
    }
    true
}

/// Whether one of the terms is this one.
pub fn has_term(terms: &[Term], term: &Term) -> bool
    ensures { IsTrue result ↔ Contains terms.now term.now }
{
    'terms: for other in terms {
        if other.equal(term) {
            return true;
        }
    }
    false
}

/// Compares the terms one by one, and then the lengths.
#[cycle(compare)]
pub fn compare_terms(terms: &[Term], others: &[Term]) -> Ordering
    ensures { result ≡ slice_cmp term_cmp terms.now others.now }
{
    'terms: for (place, term) in terms.iter().enumerate() {
        if place >= others.len() {
            return Ordering::Greater;
        }
        let order = term.compare(&others[place]);
        if order.is_ne() {
            return order;
        }
    }
    terms.len().cmp(&others.len())
}

// A copy of a constant.
fn copied_constant(alloc: Global, text: &Text) -> Result<Term, OutOfMemory>
    ensures { IfOk result (λ it. it ≡ term.Const text.now) }
{
    let text = text.copy(alloc)?;
    Ok(Term::Const(text))
}

// A copy of the term.
#[cycle(copy)]
fn copied(alloc: Global, term: &Term) -> Result<Term, OutOfMemory>
    ensures { IfOk result (λ it. it ≡ term.now) }
{
    match term {
        Term::Const(text) => copied_constant(alloc, text),
        Term::Plain(number) => Ok(Term::Plain(*number)),
        Term::Made(rule, variable, frontier) => {
            copied_made(alloc, *rule, *variable, frontier.items())
        }
    }
}

// A copy of a made term.
#[cycle(copy)]
fn copied_made(
    alloc: Global,
    rule: u64,
    variable: u64,
    frontier: &[Term],
) -> Result<Term, OutOfMemory>
    ensures { IfOk result (λ it. it ≡ term.Made rule variable frontier.now) }
{
    let mut own = List::new(alloc);
    'frontier: for part in frontier {
        let part = copied(alloc, part)?;
        own.push(part)?;
    }
    Ok(Term::Made(rule, variable, own))
}

impl Replicate for Term {
    fn copy(&self, alloc: Global) -> Result<Term, OutOfMemory> {
        copied(alloc, self)
    }
}

/// A law: the order of terms is total, and answers `Equal` at equal terms alone.
pub fn terms_are_ordered()
    ensures total { IsTotalOrder term_cmp }
    ensures exact { (t u : Term) → (term_cmp t u ≡ Ordering.Equal) ↔ (t ≡ u) }
{}

/// A law: over finitely many texts, numbers, rules and variables, one finite list holds every term whose nesting
/// is within a bound below the greatest `u64` and whose frontiers have at most so many terms.
pub fn terms_are_finite()
    ensures { AreFinite }
{}
