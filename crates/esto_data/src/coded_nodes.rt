//! Views whose rows have no node, told by the columns in which rows of codes have none.
ghost use Rattle.std.specs.Prelude.{◌≡◌, IsTrue};
ghost use Rattle.esto_query.specs.Making.{query_of};
ghost use Rattle.esto_data.specs.CodedParts.{HasNoNode, IsCodedFree, IsCodedFreeIn, IsCodedFreeView};

use esto_coded::CodedFacts;
use esto_query::Query;
use esto_semantics::Atom;
use esto_term::Term;

// Whether the term is this one, and no row has a node in the column.
fn is_free_at(facts: &CodedFacts, relation: usize, column: usize, own: &Term, term: &Term) -> bool
    ensures { IsTrue result → (own.now ≡ term.now) × HasNoNode facts.now relation column }
{
    if !own.equal(term) {
        return false;
    }
    !facts.has_node(relation, column)
}

// Whether the term stands in the atom in a column in which no row has a node.
fn is_free_in(facts: &CodedFacts, atom: &Atom, term: &Term) -> bool
    ensures { IsTrue result → IsCodedFreeIn facts.now term.now atom.now }
{
    'terms: for (column, own) in atom.terms.items().iter().enumerate() {
        if is_free_at(facts, atom.relation, column, own, term) {
            return true;
        }
    }
    false
}

// Whether the term is a constant, or stands so in one of the atoms.
fn is_free(facts: &CodedFacts, body: &[Atom], term: &Term) -> bool
    ensures { IsTrue result → IsCodedFree facts.now body.now term.now }
{
    if term.is_constant() {
        return true;
    }
    'atoms: for atom in body {
        if is_free_in(facts, atom, term) {
            return true;
        }
    }
    false
}

/// Whether each term of the view's head is a constant, or stands in an atom in a column in which no row has a node.
pub fn is_free_view(facts: &CodedFacts, view: &Query) -> bool
    ensures { IsTrue result → IsCodedFreeView facts.now (query_of view.now) }
{
    'terms: for term in view.head.items() {
        if !is_free(facts, view.body.items(), term) {
            return false;
        }
    }
    true
}
