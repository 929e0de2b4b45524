//! Hashes of terms and of claims.
ghost use Rattle.std.specs.Prelude.{◌≡◌};
ghost use Rattle.esto_columns.specs.Indexed.{mixed, hash_from};
ghost use Rattle.esto_known.specs.Hashes.{term_hash, relation_hash, fact_hash, pair_hash, claim_key, first_key, second_key};

use esto_chase_laws::Claim;
use esto_semantics::Atom;
use esto_term::Term;

/// By what a hash is multiplied before a number is added to it.
const FACTOR: u64 = 0x9E37_79B9_7F4A_7C15;

/// The hash with the number taken into it.
fn mixed(hash: u64, number: u64) -> u64
    ensures { result ≡ mixed hash number }
{
    hash.wrapping_mul(FACTOR).wrapping_add(number)
}

/// The hash of a text.
fn text_hash(text: &[u8]) -> u64
    ensures { result ≡ hash_from 0 text.now }
{
    let mut hash: u64 = 0;
    'bytes: for byte in text {
        hash = mixed(hash, *byte as u64);
    }
    hash
}

/// The hash of a term.
pub fn term_hash(term: &Term) -> u64
    ensures { result ≡ term_hash term.now }
{
    match term {
        Term::Const(text) => text_hash(text.bytes()),
        Term::Plain(number) => mixed(1, *number),
        Term::Made(rule, variable, frontier) => {
            let mut hash = mixed(mixed(2, *rule), *variable);
            'frontier: for part in frontier.items() {
                hash = mixed(hash, term_hash(part));
            }
            hash
        }
    }
}

/// The hash of a relation.
pub fn relation_hash(relation: u64) -> u64
    ensures { result ≡ relation_hash relation }
{
    mixed(3, relation)
}

/// The hash of a fact.
pub fn fact_hash(fact: &Atom) -> u64
    ensures { result ≡ fact_hash fact.now }
{
    let mut hash = relation_hash(fact.relation as u64);
    'terms: for term in fact.terms.items() {
        hash = mixed(hash, term_hash(term));
    }
    hash
}

/// The hash of two hashes in either order.
pub fn pair_hash(one: u64, other: u64) -> u64
    ensures { result ≡ pair_hash one other }
{
    mixed(one.max(other), one.min(other))
}

/// The key of a claim.
pub fn claim_key(claim: &Claim) -> [u64; 1]
    ensures { result ≡ claim_key claim.now }
{
    match claim {
        Claim::Fact(fact) => [fact_hash(fact)],
        Claim::Same(left, right) => [pair_hash(term_hash(left), term_hash(right))],
    }
}

/// The key of a fact's relation, and of the first side of an equality.
pub fn first_key(claim: &Claim) -> [u64; 1]
    ensures { result ≡ first_key claim.now }
{
    match claim {
        Claim::Fact(fact) => [relation_hash(fact.relation as u64)],
        Claim::Same(left, _) => [term_hash(left)],
    }
}

/// The key of a fact's relation, and of the second side of an equality.
pub fn second_key(claim: &Claim) -> [u64; 1]
    ensures { result ≡ second_key claim.now }
{
    match claim {
        Claim::Fact(fact) => [relation_hash(fact.relation as u64)],
        Claim::Same(_, right) => [term_hash(right)],
    }
}
