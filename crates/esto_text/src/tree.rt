//! The trees of the grammar.
use crate::token::{Token, Tokens};
use esto_term::List;

/// A step of a path.
#[derive(Clone, Copy)]
pub enum StepSyntax {
    /// The field with this name, or with the name that this quoted constant says.
    Field(Token),
    /// `[]`: any item.
    Item,
    /// `**`: anything inside.
    Below,
}

/// An entry of a group: a path, and what stands at its end.
#[derive(Drop)]
pub enum EntrySyntax {
    Value {
        path: List<StepSyntax>,
        term: Token,
    },
    Group {
        path: List<StepSyntax>,
        entries: List<EntrySyntax>,
    },
}

/// An item of a body.
#[derive(Drop)]
pub enum ItemSyntax {
    /// `name(terms)`
    Atom {
        name: Token,
        terms: Tokens,
    },
    /// `name.part(terms)`
    Part {
        name: Token,
        part: Token,
        terms: Tokens,
    },
    /// `name{entries}`
    Pattern {
        name: Token,
        entries: List<EntrySyntax>,
    },
}

/// A query or a view: the name and the variables of its head, and the items of its body.
#[derive(Drop)]
pub struct QuerySyntax {
    pub name: Token,
    pub variables: Tokens,
    pub items: List<ItemSyntax>,
}

/// The head of a constraint.
#[derive(Drop)]
pub enum HeadSyntax {
    /// `item, item, ..`: the head of a tuple rule.
    Items(List<ItemSyntax>),
    /// `left = right`, where the left side is a name.
    Equality { left: Token, right: Token },
    /// `false`, from version 2 on: the constraint is a denial.
    Never,
}

/// A constraint: the items of its body, and its head.
#[derive(Drop)]
pub struct ConstraintSyntax {
    pub body: List<ItemSyntax>,
    pub head: HeadSyntax,
}
