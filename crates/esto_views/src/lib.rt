//! Fragments, plans over them, and what a plan asks of the datasets. Start from `FragmentDef`,
//! `Plan` and `expand`.
#![tactic(auto)]

mod atoms;
mod contained;
mod expansion;
mod fragments;
mod index;
mod indexed;
mod inner;
mod naming;
mod order;
mod plan;
mod printing;
mod reading;
mod renamed;
mod renaming;
mod spread;

pub use atoms::plan_facts;
pub use contained::matched_sets_are_contained;
pub use expansion::{expand, plans_fit_views};
pub use fragments::{Access, AccessList, FragmentDef, FragmentDefs, rows_of_view};
pub use naming::meet_terms;
pub use order::Order;
pub use plan::{Plan, PlanAtom, PlanAtoms, plans_are_sound};
pub use printing::{put_constant, put_count, put_number, put_numbers, put_terms};
pub use renamed::{renamed_plan, renamed_plans_are_one};
