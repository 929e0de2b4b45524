//! What the commands do over plans, sets and certificates, and over unions, where the catalogue and the queries are read. A
//! query's printed plan, its list and the choice of an item: start from `printed_plan`, `plan_of`, `listing_of`, `list_of` and
//! `choose`. Certificates: start from `explain_query`, which writes one for a listed set of a plan, and from `verify_query`,
//! which fetches one and checks that it shows that the atoms of a plan that are named by their numbers answer the query. Unions
//! of two or more queries: start from `members_of`, which are the union's queries with their plans and lists in it, and from
//! `list_union` and `run_union`.
#![tactic(auto)]

mod certificate_laws;
mod choice;
mod explaining;
mod list;
mod members;
mod picking;
mod planned_laws;
mod planning;
mod printed;
mod run;
mod union_laws;
mod verifying;

pub use certificate_laws::sets_have_certificates;
pub use choice::choose;
pub use explaining::explain_query;
pub use list::list_union;
pub use members::{Member, Members, clash_of, copy_clash, members_of};
pub use planned_laws::{
    chosen_items_are_listed, items_and_texts_are_one, planned_plans_are_universal,
    planned_plans_have_their_form, plans_and_lists_are_moved, plans_and_lists_are_one,
};
pub use planning::{PlanList, list_of, listing_of, plan_of};
pub use printed::{
    printed_cores_are_one_for_a_query, printed_plan, printed_plans_are_one,
    printed_plans_are_over_fragments, printed_plans_are_universal,
    printed_plans_tell_satisfiable_queries,
};
pub use run::run_union;
pub use union_laws::{
    members_are_one, members_tell_rewritings, runs_answer_unions, union_lists_are_exact,
    union_lists_are_moved, union_lists_are_one, union_runs_are_exact, union_runs_are_moved,
    union_runs_are_one,
};
pub use verifying::verify_query;
