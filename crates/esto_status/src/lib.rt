//! How a command line may end, and the line that says so; what a command, or a step of one, may answer and ask; and the fetch
//! of a file. Start from `Status`, `status_line` and `fetch`.
#![tactic(auto)]

mod cell;
mod fault;
mod fetching;
mod limits;
mod line;
mod reply;
mod status;

pub use fault::{CatalogueFault, CatalogueKind, Section};
pub use fetching::fetch;
pub use limits::{CATALOGUE_LIMIT, DATA_LIMIT, QUERY_LIMIT};
pub use line::status_line;
pub use reply::Reply;
pub use status::Status;
