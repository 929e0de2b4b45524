//! Sets that are run together.
use esto_bits::RowBits;
use esto_views::{Order, Plan};

/// A set of a plan's atoms that is run, with an order of it.
#[derive(Clone, Copy)]
pub struct Pick<'a> {
    pub plan: &'a Plan,
    pub set: &'a RowBits,
    pub order: &'a Order,
}
