// Samples by number: a row for each number, the order of the numbers, and every question about covering.
#![tactic(auto)]

mod covering;
mod order;
mod pool;

pub use covering::Kept;
pub use order::Order;
pub use pool::Pool;
