// A constraint as sample numbers with an optional right: what it loses, what becomes of it, and how two compare.
#![tactic(auto)]

mod cons;
mod left;
mod loss;

pub use cons::{Cons, needless};
pub use left::Left;
pub use loss::Outcome;
