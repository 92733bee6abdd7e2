// A set of numbers below 256, as four words of bits.
#![tactic(auto)]

mod set;
mod word;

pub use set::Set;
