// Numbers, signs and rows: what a sample is in the code, and its tests one by one.
#![tactic(auto)]

mod class;
mod declared;
mod lent;
mod numbers;
mod row;

pub use class::classify;
pub use declared::{Declared, Signature};
pub use lent::{RowError, row_from, row_into, row_test};
pub use numbers::{ConsNo, PredNo, SampleNo, Sign};
pub use row::Row;
