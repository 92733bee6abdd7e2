// The pool: the order, a row for each number, and which samples are partial.
// Whether its rows are in order depends on the declared positions, which it does not hold: each promise has that as a premise.
use crate::order::Order;
use sample::{Row, SampleNo};
use std::cmp::Ordering;
use words::Set;

#[repr(C)]
#[derive(Clone, Copy)]
pub struct Pool {
    pub order: Order,
    pub partial: Set,
    pub rows: [Row; 256],
}

impl Pool {
    ghost use Rattle.std.specs.Prelude.{◌≡◌};
    ghost use Rattle.pool.specs.Pools.{row_at};
    ghost use Rattle.pool.specs.Answers.{Seeks};

    // A sample's row by its number.
    #[inline]
    pub fn row(&self, s: SampleNo) -> Row
        ensures { result ≡ row_at self.now.rows s.0 }
    {
        self.rows[usize::from(s)]
    }

    // Where a row stands: its number, or the place in the order that it would take.
    pub fn seek(&self, r: Row) -> Result<SampleNo, usize>
        ensures { Seeks self.now r result }
    {
        let used = self.order.in_use();
        match used.binary_search_by(|k| self.row(SampleNo(*k)).rank(r)) {
            Ok(place) => Ok(SampleNo(used[place])),
            Err(gap) => Err(gap),
        }
    }
}
