// A row by value: covers, overlaps, its place in the order of samples, single.
// Whether a row is in order depends on how many positions its predicate has, which it does not hold: each promise has that as a premise.
ghost use Rattle.std.specs.Prelude.{◌≡◌, Bool, true, ℕ, ℤ, pos, ◌<◌, map, slice_index_or, Option, None};
ghost use Rattle.std.specs.declared.cmp.Ordering.{Ordering};
ghost use Rattle.rules.specs.Samples.{Position, covers, overlaps, single, total};
ghost use Rattle.rules.specs.Samples as rules;
ghost use Rattle.rules.specs.Rows.{bit, position, positions_from};
ghost use Rattle.sample.specs.Rows.{shown, RowOk};
ghost use Rattle.sample.specs.Options.{to_rules, to_code};
ghost use Rattle.sample.specs.Ranks.{rank_of, rank_rows};
ghost use Rattle.sample.specs.Ways.{agrees, Computes};

use crate::numbers::PredNo;
use std::array;
use std::cmp::Ordering;

// A sample: its predicate, a mask of its known positions, and six values, 0 where unknown or unused.
// The mask stays beside the values, as the count of its ones decides singles.
#[repr(C)]
#[derive(Clone, Copy, PartialEq, Eq, Debug)]
pub struct Row {
    pub pred: PredNo,
    pub mask: u8,
    pub v: [i64; 6],
}

#[inline]
pub fn known(mask: u8, i: usize) -> bool
    requires { i < 8 }
    ensures { result ≡ bit mask i }
{
    (mask >> i) % 2 == 1
}

// At one position: an unknown one covers anything, a known one the same value.
#[inline]
pub fn covers_at(a: Option<i64>, b: Option<i64>) -> bool
    ensures { result ≡ rules.covers_at (to_rules a) (to_rules b) }
{
    match (a, b) {
        (None, _) => true,
        (Some(_), None) => false,
        (Some(x), Some(y)) => x == y,
    }
}

// At one position: one alone is known, or the two are equal. A `match` that asks for both at once takes more time.
#[inline]
pub fn overlaps_at(a: Option<i64>, b: Option<i64>) -> bool
    ensures { result ≡ rules.overlaps_at (to_rules a) (to_rules b) }
{
    a.xor(b).is_some() || a == b
}

impl Row {
    // Position i, if it is known.
    #[inline]
    fn position(self, i: usize) -> Option<i64>
        requires { i < 6 }
        ensures { result ≡ to_code (position (bit self.mask i) (slice_index_or self.v i (pos 0))) }
    {
        known(self.mask, i).then_some(self.v[i])
    }

    // The six positions, the unused ones unknown.
    #[inline]
    fn positions(self) -> [Option<i64>; 6]
        ensures { result ≡ map to_code (positions_from self.mask self.v 6 0) }
    {
        array::from_fn(|i| self.position(i))
    }

    // Of one predicate, and the test passes at each position.
    #[inline]
    fn agrees<F: Fn(Option<i64>, Option<i64>) -> bool>(self, b: Row, test: F) -> bool
        requires { F.IsAlwaysCallable test }
        ensures { (by : Position → Position → Bool) → Computes (F.post test) by → by (to_rules None) (to_rules None) ≡ true → (positions : ℕ → ℕ) → RowOk positions self → RowOk positions b → result ≡ agrees by (shown positions self) (shown positions b) }
    {
        self.pred == b.pred
            && (0..6).all(
                |i: usize|
                    requires { (i < 6) × F.IsAlwaysCallable test }
                { test(self.position(i), b.position(i)) },
            )
    }

    #[inline]
    pub fn covers(self, b: Row) -> bool
        ensures { (positions : ℕ → ℕ) → RowOk positions self → RowOk positions b → result ≡ covers (shown positions self) (shown positions b) }
    {
        self.agrees(b, covers_at)
    }

    #[inline]
    pub fn overlaps(self, b: Row) -> bool
        ensures { (positions : ℕ → ℕ) → RowOk positions self → RowOk positions b → result ≡ overlaps (shown positions self) (shown positions b) }
    {
        self.agrees(b, overlaps_at)
    }

    // The order of samples: by predicate, then position by position: unknown first, then rising value.
    // Not `Ord`: rows that differ only in values that no bit shows would compare equal.
    pub fn rank(self, b: Row) -> Ordering
        ensures rows { result ≡ rank_rows self b }
        ensures samples { (positions : ℕ → ℕ) → RowOk positions self → RowOk positions b → result ≡ rank_of (shown positions self) (shown positions b) }
    {
        (self.pred, self.positions()).cmp(&(b.pred, b.positions()))
    }

    // More than one position, and exactly one known: the count of ones of the mask decides.
    pub fn single(self, positions: usize) -> bool
        ensures { (of : ℕ → ℕ) → RowOk of self → positions ≡ of self.pred.0 → result ≡ single (shown of self) }
    {
        let several = 1 < positions;
        several && self.mask.count_ones() == 1
    }

    // No position is unknown. (A count of ones is a `u32`, of which there is no `usize::from`.)
    pub fn total(self, positions: usize) -> bool
        ensures { (of : ℕ → ℕ) → RowOk of self → positions ≡ of self.pred.0 → result ≡ total (shown of self) }
    {
        self.mask.count_ones() as usize == positions
    }
}
