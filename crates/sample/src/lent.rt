// Rows in lent lists: the tests of a row in their order, a row read from eight numbers, and one written as seven.
ghost use Rattle.std.specs.Prelude.{◌≡◌, true, ℕ, ◌+◌, ◌^◌, ◌≤◌, ◌<◌, pos, length, get_or};
ghost use Rattle.std.proofs.Math.Option.{some};
ghost use Rattle.std.specs.Int.Signed.{non_neg};
ghost use Rattle.rules.specs.Rows.{row_of, value_fits, values_fit, row_refusal};
ghost use Rattle.sample.specs.Declarations.{sort_by, sorts_from, declared_of, DeclaredOk};
ghost use Rattle.sample.specs.Tests.{refusal_of, ReadsRow, written_at};

use crate::declared::Declared;
use crate::numbers::PredNo;
use crate::row::{Row, known};

// Why a row is refused, in the order of the tests.
#[derive(Clone, Copy, PartialEq, Eq, Debug)]
pub enum RowError {
    Undeclared,
    BadMask,
    BadValue,
}

// A known position holds a value of its sort, an unknown or unused one holds 0.
// The value stands beside `known`, not in an Option, since it is tested where it is unknown too.
pub fn value_fits(known: bool, truth: bool, v: i64) -> bool
    ensures { result ≡ value_fits (some (sort_by truth)) known v }
{
    match (known, truth) {
        (false, _) => v == 0,
        (true, false) => true,
        (true, true) => v == 0 || v == 1,
    }
}

pub fn values_fit(row: &[i64; 8], mask: u8, truths: u8) -> bool
    ensures { (n : ℕ) → n ≤ 6 → mask < 2 ^ n → result ≡ values_fit (sorts_from truths n 0) mask (row_of row.now).values 6 0 }
{
    (0..6).all(|i| value_fits(known(mask, i), known(truths, i), row[2 + i]))
}

// A row of eight numbers: declared, then its mask, then its values.
pub fn row_test(d: Declared, row: &[i64; 8]) -> Result<(), RowError>
    requires { DeclaredOk d }
    ensures { refusal_of result ≡ row_refusal (declared_of d) (row_of row.now) }
{
    let predicate = d.signature(row[0]).ok_or(RowError::Undeclared)?;
    let mask = predicate.mask(row[1]).ok_or(RowError::BadMask)?;
    if !values_fit(row, mask, predicate.truths) {
        return Err(RowError::BadValue);
    }
    Ok(())
}

// Of a row that passed `row_test`: the remainders cut nothing off, and a `try_from` would need an answer for a case that never comes.
pub fn row_from(row: &[i64; 8]) -> Row
    requires { (non_neg (get_or row.now 0 (pos 0)) ≡ true) × (non_neg (get_or row.now 1 (pos 0)) ≡ true) }
    ensures { ReadsRow row.now result }
{
    let [p, mask, a, b, c, d, e, f] = *row;
    Row {
        pred: PredNo((p % 16) as u8),
        mask: (mask % 64) as u8,
        v: [a, b, c, d, e, f],
    }
}

// Mask and six values. A list and a place, not an array of seven: every other number of the list stays as it was.
// One by one: for so few a `copy_from_slice` takes longer.
pub fn row_into(r: Row, out: &mut [i64], at: usize)
    requires { at + 7 ≤ length out.old }
    ensures { out.new ≡ written_at r at out.old }
{
    let [a, b, c, d, e, f] = r.v;
    out[at] = i64::from(r.mask);
    out[at + 1] = a;
    out[at + 2] = b;
    out[at + 3] = c;
    out[at + 4] = d;
    out[at + 5] = e;
    out[at + 6] = f;
}
