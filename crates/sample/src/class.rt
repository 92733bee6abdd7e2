// The first row of two lent lists that covers a row of seven numbers, as a part of the caller's list.
ghost use Rattle.std.specs.Prelude.{◌≡◌, ℕ, ◌+◌, ◌*◌, ◌≤◌, ◌<◌, pos, length, take, drop, get_or};
ghost use Rattle.rules.specs.Samples.{covers_all};
ghost use Rattle.rules.specs.Rows.{bit, position};
ghost use Rattle.rules.specs.Classifying.{low_bits, shown_positions, first_covering, whole_rows, class_part};
ghost use Rattle.rules.specs.Classifying as rules;
ghost use Rattle.sample.specs.Options.{to_rules, to_code};
ghost use Rattle.sample.specs.Classes.{place_at, class_start};

use crate::row::covers_at;

// Position i of a row of seven, known by bit i of the mask in its 64-bit form. The mask is signed, so `row::known` does not do.
pub fn position(mask: i64, i: usize, v: i64) -> Option<i64>
    requires { i < 64 }
    ensures { (n : ℕ) → i < n → result ≡ to_code (position (bit (low_bits n mask) i) v) }
{
    ((mask >> i) % 2 != 0).then_some(v)
}

// Whether one row of seven covers the other, by the first positions.
pub fn row_covers(listed: &[i64], row: &[i64], positions: usize) -> bool
    requires { (length listed.now ≡ 7) × (length row.now ≡ 7) × (positions ≤ 6) }
    ensures { result ≡ covers_all (shown_positions positions listed.now) (shown_positions positions row.now) }
{
    (0..positions).all(|i| {
        covers_at(
            position(listed[0], i, listed[1 + i]),
            position(row[0], i, row[1 + i]),
        )
    })
}

// The number of the first row of a list that covers the row.
pub fn first_covering(list: &[i64], row: &[i64], positions: usize) -> Option<usize>
    requires { (length row.now ≡ 7) × (positions ≤ 6) }
    ensures { to_rules result ≡ first_covering positions row.now 0 (whole_rows list.now) }
{
    list.chunks_exact(7)
        .position(|listed| row_covers(listed, row, positions))
}

// The row of seven of a number, as a part of the caller's list.
pub fn row_at<'a>(list: &'a [i64], k: usize) -> &'a [i64]
    requires { k * 7 + 7 ≤ length list.now }
    ensures contents { result.now ≡ take 7 (drop (k * 7) list.now) }
    ensures start { result.ref_ptr ≡ place_at (k * 7) list.entry.ref_ptr }
{
    &list[k * 7..k * 7 + 7]
}

// The part holds the numbers that the rules name, and starts where they stand in the caller's list: that tells the sign.
pub fn classify<'a>(
    positives: &'a [i64],
    negatives: &'a [i64],
    row: &[i64],
    positions: usize,
) -> &'a [i64]
    ensures contents { result.now ≡ class_part (rules.classify positives.now negatives.now row.now positions) positives.now negatives.now }
    ensures start { result.ref_ptr ≡ class_start (rules.classify positives.now negatives.now row.now positions) positives.entry.ref_ptr negatives.entry.ref_ptr }
{
    if row.len() != 7 || 6 < positions {
        return &positives[..0];
    }
    if let Some(i) = first_covering(positives, row, positions) {
        return row_at(positives, i);
    }
    match first_covering(negatives, row, positions) {
        Some(j) => row_at(negatives, j),
        None => &positives[..0],
    }
}
