// One word: 64 bits.
ghost use Rattle.std.specs.Prelude.{◌≡◌, ◌<◌, eqb, ◌&&◌, ◌||◌, not};
ghost use Rattle.rules.specs.Rows.{bit};
ghost use Rattle.words.specs.Sets.{Bits, count_of};

#[inline]
pub fn bit_in(x: u64, i: u8) -> bool
    requires { i < 64 }
    ensures { result ≡ bit x i }
{
    (x >> i) % 2 == 1
}

#[inline]
pub fn one_bit(i: u8) -> u64
    requires { i < 64 }
    ensures { Bits result (λ j. eqb j i) }
{
    1 << i
}

// The bits of x that are not in y.
#[tactic(auto, using(crate::proofs::Bits::bits_less))]
#[inline]
pub fn less(x: u64, y: u64) -> u64
    ensures { Bits result (λ i. bit x i && not (bit y i)) }
{
    x & !y
}

#[tactic(auto, using(crate::proofs::Bits::bit_or_by_bit))]
#[inline]
pub fn either(x: u64, y: u64) -> u64
    ensures { Bits result (λ i. bit x i || bit y i) }
{
    x | y
}

#[tactic(auto, using(crate::proofs::Bits::bit_and_by_bit))]
#[inline]
pub fn both(x: u64, y: u64) -> u64
    ensures { Bits result (λ i. bit x i && bit y i) }
{
    x & y
}

// The cast stays: there is no `usize::from` of a `u32`, and a `try_from` would need an answer for a case that never comes.
#[inline]
pub fn ones(x: u64) -> usize
    ensures { result ≡ count_of (bit x) 64 }
{
    x.count_ones() as usize
}
