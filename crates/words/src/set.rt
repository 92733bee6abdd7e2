// The set: number k is bit k % 64 of word k / 64.
ghost use Rattle.std.specs.Prelude.{◌≡◌, Bool, ◌&&◌, ◌||◌, not, false, cond, ℕ, ◌<◌, eqb, slice_index};
ghost use Rattle.words.specs.Sets.{word_at, in_set, count_of, Holds, Emptiness};

use crate::word::{bit_in, both, either, less, one_bit, ones};
use std::array;

#[repr(C)]
#[derive(Clone, Copy, PartialEq, Eq)]
pub struct Set {
    pub words: [u64; 4],
}

impl Set {
    #[tactic(auto, unfolding(crate::specs::Sets::word_at), using(crate::proofs::FourWords::no_word))]
    #[inline]
    pub fn empty() -> Set
        ensures { Holds result (λ k. false) }
    {
        Set { words: [0; 4] }
    }

    #[tactic(auto, using(crate::proofs::FourWords::word_read))]
    #[inline]
    pub fn word(self, j: usize) -> u64
        requires { j < 4 }
        ensures { result ≡ word_at self j }
    {
        self.words[j]
    }

    // The set with x for its word j. Each word is chosen, since one that is written at a computed place is slow to read again.
    #[tactic(auto, unfolding(crate::specs::Sets::word_at), using(crate::proofs::FourWords::word_read))]
    #[inline]
    pub fn put(mut self, j: usize, x: u64) -> Set
        requires { j < 4 }
        ensures { (i : ℕ) → i < 4 → word_at result i ≡ cond (eqb i j) x (word_at self i) }
    {
        let words = self.words;
        self.words = array::from_fn(|i| if i == j { x } else { words[i] });
        self
    }

    #[inline]
    pub fn has(self, k: u8) -> bool
        ensures { result ≡ in_set self k }
    {
        bit_in(self.word(usize::from(k / 64)), k % 64)
    }

    // The set of k alone. Each word is chosen here too.
    #[inline]
    fn only(k: u8) -> Set
        ensures { Holds result (λ j. eqb j k) }
    {
        let bit = one_bit(k % 64);
        Set {
            words: array::from_fn(|j| if j == usize::from(k / 64) { bit } else { 0 }),
        }
    }

    #[inline]
    pub fn with(self, k: u8) -> Set
        ensures { Holds result (λ j. eqb j k || in_set self j) }
    {
        Set::only(k).join(self)
    }

    #[inline]
    pub fn without(self, k: u8) -> Set
        ensures { Holds result (λ j. not (eqb j k) && in_set self j) }
    {
        self.minus(Set::only(k))
    }

    // Each word of the set with the same word of the other, by f.
    #[inline]
    fn each_word<F: Fn(u64, u64) -> u64>(self, s: Set, f: F) -> Set
        requires { F.IsAlwaysCallable f }
        ensures { (j : ℕ) → j < 4 → F.post f (slice_index self.words j) (slice_index s.words j) (slice_index result.words j) }
    {
        Set {
            words: array::from_fn(|j| f(self.words[j], s.words[j])),
        }
    }

    #[inline]
    pub fn minus(self, s: Set) -> Set
        ensures { Holds result (λ k. in_set self k && not (in_set s k)) }
    {
        self.each_word(s, less)
    }

    #[inline]
    pub fn join(self, s: Set) -> Set
        ensures { Holds result (λ k. in_set self k || in_set s k) }
    {
        self.each_word(s, either)
    }

    #[inline]
    pub fn meet(self, s: Set) -> Set
        ensures { Holds result (λ k. in_set self k && in_set s k) }
    {
        self.each_word(s, both)
    }

    // One test of the four words together, not four comparisons: a draw asks it at every turn.
    #[tactic(auto, using(crate::proofs::FourWords::emptiness))]
    #[inline]
    pub fn is_empty(self) -> bool
        ensures { Emptiness self result }
    {
        let [a, b, c, d] = self.words;
        a | b | c | d == 0
    }

    pub fn count(self) -> usize
        ensures { result ≡ count_of (in_set self) 256 }
    {
        // A loop, not `sum`: that the sum stays small is told word by word.
        let mut n = 0;
        for w in &self.words {
            n += ones(*w);
        }
        n
    }
}
