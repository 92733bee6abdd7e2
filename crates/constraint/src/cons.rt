// A constraint by value: what it names, what it loses, and whether another is needless beside it.
ghost use Rattle.std.specs.Prelude.{◌≡◌, [], ◌||◌, ℕ, eqb};
ghost use Rattle.std.proofs.Math.Option.{none};
ghost use Rattle.words.specs.Sets.{in_set, Holds};
ghost use Rattle.constraint.specs.declared.cons.Cons.{Cons};
ghost use Rattle.constraint.specs.Numbered.{numbers_of, is_in, any_no, outside, right_is, right_outside, fate_no, says_no, needless_no, names_no};

use crate::left::Left;
use crate::loss::{Loss, Outcome, loss_of, remaining};
use sample::{SampleNo, Sign};
use words::Set;

// At most sixteen left samples, and the right one if there is one.
#[derive(Clone, Copy, PartialEq, Eq, Debug)]
pub struct Cons {
    pub left: Left,
    pub right: Option<SampleNo>,
}

impl Cons {
    pub fn free() -> Cons
        ensures { ((numbers_of result).left ≡ []) × ((numbers_of result).right ≡ none) }
    {
        Cons {
            left: Left::none(),
            right: None,
        }
    }

    // Whether a left sample is in the set.
    pub fn left_in(&self, set: Set) -> bool
        ensures { result ≡ any_no (in_set set) (numbers_of self.now).left }
    {
        self.left.samples().iter().any(|s| set.has(s.0))
    }

    // Whether the right sample is in the set.
    fn right_in(&self, set: Set) -> bool
        ensures { result ≡ right_is (in_set set) (numbers_of self.now).right }
    {
        self.right.is_some_and(|q| set.has(q.0))
    }

    // Whether it names a sample of the set.
    #[tactic(auto, unfolding(crate::specs::Numbered::names_no))]
    pub fn names(&self, set: Set) -> bool
        ensures { result ≡ names_no (in_set set) (numbers_of self.now) }
    {
        self.right_in(set) || self.left_in(set)
    }

    // The left samples as a set.
    pub fn left_set(&self) -> Set
        ensures { (k : ℕ) → in_set result k ≡ is_in k (numbers_of self.now).left }
    {
        self.left
            .samples()
            .iter()
            .fold(Set::empty(), |out, s| out.with(s.0))
    }

    // All its samples as a set.
    #[tactic(auto, unfolding(crate::specs::Numbered::numbers_of, crate::specs::Numbered::right_no, crate::specs::Numbered::right_is))]
    pub fn samples(&self) -> Set
        ensures { Holds result (λ k. right_is (eqb k) (numbers_of self.now).right || is_in k (numbers_of self.now).left) }
    {
        match self.right {
            Some(q) => self.left_set().with(q.0),
            None => self.left_set(),
        }
    }

    // Loses the samples of the set on both sides: what is left of it.
    pub fn without(mut self, set: Set) -> Cons
        ensures { ((numbers_of result).left ≡ outside (in_set set) (numbers_of self).left) × ((numbers_of result).right ≡ right_outside (in_set set) (numbers_of self).right) }
    {
        self.left = self.left.outside(set);
        self.right = self.right.filter(|s| !set.has(s.0));
        self
    }

    // Loses the samples of the set, which now have the sign g.
    // A loss that decides is on one side alone; on the left it is carried out from the first lost sample on, where the search for it ended.
    #[tactic(auto, unfolding(crate::specs::Numbered::says_no, crate::specs::Numbered::fate_no, crate::specs::Numbered::judged_no, crate::specs::Losses::loss_no), using(crate::proofs::Losing::remaining_touched))]
    pub fn loses(self, set: Set, g: Sign) -> Outcome
        ensures fate { says_no result ≡ fate_no (in_set set) g (numbers_of self) }
        ensures untouched { (c : Cons) → result ≡ Outcome.Untouched c → c ≡ self }
    {
        let right = self.right_in(set);
        let at = self.left.before(set);
        match loss_of(at < usize::from(self.left.count), right, g) {
            Loss::Nothing => Outcome::Untouched(self),
            Loss::Drops => Outcome::Dropped,
            Loss::Decides => {
                let mut rest = self;
                if right {
                    rest.right = None;
                } else {
                    rest.left = self.left.outside_from(at, set);
                }
                remaining(rest)
            }
        }
    }
}

// Whether d is needless beside c: the same right side, and d's left contains c's.
pub fn needless(c: &Cons, d: &Cons) -> bool
    ensures { result ≡ needless_no (numbers_of c.now) (numbers_of d.now) }
{
    c.right == d.right && c.left_set().minus(d.left_set()).is_empty()
}
