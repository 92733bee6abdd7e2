// The left samples of a constraint: at most sixteen.
// An array with a count, laid out as C lays it out: it takes no heap, and so a constraint is copied as it stands.
ghost use Rattle.std.specs.Prelude.{◌≤◌};

use sample::SampleNo;
use std::fmt;
use words::Set;

// The first `count` of `numbers`. The places behind them are free: what lies there says nothing.
#[repr(C)]
#[derive(Clone, Copy)]
pub struct Left {
    pub count: u8,
    pub numbers: [SampleNo; 16],
    ghost few: { count ≤ 16 },
}

impl Left {
    ghost use Rattle.std.specs.Prelude.{◌≡◌, ◌≤◌, [], false, take, nat_lt};
    ghost use Rattle.words.specs.Sets.{in_set};
    ghost use Rattle.constraint.specs.Numbered.{samples_of, plain, any_no, outside};

    pub fn none() -> Left
        ensures { samples_of result ≡ [] }
    {
        Left {
            count: 0,
            numbers: [SampleNo(0); 16],
        }
    }

    #[inline]
    pub fn samples(&self) -> &[SampleNo]
        ensures { result.now ≡ samples_of self.now }
    {
        &self.numbers[..usize::from(self.count)]
    }

    // Those that are not in the set, in their order.
    #[tactic(auto, unfolding(crate::specs::Numbered::plain, crate::specs::Numbered::any_no))]
    pub fn outside(self, set: Set) -> Left
        ensures { plain (samples_of result) ≡ outside (in_set set) (plain (samples_of self)) }
    {
        self.outside_from(0, set)
    }

    // How many stand before the first that is in the set: all, where none is.
    pub(crate) fn before(&self, set: Set) -> usize
        ensures few { result ≤ self.now.count }
        ensures free { any_no (in_set set) (plain (take result (samples_of self.now))) ≡ false }
        ensures found { nat_lt result self.now.count ≡ any_no (in_set set) (plain (samples_of self.now)) }
    {
        for (i, s) in self.samples().iter().enumerate() {
            if set.has(s.0) {
                return i;
            }
        }
        usize::from(self.count)
    }

    // Those that are not in the set, where the first `at` are none of it: these stay, and each of the others is read once.
    pub(crate) fn outside_from(self, at: usize, set: Set) -> Left
        requires few { at ≤ self.count }
        requires free { any_no (in_set set) (plain (take at (samples_of self))) ≡ false }
        ensures { plain (samples_of result) ≡ outside (in_set set) (plain (samples_of self)) }
    {
        let samples = self.samples();
        let mut numbers = self.numbers;
        let mut kept = at;
        for i in at..samples.len() {
            let s = samples[i];
            if !set.has(s.0) {
                numbers[kept] = s;
                kept += 1;
            }
        }
        Left {
            count: kept as u8,
            numbers,
        }
    }
}

impl PartialEq for Left {
    ghost use Rattle.std.specs.Prelude.{◌==◌};
    ghost use Rattle.std.specs.Ordering.{on};
    ghost use lib.Pointwise.{pointwise};
    ghost use Rattle.std.proofs.Common.{rules};
    ghost use Rattle.std.specs.Cmp.Rules.{comparing};
    ghost use Rattle.constraint.specs.Numbered.{samples_of};

    ghost eq = { on (λ l. samples_of l) (pointwise (on (λ s. s.0) ◌==◌)) };

    ghost laws = { Prim.search (comparing, rules) };

    fn eq(&self, other: &Left) -> bool {
        self.samples() == other.samples()
    }
}

impl Eq for Left {
    ghost use Rattle.std.proofs.Common.{rules};
    ghost use Rattle.std.specs.Cmp.Rules.{comparing};

    ghost laws = { Prim.search (comparing, rules) };
}

// Written as the list that it is, without the free places.
impl fmt::Debug for Left {
    fn fmt<W: fmt::Write>(&self, f: &mut fmt::Formatter<W>) -> fmt::Result {
        f.debug_list().entries(self.samples()).finish()
    }
}
