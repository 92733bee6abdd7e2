// Every question about covering: does a sample of a set cover s; which samples does s cover; a sample that waits, or is drawn.
// A total sample covers itself alone, so only partial ones are asked. And the samples of a predicate.
use crate::pool::Pool;
use sample::{PredNo, SampleNo};
use words::Set;

// A drawn sample that is kept: the kept set after it, and all that it covers.
#[repr(C)]
#[derive(Clone, Copy)]
pub struct Kept {
    pub set: Set,
    pub below: Set,
}

impl Pool {
    ghost use Rattle.std.specs.Prelude.{◌≡◌};
    ghost use Rattle.pool.specs.Answers.{CoversNo, CoveredIn, IsBelow, WaitsIn, KeepsIn, NamingIn, ForgetsIn};

    #[inline]
    fn covers(&self, a: SampleNo, b: SampleNo) -> bool
        ensures { CoversNo self.now a.0 b.0 result }
    {
        self.row(a).covers(self.row(b))
    }

    // Whether a sample of the set covers s.
    pub fn covered_in(&self, set: Set, s: SampleNo) -> bool
        ensures { CoveredIn self.now set s.0 result }
    {
        if set.has(s.0) {
            return true;
        }
        let asked = set.meet(self.partial);
        !asked.is_empty()
            && self
                .order
                .in_use()
                .iter()
                .any(|k| asked.has(*k) && self.covers(SampleNo(*k), s))
    }

    // The samples that s covers.
    pub fn below(&self, s: SampleNo) -> Set
        ensures { IsBelow self.now s.0 result }
    {
        if !self.partial.has(s.0) {
            return Set::empty().with(s.0);
        }
        self.order.select(|k| self.covers(s, k))
    }

    // If a kept one covers it, it is gone. Else kept ones that it covers go, and it is kept.
    pub fn keeps(&self, kept: Set, s: SampleNo) -> Option<Kept>
        ensures { KeepsIn self.now kept s.0 result }
    {
        if self.covered_in(kept, s) {
            return None;
        }
        let below = self.below(s);
        let others = kept.minus(below);
        Some(Kept {
            set: others.with(s.0),
            below,
        })
    }

    // A sample that waits joins the waiting ones as a drawn one joins the kept ones. One that a waiting one covers is not new.
    pub fn waits(&self, waiting: Set, s: SampleNo) -> Option<Set>
        ensures { WaitsIn self.now waiting s.0 result }
    {
        self.keeps(waiting, s).map(|joined| joined.set)
    }

    // The samples of predicate p.
    pub fn naming(&self, p: PredNo) -> Set
        ensures { NamingIn self.now p.0 result }
    {
        self.order.select(|k| self.row(k).pred == p)
    }

    // A set without the samples of predicate p.
    pub fn forgets(&self, set: Set, p: PredNo) -> Set
        ensures { ForgetsIn self.now set p.0 result }
    {
        set.minus(self.naming(p))
    }
}
