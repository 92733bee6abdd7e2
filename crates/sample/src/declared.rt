// The declared predicates: how many positions each has, and which of them hold truth values.
ghost use Rattle.std.specs.Prelude.{◌≡◌, [], false, ℕ, pos, ◌^◌, ◌<◌, ◌≤◌, MatchOption};
ghost use Rattle.std.proofs.Math.Option.{none, some};
ghost use Rattle.rules.specs.Rows.{declared_as, mask_fits};
ghost use Rattle.sample.specs.Declarations.{declared_of, positions_of, signature_of, sorts_of, DeclaredOk};

use crate::numbers::PredNo;

// How many positions, and a bit for each that holds a truth value.
#[repr(C)]
#[derive(Clone, Copy, PartialEq, Eq, Debug)]
pub struct Signature {
    pub positions: u8,
    pub truths: u8,
}

impl Signature {
    // The mask, if it has no bit past the positions.
    pub(crate) fn mask(self, m: i64) -> Option<u8>
        requires { self.positions ≤ 6 }
        ensures { MatchOption result (mask_fits self.positions m ≡ false) (λ k. (m ≡ pos k) × (k < 2 ^ self.positions)) }
    {
        let m = u8::try_from(m).ok()?;
        (m < 1 << self.positions).then_some(m)
    }
}

// The first `count` predicates are declared. An array with a count: the store, which C is to be lent, keeps them in place.
#[repr(C)]
#[derive(Clone, Copy)]
pub struct Declared {
    pub count: usize,
    pub predicates: [Signature; 16],
}

impl Declared {
    pub fn none() -> Declared
        ensures { DeclaredOk result × (declared_of result ≡ []) }
    {
        let unused = Signature {
            positions: 0,
            truths: 0,
        };
        Declared {
            count: 0,
            predicates: [unused; 16],
        }
    }

    // The signature of a predicate number, if it is declared.
    pub(crate) fn signature(self, p: i64) -> Option<Signature>
        requires { self.count ≤ 16 }
        ensures { MatchOption result (declared_as p (declared_of self) ≡ none) (λ s. (q : ℕ) × (s ≡ signature_of self q) × (declared_as p (declared_of self) ≡ some (sorts_of self q))) }
    {
        let p = usize::try_from(p).ok()?;
        self.predicates[..self.count].get(p).copied()
    }

    pub fn positions_of(self, p: PredNo) -> usize
        requires { p.0 < 16 }
        ensures { result ≡ positions_of self p.0 }
    {
        usize::from(self.predicates[usize::from(p)].positions)
    }
}
