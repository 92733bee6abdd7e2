// The order: all sample numbers, those in use first, rising in the order of samples, the free ones after them.
// An array with a count, laid out as C lays it out: the free numbers stand in it too, and it takes fixed memory.
ghost use Rattle.std.specs.Prelude.{◌≤◌};

use arrayvec::ArrayVec;
use sample::SampleNo;
use words::Set;

#[repr(C)]
#[derive(Clone, Copy)]
pub struct Order {
    pub count: usize,
    pub numbers: [u8; 256],
    ghost few: { count ≤ 256 },
}

impl Order {
    ghost use Rattle.std.specs.Prelude.{◌≡◌, ℕ, ◌+◌, ◌≤◌, ◌<◌, length, get_or};
    ghost use Rattle.words.specs.Sets.{in_set};
    ghost use Rattle.sample.specs.Options.{to_rules};
    ghost use Rattle.pool.specs.Picks.{keep_if, first_of, Among};
    ghost use Rattle.pool.specs.Pools.{in_use, Within};
    ghost use Rattle.pool.specs.Answers.{first_no, opened, closed};

    // The numbers in use.
    #[inline]
    pub fn in_use(&self) -> &[u8]
        ensures { result.now ≡ in_use self.now.count self.now.numbers }
    {
        &self.numbers[..self.count]
    }

    // The least sample of a set.
    pub fn first_in(&self, set: Set) -> Option<SampleNo>
        ensures { first_no result ≡ first_of (in_set set) (in_use self.now.count self.now.numbers) }
    {
        if set.is_empty() {
            return None;
        }
        let first = self.in_use().iter().find(|k| set.has(**k))?;
        Some(SampleNo(*first))
    }

    // The numbers in use that pass the test, as a set. A loop, not `fold`: what the caller's test promises is told number by number.
    #[inline]
    pub fn select<F: Fn(SampleNo) -> bool>(&self, test: F) -> Set
        requires { F.IsAlwaysCallable test }
        ensures passed { (k : ℕ) → Among k (in_use self.now.count self.now.numbers) → F.post test (record { 0 = k }) (in_set result k) }
        ensures within { Within self.now.count self.now.numbers result }
    {
        let mut out = Set::empty();
        for k in self.in_use() {
            if test(SampleNo(*k)) {
                out = out.with(*k);
            }
        }
        out
    }

    // The first free number moves down to place `at`, and is in use; those from there on move up.
    pub fn open(&mut self, at: usize) -> SampleNo
        requires { (self.old.count < 256) × (at ≤ self.old.count) }
        ensures fresh { result.0 ≡ get_or self.old.numbers self.old.count 0 }
        ensures numbers { self.new.numbers ≡ opened self.old.count at self.old.numbers }
        ensures count { self.new.count ≡ self.old.count + 1 }
    {
        let fresh = SampleNo(self.numbers[self.count]);
        self.numbers[at..=self.count].rotate_right(1);
        self.count += 1;
        fresh
    }

    // The numbers in use that are in the set stay in use, in their order. The others join the free ones.
    pub fn close(&mut self, held: Set)
        ensures numbers { self.new.numbers ≡ closed self.old.count (in_set held) self.old.numbers }
        ensures count { self.new.count ≡ length (keep_if (in_set held) (in_use self.old.count self.old.numbers)) }
    {
        let mut leaving = ArrayVec::<u8, 256>::new();
        let mut kept = 0;
        for i in 0..self.count {
            let k = self.numbers[i];
            let stays = held.has(k);
            if stays {
                self.numbers[kept] = k;
                kept += 1;
            } else {
                leaving.push(k);
            }
        }
        self.numbers[kept..self.count].copy_from_slice(leaving.as_slice());
        self.count = kept;
    }
}
