// Predicate, sample and constraint numbers, kept apart by type; the two signs.
// The three types, and their conversions, are alike on purpose: a number of one kind is not to be used for another.
ghost use Rattle.std.specs.Prelude.{◌≡◌};
ghost use Rattle.sample.specs.Signs.{sign_no};

// Ordered, since the order of samples begins with it. The order of the other numbers means nothing.
#[repr(C)]
#[derive(Clone, Copy, PartialEq, Eq, PartialOrd, Ord, Debug)]
pub struct PredNo(pub u8);

// `Default`, as a list of fixed capacity asks of what it holds.
#[repr(C)]
#[derive(Clone, Copy, Default, PartialEq, Eq, Debug)]
pub struct SampleNo(pub u8);

#[repr(C)]
#[derive(Clone, Copy, PartialEq, Eq, Debug)]
pub struct ConsNo(pub u8);

#[derive(Clone, Copy, PartialEq, Eq, Debug)]
pub enum Sign {
    Positive,
    Negative,
}

// A number as a place in an array.
impl From<PredNo> for usize {
    ghost from_gives = { λ p place. place ≡ p.0 };

    fn from(p: PredNo) -> usize {
        usize::from(p.0)
    }
}

impl From<SampleNo> for usize {
    ghost from_gives = { λ s place. place ≡ s.0 };

    fn from(s: SampleNo) -> usize {
        usize::from(s.0)
    }
}

impl From<ConsNo> for usize {
    ghost from_gives = { λ c place. place ≡ c.0 };

    fn from(c: ConsNo) -> usize {
        usize::from(c.0)
    }
}

// The place of a sign's set beside the other's. The cast is the variant's number; there is no other way to it but a `match`.
impl From<Sign> for usize {
    ghost from_gives = { λ g place. place ≡ sign_no g };

    fn from(g: Sign) -> usize {
        g as usize
    }
}
