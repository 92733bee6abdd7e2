// What a loss of samples does to a constraint, by the sides that it is on and by what is left.
ghost use Rattle.std.specs.Prelude.{◌≡◌};
ghost use Rattle.constraint.specs.Numbered.{numbers_of, remaining_no, says_no};
ghost use Rattle.constraint.specs.Losses.{loss_no};

use crate::cons::Cons;
use sample::{SampleNo, Sign};

// What becomes of a constraint that loses samples.
#[derive(Clone, Copy, PartialEq, Eq, Debug)]
pub enum Outcome {
    Untouched(Cons),
    Stays(Cons),
    Dropped,
    Waits(Sign, SampleNo),
    Contradiction,
}

// By the sides that a loss is on: it changes nothing, it drops the constraint, or what is left decides.
// The three cases that document 01 tells apart before it looks at what is left (`loss_no`).
#[derive(Clone, Copy, PartialEq, Eq, Debug)]
pub enum Loss {
    Nothing,
    Drops,
    Decides,
}

#[tactic(auto, unfolding(crate::specs::Losses::loss_no))]
pub fn loss_of(left: bool, right: bool, g: Sign) -> Loss
    ensures { result ≡ loss_no left right g }
{
    match (left, right, g) {
        (false, false, _) => Loss::Nothing,
        (true, false, Sign::Positive) | (false, true, Sign::Negative) => Loss::Decides,
        _ => Loss::Drops,
    }
}

// What becomes of a constraint that has lost samples, by what is left.
#[tactic(auto, unfolding(crate::specs::Numbered::numbers_of, crate::specs::Numbered::remaining_no, crate::specs::Numbered::says_no, crate::specs::Numbered::plain, crate::specs::Numbered::right_no), using(crate::proofs::Losing::several_remain))]
pub fn remaining(rest: Cons) -> Outcome
    ensures { says_no result ≡ remaining_no (numbers_of rest).left (numbers_of rest).right }
{
    match (rest.left.samples(), rest.right) {
        ([], None) => Outcome::Contradiction,
        ([], Some(q)) => Outcome::Waits(Sign::Positive, q),
        ([s], None) => Outcome::Waits(Sign::Negative, *s),
        _ => Outcome::Stays(rest),
    }
}
