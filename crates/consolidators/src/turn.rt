ghost use Rattle.std.specs.Prelude.{◌≡◌, ℕ, [], ◌∷◌, All, if◌then◌else◌};
ghost use Rattle.std.specs.Option.{ForSome, option_to_list};
ghost use Rattle.std.specs.Ordering.{int_eq};
ghost use Rattle.lean_items.specs.declared.bar.Bar.{Bar};
ghost use Rattle.consolidators.specs.Given.{given_bars};
ghost use Rattle.consolidators.specs.Pushed.{IsPeriod, IsGiven, IsSoFar};

use crate::Given;
use lean_fixed::Moment;
use lean_items::Bar;

// What a bar gives, and the bar of the bucket that is open after it.
pub(crate) struct Turn {
    pub(crate) given: Given,
    pub(crate) held: Option<Bar>,
}

// A bucket's bar so far is given where the last bar ended with the bucket, and is held otherwise.
#[tactic(auto, using(crate::proofs::SoFar::so_far_given))]
pub(crate) fn of_bucket(so_far: Bar, ended: Moment) -> Turn
    ensures given { given_bars result.given ≡ (if int_eq so_far.end.0 ended.0 then so_far ∷ [] else []) }
    ensures held { option_to_list result.held ≡ (if int_eq so_far.end.0 ended.0 then [] else so_far ∷ []) }
    ensures ranges { (period : ℕ) → IsPeriod period → IsSoFar period ended.0 so_far
        → All (IsGiven period) (given_bars result.given) }
    ensures sound { (period : ℕ) → IsSoFar period ended.0 so_far → ForSome result.held (IsSoFar period ended.0) }
{
    if so_far.end.0 == ended.0 {
        Turn {
            given: Given::One(so_far),
            held: None,
        }
    } else {
        Turn {
            given: Given::Nothing,
            held: Some(so_far),
        }
    }
}

// The same after the bar of an earlier bucket, which is given first.
#[tactic(auto, using(crate::proofs::SoFar::so_far_given))]
pub(crate) fn after_bucket(earlier: Bar, so_far: Bar, ended: Moment) -> Turn
    ensures given { given_bars result.given ≡ earlier ∷ (if int_eq so_far.end.0 ended.0 then so_far ∷ [] else []) }
    ensures held { option_to_list result.held ≡ (if int_eq so_far.end.0 ended.0 then [] else so_far ∷ []) }
    ensures ranges { (period : ℕ) → IsPeriod period → IsGiven period earlier → IsSoFar period ended.0 so_far
        → All (IsGiven period) (given_bars result.given) }
    ensures sound { (period : ℕ) → IsSoFar period ended.0 so_far → ForSome result.held (IsSoFar period ended.0) }
{
    if so_far.end.0 == ended.0 {
        Turn {
            given: Given::Two(earlier, so_far),
            held: None,
        }
    } else {
        Turn {
            given: Given::One(earlier),
            held: Some(so_far),
        }
    }
}
