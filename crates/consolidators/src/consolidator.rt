ghost use Rattle.std.specs.Prelude.{◌≡◌, ◌≤ℤ◌, ℤ, true, List, [], ◌∷◌, ◌++◌, All};
ghost use Rattle.std.specs.Option.{ForSome, option_to_list};
ghost use Rattle.lean_items.specs.declared.bar.Bar.{Bar};
ghost use Rattle.lean_fixed.specs.Ranges.{IsMoment};
ghost use Rattle.consolidators.specs.Buckets.{given, not_given};
ghost use Rattle.consolidators.specs.Pushed.{IsPeriod, IsPushed, IsGiven, IsSoFar};

use crate::Given;
use crate::buckets::{joined, opened};
use crate::pushed::is_pushed;
use crate::turn::{Turn, after_bucket, of_bucket};
use lean_fixed::Moment;
use lean_items::Bar;

/// Makes bars of a longer period, after LEAN's trade bar consolidators.
#[derive(Drop)]
pub struct Consolidator {
    // minutes
    period: u32,
    // the bar of the bucket that holds bars and was not given
    held: Option<Bar>,
    // when the last bar that was pushed ended
    ended: Moment,
    ghost lasts: { IsPeriod period },
    ghost sound: { ForSome held (IsSoFar period ended.0) },
}

impl Consolidator {
    ghost use Rattle.consolidators.specs.Given.{given_bars};
    ghost use Rattle.consolidators.specs.Left.{Turns};
    ghost use Rattle.consolidators.specs.Stands.{StandsFor, EndsBy, period_of};

    /// A consolidator of bars of a period, from 1 to 1,440 minutes, to which no bar was pushed. Buckets begin at
    /// multiples of the period since 1970-01-01 00:00.
    pub fn new(period: u32) -> Consolidator
        requires { IsPeriod period }
        ensures period { period_of result ≡ period }
        ensures stands { StandsFor result [] }
        ensures ends { (moment : ℤ) → IsMoment moment → EndsBy moment result }
    {
        Consolidator {
            period,
            held: None,
            ended: Moment(i64::MIN),
        }
    }

    /// Whether a bar may be pushed next: its numbers are in their ranges, it ends after its start and within its bucket,
    /// and it starts no earlier than the bar before it ended.
    pub fn takes(&self, bar: &Bar) -> bool
        ensures yes { result ≡ true → IsPushed (period_of self.now) bar.now × EndsBy bar.now.start.0 self.now }
        ensures no { IsPushed (period_of self.now) bar.now → EndsBy bar.now.start.0 self.now → result ≡ true }
    {
        self.ended.0 <= bar.start.0 && is_pushed(self.period, bar)
    }

    /// Pushes the next bar, and answers the bars of the buckets that it completes: its own where it ends with it, and
    /// before that an earlier one. `Nothing` exactly where it completes none. The bar is one that it `takes`.
    pub fn push(&mut self, bar: &Bar) -> Given
        requires bar { IsPushed (period_of self.old) bar.now }
        requires follows { EndsBy bar.now.start.0 self.old }
        ensures period { period_of self.new ≡ period_of self.old }
        ensures given { (bars : List Bar) → StandsFor self.old bars
            → given_bars result ≡ given (period_of self.old) (bars ++ bar.now ∷ []) bar.now.end.0 }
        ensures stands { (bars : List Bar) → StandsFor self.old bars → StandsFor self.new (bars ++ bar.now ∷ []) }
        ensures ends { (moment : ℤ) → bar.now.end.0 ≤ℤ moment → EndsBy moment self.new }
        ensures ranges { All (IsGiven (period_of self.old)) (given_bars result) }
    {
        let Turn { given, held } = self.turn(bar);
        *self = Consolidator {
            period: self.period,
            held,
            ended: bar.end,
        };
        given
    }

    /// The bar of the bucket that holds bars and was not given. `None` exactly where there is none.
    pub fn rest(&self) -> Option<Bar>
        ensures rest { (bars : List Bar) → StandsFor self.now bars
            → option_to_list result ≡ not_given (period_of self.now) bars }
        ensures ranges { All (IsGiven (period_of self.now)) (option_to_list result) }
    {
        self.held
    }

    // What a bar gives, and what is held after it.
    fn turn(&self, bar: &Bar) -> Turn
        requires bar { IsPushed self.now.period bar.now }
        requires follows { EndsBy bar.now.start.0 self.now }
        ensures turns { (bars : List Bar) → StandsFor self.now bars
            → Turns self.now.period bars bar.now (given_bars result.given) (option_to_list result.held) }
        ensures given { All (IsGiven self.now.period) (given_bars result.given) }
        ensures held { ForSome result.held (IsSoFar self.now.period bar.now.end.0) }
    {
        match self.held {
            None => of_bucket(opened(self.period, bar), bar.end),
            Some(held) => {
                if held.end.0 <= bar.start.0 {
                    after_bucket(held, opened(self.period, bar), bar.end)
                } else {
                    of_bucket(joined(&held, bar), bar.end)
                }
            }
        }
    }
}
