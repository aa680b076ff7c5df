ghost use Rattle.std.specs.Prelude.{◌≡◌, ◌-◌, length, slice_get};
ghost use Rattle.std.specs.Option.{option_copied};
ghost use Rattle.consolidators.specs.Given.{given_bars};

use lean_items::Bar;

/// The bars that a consolidator gives when a bar is pushed.
#[derive(Clone, Copy)]
pub enum Given {
    /// No bucket is complete.
    Nothing,
    /// The bucket of the bar, or an earlier one.
    One(Bar),
    /// An earlier bucket, and then the bucket of the bar.
    Two(Bar, Bar),
}

impl Given {
    /// The last of the bars. `None` exactly where there is none.
    pub fn last(&self) -> Option<&Bar>
        ensures { option_copied result ≡ slice_get (given_bars self.now) (length (given_bars self.now) - 1) }
    {
        match self {
            Given::Nothing => None,
            Given::One(bar) => Some(bar),
            Given::Two(_, bar) => Some(bar),
        }
    }
}
