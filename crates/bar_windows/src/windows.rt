ghost use Rattle.std.specs.Prelude.{◌≡◌, ◌<◌, List, [], ◌∷◌, ◌++◌, length, slice_get, Some, All, IfOk, IfSome};
ghost use Rattle.lean_fixed.specs.Ranges.{IsPrice};
ghost use Rattle.lean_fixed.specs.declared.money.Price.{Price};
ghost use Rattle.bar_windows.specs.Window.{window};

use crate::WindowSpec;
use crate::all::{hear_all, longest, windows_of};
use crate::closes::Closes;
use crate::window::Window;
use lean_fixed::{NoMemory, Price};
use std::alloc::Global;
use std::marker::Model;

/// Windows over the closes of one security.
#[derive(Drop)]
pub struct Windows {
    // as many of the last closes as the longest window looks at
    closes: Closes,
    windows: Vec<Window>,
}

impl Model for Windows {
    ghost use Rattle.std.specs.Prelude.{map};
    ghost use Rattle.bar_windows.specs.Recent.{Recent, AreHeard, spec_of};

    ghost Value = { Recent };

    ghost view = { λ w. record {
      specs = map spec_of w.windows.items;
      most = w.closes.capacity;
      closes = w.closes.items;
    } };

    ghost invariant = { λ w. AreHeard w.closes w.windows.items };
}

impl Windows {
    ghost use Rattle.bar_windows.specs.Kept.{IsLength};
    ghost use Rattle.bar_windows.specs.Recent.{StandsFor};

    /// Windows of these specifications, each of a length from 1 to 1,000, that have heard no close. All memory is taken
    /// here.
    pub fn new(alloc: Global, specs: &[WindowSpec]) -> Result<Windows, NoMemory>
        requires { All (λ spec. IsLength spec.length) specs.now }
        ensures specs { IfOk result (λ windows. windows.specs ≡ specs.now) }
        ensures stands { IfOk result (λ windows. StandsFor windows []) }
    {
        let windows = windows_of(alloc, specs)?;
        let closes = Closes::new(alloc, longest(specs))?;
        Ok(Windows { closes, windows })
    }

    /// Hears the next close, from 1 to 10,000,000,000. It takes no memory, and a fixed few steps for each window on
    /// average, whatever the lengths.
    pub fn push(&mut self, close: Price)
        requires { IsPrice close.0 }
        ensures specs { self.new.specs ≡ self.old.specs }
        ensures stands { (closes : List Price) → StandsFor self.old closes
            → StandsFor self.new (closes ++ close ∷ []) }
    {
        hear_all(&mut self.windows, &self.closes, close);
        self.closes.push(close);
    }

    /// How many windows there are.
    pub fn len(&self) -> usize
        ensures { result ≡ length self.now.specs }
    {
        self.windows.len()
    }

    /// The specification of the window at an index.
    pub fn spec(&self, index: usize) -> WindowSpec
        requires { index < length self.now.specs }
        ensures { slice_get self.now.specs index ≡ Some result }
    {
        self.windows[index].spec
    }

    /// The value of the window at an index, in 1/10000 dollar. `None` exactly where there are too few closes: fewer than
    /// its length, or for a change no more than that.
    pub fn value(&self, index: usize) -> Option<i64>
        requires { index < length self.now.specs }
        ensures { (closes : List Price) → StandsFor self.now closes
            → IfSome (slice_get self.now.specs index) (λ spec. result ≡ window spec.func spec.length closes) }
    {
        self.windows[index].value(&self.closes)
    }
}
