//! Calls on all windows of a security.

ghost use Rattle.std.specs.Prelude.{◌≡◌, ◌≤◌, [], ◌∷◌, ◌++◌, map, All, IfOk};
ghost use Rattle.lean_fixed.specs.Ranges.{IsPrice};
ghost use Rattle.bar_windows.specs.Kept.{IsLength, Heard, reach_of};
ghost use Rattle.bar_windows.specs.Recent.{spec_of};

use crate::closes::Closes;
use crate::window::Window;
use crate::{Func, WindowSpec};
use lean_fixed::{NoMemory, Price};
use std::alloc::Global;

pub(crate) fn windows_of(alloc: Global, specs: &[WindowSpec]) -> Result<Vec<Window>, NoMemory>
    requires { All (λ spec. IsLength spec.length) specs.now }
    ensures specs { IfOk result (λ windows. map spec_of windows.items ≡ specs.now) }
    ensures heard { IfOk result (λ windows. All (Heard []) windows.items) }
{
    let mut windows = Vec::with_capacity(alloc, specs.len())?;
    for spec in specs {
        windows.push(Window::new(alloc, *spec)?)?;
    }
    Ok(windows)
}

// How many closes the longest window looks at.
pub(crate) fn longest(specs: &[WindowSpec]) -> usize
    requires { All (λ spec. IsLength spec.length) specs.now }
    ensures { All (λ spec. reach_of spec ≤ result) specs.now }
{
    let mut most = 0;
    for spec in specs {
        most = most.max(reach(spec));
    }
    most
}

fn reach(spec: &WindowSpec) -> usize
    requires { IsLength spec.now.length }
    ensures { result ≡ reach_of spec.now }
{
    match spec.func {
        Func::Change => spec.length as usize + 1,
        _ => spec.length as usize,
    }
}

pub(crate) fn hear_all(windows: &mut Vec<Window>, closes: &Closes, close: Price)
    requires heard { All (Heard closes.now.items) windows.old.items }
    requires price { IsPrice close.0 }
    ensures specs { map spec_of windows.new.items ≡ map spec_of windows.old.items }
    ensures heard { All (Heard (closes.now.items ++ close ∷ [])) windows.new.items }
{
    for i in 0..windows.len() {
        let window = &mut windows[i];
        window.hear(closes, close);
    }
}
