ghost use Rattle.std.specs.Prelude.{◌≡◌, pos, ◌-◌, ◌≤ℤ◌};
ghost use Rattle.lean_fixed.specs.Calendar.{last_day};

use exchange_hours::Hours;
use feed_workers::{Running, Seat};
use lean_fixed::Window;
use lean_items::Feed;
use std::sync::Arc;

/// The feeds of a pool by their numbers, and the workers that read them. A feed that was removed, and whose hand was given back,
/// leaves its place empty.
#[derive(Drop)]
pub struct Crew<G: Feed + Drop + 'static, R> {
    pub(crate) rt: R,
    pub(crate) seats: Vec<Option<Seat<G>>>,
    pub(crate) workers: Vec<Running<G>>,
    // The numbers of feeds that were removed and whose turns may still be out.
    pub(crate) leaving: Vec<usize>,
    // How many feeds were added and not removed.
    pub(crate) present: usize,
    pub(crate) window: Window,
    pub(crate) hours: Arc<Hours>,
    ghost first_from: { pos 1 ≤ℤ window.first.0 },
    ghost first_to: { window.first.0 ≤ℤ pos (last_day - 1) },
    ghost last_from: { pos 1 ≤ℤ window.last.0 },
    ghost last_to: { window.last.0 ≤ℤ pos (last_day - 1) },
}
