ghost use Rattle.std.specs.Prelude.{◌≡◌, ◌≤◌, ◌≤ℤ◌, ◌<ℤ◌, pos, false};
ghost use Rattle.lean_fixed.specs.Calendar.{last_day};
ghost use Rattle.row_feed.specs.Reach.{reach_of};

use crate::span::Span;
use exchange_hours::Hours;
use lean_fixed::{Moment, Window};
use lean_items::FeedKey;
use std::sync::Arc;

/// What a feed was made with, and how far it has come, apart from what is read of the open file.
#[derive(Drop)]
pub struct Course {
    pub(crate) key: FeedKey,
    pub(crate) window: Window,
    pub(crate) hours: Arc<Hours>,
    // the number of the last file that was looked for, once `begun`
    pub(crate) begun: bool,
    pub(crate) file: u32,
    // the session of the day of the open file
    pub(crate) session: Option<Span>,
    // a row of bars follows the one before it where it starts at this moment or later; the rows of a later minute file do
    pub(crate) from: u64,
    // how many lines of the open coarse file were taken that are not blank
    pub(crate) count: u32,
    // the end of the last row that was given
    pub(crate) at: Moment,
    ghost day: { file ≤ last_day },
    ghost first_file: { begun ≡ false → file ≡ 0 },
    ghost first: { pos 0 ≤ℤ window.last.0 },
    ghost last: { window.last.0 ≤ℤ pos last_day },
    ghost reached: { key.start.0 <ℤ at.0 → at.0 ≤ℤ pos (reach_of key.kind from file) },
}
