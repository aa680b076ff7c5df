//! The rows of coarse universe files.

use crate::bars::moment_at;
use crate::course::Course;
use crate::judged::{Judged, judge};
use crate::steps::MOST_ROWS;
use coarse_csv::laws::coarse_row_is_valid;
use coarse_csv::read_coarse;
use lean_fixed::ranges::MINUTES_PER_DAY;
use lean_items::{CoarseRow, Item, Reason};

impl Course {
    ghost use Rattle.std.specs.Prelude.{◌≡◌, ℕ, ◌+◌, ◌<◌, true, List, ◌∷◌, Option, Some};
    ghost use Rattle.lean_fixed.specs.Moments.{midnight, last_moment};
    ghost use Rattle.lean_io.specs.Told.{Files};
    ghost use Rattle.lean_items.specs.Coarse.{IsCoarse};
    ghost use Rattle.lean_items.specs.declared.feed_key.FeedKind.TheVariants.{Coarse};
    ghost use Rattle.lean_items.specs.declared.item.Item.{Item};
    ghost use Rattle.line_source.specs.Lines.{FileLine, TextLine};
    ghost use Rattle.row_feed.specs.Judged.{judged, coarse_given};
    ghost use Rattle.row_feed.specs.Course.{LeavesCoarse, SameFile};
    ghost use Rattle.row_feed.specs.Steps.{StepGives, StepIsOfKind, OnStepFaulted, StepWithin, at_after, step_fits};

    /// What the text of a line of a coarse file gives.
    pub(crate) fn read_coarse(&mut self, number: u32, text: &[u8]) -> Option<Item>
        requires kind { self.old.key.kind ≡ Coarse }
        ensures gives { (f : Files) (left : List (ℕ × FileLine)) (list : List Item)
            → LeavesCoarse f self.old true ((number, TextLine text.now) ∷ left) list
            → StepGives (LeavesCoarse f self.new true left) list result }
        ensures fits { step_fits self.old.at.0 result ≡ true }
        ensures within { StepWithin (last_moment self.old.window) result }
        ensures at { self.new.at.0 ≡ at_after self.old.at.0 result }
        ensures kind { StepIsOfKind self.old.key.kind result }
        ensures faultless { OnStepFaulted result ⊥ }
        ensures same { SameFile self.old self.new }
    {
        coarse_row_is_valid();
        if self.count >= MOST_ROWS {
            return Some(self.bad(number, Reason::Many));
        }
        self.count += 1;
        match read_coarse(text) {
            Ok(said) => match said {
                Some(row) => self.give_coarse(row),
                None => None,
            },
            Err(reason) => Some(self.bad(number, reason)),
        }
    }

    // The moment from which on the rows of the open file are known, 00:00 of the next date.
    fn known_from(&self) -> u64
        ensures { result ≡ midnight (self.now.file + 1) }
    {
        MINUTES_PER_DAY as u64 * (self.file as u64 + 1)
    }

    // Gives a row, where it is kept, or ends where it is past the window.
    fn give_coarse(&mut self, row: CoarseRow) -> Option<Item>
        requires kind { self.old.key.kind ≡ Coarse }
        requires row { IsCoarse row }
        ensures value { result ≡ coarse_given row (judged self.old.key.start.0 (last_moment self.old.window) (λ _. true)
            (Some (midnight (self.old.file + 1)))) }
        ensures fits { step_fits self.old.at.0 result ≡ true }
        ensures within { StepWithin (last_moment self.old.window) result }
        ensures at { self.new.at.0 ≡ at_after self.old.at.0 result }
        ensures kind { StepIsOfKind self.old.key.kind result }
        ensures faultless { OnStepFaulted result ⊥ }
        ensures count { self.new.count ≡ self.old.count }
        ensures same { SameFile self.old self.new }
    {
        match judge(self.key.start, self.last(), self.known_from(), true) {
            Judged::Kept(end) => {
                self.at = moment_at(end);
                Some(Item::Coarse(self.at, row))
            }
            Judged::PassedOver => None,
            Judged::PastWindow => Some(Item::End),
        }
    }
}
