//! What a line of the open file gives, and which file is next.

use crate::course::Course;
use crate::span::session_on;
use exchange_hours::Hours;
use feed_paths::next_file;
use lean_fixed::{Moment, Window};
use lean_items::{Bad, FeedKey, FeedKind, Item, Reason};
use std::sync::Arc;

/// The most rows of a coarse file.
pub(crate) const MOST_ROWS: u32 = 20_000;

impl Course {
    ghost use Rattle.std.specs.Prelude.{◌≡◌, ℕ, ◌<◌, ◌≤◌, Bool, true, false, List, [], ◌∷◌, Option, Some, None, IfSome, IfNone, if◌then◌else◌, option_map};
    ghost use Rattle.std.specs.Arc.{arc_value};
    ghost use Rattle.lean_fixed.specs.Calendar.{last_day};
    ghost use Rattle.lean_fixed.specs.Moments.{last_moment};
    ghost use Rattle.lean_fixed.specs.Ranges.{IsWindow};
    ghost use Rattle.lean_io.specs.Told.{Files};
    ghost use Rattle.lean_items.specs.declared.item.Item.{Item};
    ghost use Rattle.lean_items.specs.declared.item.Item.TheVariants.{End};
    ghost use Rattle.line_source.specs.Lines.{FileLine, TextLine, LongLine, ManyLine, lines};
    ghost use Rattle.feed_paths.specs.Paths.{path};
    ghost use Rattle.clock_feeds.specs.Feeds.{rows};
    ghost use Rattle.row_feed.specs.Reach.{after_of};
    ghost use Rattle.row_feed.specs.Course.{hours_of, files_room, CourseLeaves, HoldsSession, SameFeed, SameFile};
    ghost use Rattle.row_feed.specs.Steps.{StepGives, IsBad, bad_item, long_reason, StepIsOfKind, OnStepFaulted, at_after, step_fits, StepWithin};

    /// The course of a feed that has given nothing yet.
    pub fn new(key: FeedKey, window: Window, hours: Arc<Hours>) -> Course
        requires { IsWindow window }
        ensures leaves { (f : Files) (lines : List (ℕ × FileLine))
            → CourseLeaves f result false lines (rows f (arc_value hours) window key) }
        ensures key { result.key ≡ key }
        ensures window { result.window ≡ window }
        ensures hours { hours_of result ≡ arc_value hours }
        ensures at { result.at ≡ key.start }
    {
        let start = key.start;
        Course {
            key,
            window,
            hours,
            begun: false,
            file: 0,
            session: None,
            from: 0,
            count: 0,
            at: start,
        }
    }

    /// The hours of the exchange.
    pub fn hours(&self) -> &Hours
        ensures { result.now ≡ hours_of self.now }
    {
        &self.hours
    }

    /// Goes to the next file, and gives its number. `None`: there is no further file.
    pub fn next_file(&mut self) -> Option<u32>
        ensures none { IfNone result ((f : Files) (lines : List (ℕ × FileLine)) (list : List Item)
            → CourseLeaves f self.old false lines list → list ≡ End ∷ []) }
        ensures some { IfSome result (λ n. (f : Files) (before : List (ℕ × FileLine)) (list : List Item)
            → CourseLeaves f self.old false before list
            → (found : Bool) (left : List (ℕ × FileLine))
            → option_map lines (f (path self.old.key n)) ≡ (if found then Some left else None)
            → CourseLeaves f self.new found left list) }
        ensures day { IfSome result (λ n. n ≤ last_day) }
        ensures fewer { IfSome result (λ n. files_room self.new < files_room self.old) }
        ensures room { files_room self.new ≤ files_room self.old }
        ensures same { SameFeed self.old self.new }
        ensures at { self.new.at ≡ self.old.at }
    {
        match next_file(self.key, self.window, self.hours(), self.after()) {
            Some(file) => {
                self.begin(file);
                Some(file)
            }
            None => None,
        }
    }

    // The file behind which the next one is looked for.
    fn after(&self) -> Option<u32>
        ensures { result ≡ after_of self.now.begun self.now.file }
    {
        if self.begun { Some(self.file) } else { None }
    }

    // Goes to a file.
    fn begin(&mut self, file: u32)
        requires day { file ≤ last_day }
        requires later { self.old.file ≤ file }
        ensures begun { self.new.begun ≡ true }
        ensures file { self.new.file ≡ file }
        ensures session { HoldsSession self.new }
        ensures count { self.new.count ≡ 0 }
        ensures from { self.new.from ≡ self.old.from }
        ensures same { SameFeed self.old self.new }
        ensures at { self.new.at ≡ self.old.at }
    {
        self.begun = true;
        self.file = file;
        self.session = session_on(self.hours(), file);
        self.count = 0;
    }

    /// What a line that is not blank gives by its text: an item, or nothing where its row is not kept.
    pub fn read_text(&mut self, number: u32, text: &[u8]) -> Option<Item>
        ensures gives { (f : Files) (left : List (ℕ × FileLine)) (list : List Item)
            → CourseLeaves f self.old true ((number, TextLine text.now) ∷ left) list
            → StepGives (CourseLeaves f self.new true left) list result }
        ensures fits { step_fits self.old.at.0 result ≡ true }
        ensures within { StepWithin (last_moment self.old.window) result }
        ensures at { self.new.at.0 ≡ at_after self.old.at.0 result }
        ensures kind { StepIsOfKind self.old.key.kind result }
        ensures faultless { OnStepFaulted result ⊥ }
        ensures same { SameFile self.old self.new }
    {
        match self.key.kind {
            FeedKind::Coarse => self.read_coarse(number, text),
            FeedKind::Equity(_, resolution) => self.read_bar(resolution, number, text),
        }
    }

    /// What a line that is too long gives: in a coarse file it may be one row too many before that.
    pub fn read_long(&self, number: u32) -> Item
        ensures gives { (f : Files) (more : List (ℕ × FileLine)) (list : List Item)
            → CourseLeaves f self.now true ((number, LongLine) ∷ more) list → list ≡ result ∷ [] }
        ensures bad { IsBad result }
    {
        self.bad(number, self.long_reason())
    }

    fn long_reason(&self) -> Reason
        ensures { result ≡ long_reason self.now.key.kind self.now.count }
    {
        match self.key.kind {
            FeedKind::Coarse => {
                if self.count < MOST_ROWS {
                    Reason::Long
                } else {
                    Reason::Many
                }
            }
            FeedKind::Equity(_, _) => Reason::Long,
        }
    }

    /// What a line gives that is one too many.
    pub fn read_many(&self, number: u32) -> Item
        ensures gives { (f : Files) (more : List (ℕ × FileLine)) (list : List Item)
            → CourseLeaves f self.now true ((number, ManyLine) ∷ more) list → list ≡ result ∷ [] }
        ensures bad { IsBad result }
    {
        self.bad(number, Reason::Many)
    }

    /// A malformed line of the open file. It ends the feed, and stays out of the way of the rows.
    #[cold]
    #[inline(never)]
    pub(crate) fn bad(&self, number: u32, reason: Reason) -> Item
        ensures { result ≡ bad_item self.now.file number reason }
    {
        Item::Bad(Bad {
            file: self.file,
            line: number,
            reason,
        })
    }
}
