//! The calls of a feed of rows.
ghost use Rattle.std.specs.Prelude.{◌≡◌};
ghost use Rattle.lean_items.specs.Given.{is_last};

use crate::course::Course;
use crate::feed::RowFeed;
use crate::path::{MOST_BYTES, write_path};
use crate::reader::Reader;
use crate::refused::Refused;
use exchange_hours::Hours;
use lean_fixed::Window;
use lean_io::{Failed, Hand};
use lean_items::{FeedKey, Item};
use line_source::Line;
use std::alloc::Global;
use std::sync::Arc;

impl<H: Hand> RowFeed<H> {
    ghost use Rattle.std.specs.Prelude.{◌≡◌, ◌<◌, ◌≤◌, ◌≤ℤ◌, pos, true, false, List, Option, Some, None, IfOk, IfErr};
    ghost use Rattle.std.specs.Arc.{arc_value};
    ghost use Rattle.lean_fixed.specs.Moments.{last_moment};
    ghost use Rattle.lean_fixed.specs.Ranges.{IsWindow};
    ghost use Rattle.lean_io.specs.Told.{Files, Rose};
    ghost use Rattle.lean_items.specs.declared.item.Item.{Item};
    ghost use Rattle.lean_items.specs.Given.{is_last, OnRow, OnFaulted, GivesItem};
    ghost use Rattle.lean_items.specs.Fits.{fits, end_or};
    ghost use Rattle.clock_feeds.specs.Feeds.{rows};
    ghost use Rattle.row_feed.specs.Steps.{StepGives, OnStepFaulted};
    ghost use Rattle.row_feed.specs.Feed.{hand_of, key_of, window_of, hours_of, has_ended, at_of, room_of, is_open, Leaves, Keeps, Goes, IsOfKind};
    ghost use Rattle.row_feed.specs.Reading.{StepReads, Reads};

    /// The feed of a key over a window and the hours of the exchange. It takes all the memory that it needs. `Refused`: there
    /// is no memory for it.
    pub fn new(
        alloc: Global,
        hand: H,
        key: FeedKey,
        window: Window,
        hours: Arc<Hours>,
    ) -> Result<RowFeed<H>, Refused<H>>
        requires window { IsWindow window }
        ensures leaves { IfOk result (λ feed. (f : Files) → H.files hand ≡ Some f
            → Leaves H.files H.rest H.is_open feed (rows f (arc_value hours) window key)) }
        ensures hand { IfOk result (λ feed. hand_of feed ≡ hand) }
        ensures key { IfOk result (λ feed. key_of feed ≡ key) }
        ensures window { IfOk result (λ feed. window_of feed ≡ window) }
        ensures hours { IfOk result (λ feed. hours_of feed ≡ arc_value hours) }
        ensures at { IfOk result (λ feed. at_of feed ≡ key.start.0) }
        ensures open { IfOk result (λ feed. has_ended feed ≡ false) }
        ensures refused { IfErr result (λ refused. refused.hand ≡ hand) }
    {
        match String::with_capacity(alloc, MOST_BYTES) {
            Ok(path) => Ok(RowFeed {
                reader: Reader::new(hand),
                course: Course::new(key, window, hours),
                path,
                ended: false,
            }),
            Err(_) => Err(Refused { hand }),
        }
    }

    /// Gives the next kept row, or the last item: the malformed line at which the feed ends, or its end. `Faulted`: a read
    /// failed, and the count of the hand's faults rose in this call, or stands at its last value. It takes no memory.
    ///
    /// Of a file no line is taken behind its first malformed line, or its first row that ends past the window.
    #[inline(always)]
    pub fn next(&mut self) -> Item
        requires open { has_ended self.old ≡ false }
        ensures gives { (list : List Item) → Leaves H.files H.rest H.is_open self.old list
            → GivesItem (Leaves H.files H.rest H.is_open self.new) list result }
        ensures ended { has_ended self.new ≡ is_last result }
        ensures fits { fits (at_of self.old) result ≡ true }
        ensures at { at_of self.new ≡ end_or (at_of self.old) result }
        ensures within { OnRow result (at_of self.new ≤ℤ pos (last_moment (window_of self.old))) }
        ensures kind { IsOfKind (key_of self.old).kind result }
        ensures fewer { OnRow result (room_of self.new < room_of self.old) }
        ensures rose { OnFaulted result (Rose (H.faults (hand_of self.old)) (H.faults (hand_of self.new))) }
        ensures grows { H.faults (hand_of self.old) ≤ H.faults (hand_of self.new) }
        ensures files { H.files (hand_of self.new) ≡ H.files (hand_of self.old) }
        ensures kept { Keeps self.old self.new }
        ensures reads { Reads H.files H.rest H.is_open self.old self.new result }
    {
        'steps: loop {
            match self.step() {
                Some(item) => {
                    self.ended = is_last(&item);
                    return item;
                }
                None => {}
            }
        }
    }

    // Takes the next line of the open file, or opens the next file.
    fn step(&mut self) -> Option<Item>
        ensures gives { (list : List Item) → Leaves H.files H.rest H.is_open self.old list
            → StepGives (Leaves H.files H.rest H.is_open self.new) list result }
        ensures goes { Goes H.files H.faults self.old self.new result }
        ensures rose { OnStepFaulted result (Rose (H.faults (hand_of self.old)) (H.faults (hand_of self.new))) }
        ensures reads { StepReads H.files H.rest H.is_open self.old self.new result }
    {
        if self.reader.is_open() {
            self.read_line()
        } else {
            self.open_next()
        }
    }

    // Takes the next line of the open file.
    fn read_line(&mut self) -> Option<Item>
        requires { is_open self.old ≡ true }
        ensures gives { (list : List Item) → Leaves H.files H.rest H.is_open self.old list
            → StepGives (Leaves H.files H.rest H.is_open self.new) list result }
        ensures goes { Goes H.files H.faults self.old self.new result }
        ensures rose { OnStepFaulted result (Rose (H.faults (hand_of self.old)) (H.faults (hand_of self.new))) }
        ensures reads { StepReads H.files H.rest H.is_open self.old self.new result }
    {
        match self.reader.next() {
            Line::Text => self
                .course
                .read_text(self.reader.number(), self.reader.text()),
            Line::Long => Some(self.course.read_long(self.reader.number())),
            Line::Many => Some(self.course.read_many(self.reader.number())),
            Line::End => None,
            Line::Faulted => Some(Item::Faulted),
        }
    }

    // Opens the next file.
    fn open_next(&mut self) -> Option<Item>
        requires { is_open self.old ≡ false }
        ensures gives { (list : List Item) → Leaves H.files H.rest H.is_open self.old list
            → StepGives (Leaves H.files H.rest H.is_open self.new) list result }
        ensures goes { Goes H.files H.faults self.old self.new result }
        ensures rose { OnStepFaulted result (Rose (H.faults (hand_of self.old)) (H.faults (hand_of self.new))) }
        ensures reads { StepReads H.files H.rest H.is_open self.old self.new result }
    {
        match self.course.next_file() {
            Some(file) => {
                let key = self.course.key;
                write_path(&key, file, &mut self.path);
                match self.reader.open(self.path.as_str()) {
                    Ok(_) => None,
                    Err(Failed) => Some(Item::Faulted),
                }
            }
            None => Some(Item::End),
        }
    }

    /// The key of the feed.
    pub fn key(&self) -> FeedKey
        ensures { result ≡ key_of self.now }
    {
        self.course.key
    }

    /// The window of the feed.
    pub fn window(&self) -> Window
        ensures { result ≡ window_of self.now }
    {
        self.course.window
    }

    /// The hours of the feed.
    pub fn hours(&self) -> &Hours
        ensures { result.now ≡ hours_of self.now }
    {
        self.course.hours()
    }

    /// The hand, whatever is open.
    pub fn into_hand(self) -> H
        ensures { result ≡ hand_of self }
    {
        self.reader.into_hand()
    }
}

// Whether nothing comes behind an item.
fn is_last(item: &Item) -> bool
    ensures { result ≡ is_last item.now }
{
    match item {
        Item::Bar(_) | Item::Coarse(_, _) => false,
        Item::Bad(_) | Item::Faulted | Item::End => true,
    }
}
