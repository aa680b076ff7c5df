use crate::again::{again, grid_of, next_end};
use crate::ahead::Ahead;
use crate::filled_feed::FilledFeed;
use clock_feeds::laws::{kept_bars_are_sound, plain_feeds};
use exchange_hours::laws::sessions_lie;
use lean_fixed::{Moment, Resolution};
use lean_io::Hand;
use lean_items::{Bar, Feed, Item};
use row_feed::RowFeed;

impl<H: Hand> FilledFeed<H> {
    ghost use Rattle.std.specs.Prelude.{◌≡◌, ℤ, ◌≤ℤ◌, ◌<ℤ◌, neg_ℤ, pos, false, List, Option, Some, None, IfSome};
    ghost use Rattle.lean_io.specs.Told.{Files};
    ghost use Rattle.lean_items.specs.declared.item.Item.{Item};
    ghost use Rattle.lean_items.specs.Given.{OnFaulted, GivesItem};
    ghost use Rattle.lean_fixed.specs.Ranges.{IsMoment, IsWindow};
    ghost use Rattle.clock_feeds.specs.Feeds.{rows as row_list, feed as feed_list};
    ghost use Rattle.row_feed.specs.Feed.{hand_of, key_of, window_of, hours_of, has_ended, at_of, Leaves};
    ghost use Rattle.fill_forward.specs.declared.ahead.Ahead.TheVariants.{Nothing, Row, Over};
    ghost use Rattle.fill_forward.specs.Again.{grid_of, IsAgain};
    ghost use Rattle.fill_forward.specs.Feed.{rows_of, ahead_of, last_of, given_to, filling, is_done, LeavesFilled, LeavesItems, Goes, ReadsBehind};

    /// The feed of some rows, of which none was given yet.
    pub fn new(rows: RowFeed<H>) -> FilledFeed<H>
        requires open { has_ended rows ≡ false }
        requires start { at_of rows ≡ (key_of rows).start.0 }
        requires key { IsMoment (key_of rows).start.0 }
        requires window { IsWindow (window_of rows) }
        ensures leaves { (f : Files) → Leaves H.files H.rest H.is_open rows
            (row_list f (hours_of rows) (window_of rows) (key_of rows))
            → LeavesItems H.files H.rest H.is_open result
            (feed_list f (hours_of rows) (window_of rows) (key_of rows)) }
        ensures open { is_done result ≡ false }
        ensures rows { rows_of result ≡ rows }
    {
        sessions_lie(rows.hours());
        kept_bars_are_sound();
        plain_feeds();
        let at = rows.key().start;
        let until = rows.window().last_moment();
        FilledFeed {
            rows,
            ahead: Ahead::Nothing,
            last: None,
            at,
            until,
        }
    }

    /// The hand, whatever was given.
    pub fn into_hand(self) -> H
        ensures { result ≡ hand_of (rows_of self) }
    {
        self.rows.into_hand()
    }

    // Gives the next item of a feed that fills.
    fn next_filled(&mut self, resolution: Resolution) -> Item
        requires open { is_done self.old ≡ false }
        requires grid { grid_of (key_of (rows_of self.old)) ≡ Some resolution }
        ensures gives { (list : List Item) → LeavesFilled H.files H.rest H.is_open self.old resolution list
            → GivesItem (LeavesFilled H.files H.rest H.is_open self.new resolution) list result }
        ensures goes { Goes H.faults self.old self.new result }
        ensures reads { ReadsBehind H.files H.rest H.is_open (ahead_of self.old) (rows_of self.old) (rows_of self.new) }
    {
        match self.ahead {
            Ahead::Row(row) => self.next_by_row(resolution, row),
            Ahead::Over => self.next_by_end(resolution),
            Ahead::Nothing => self.read_on(resolution),
        }
    }

    // Reads the next row, and gives what stands before it.
    fn read_on(&mut self, resolution: Resolution) -> Item
        requires open { has_ended (rows_of self.old) ≡ false }
        requires nothing { ahead_of self.old ≡ Nothing }
        requires grid { grid_of (key_of (rows_of self.old)) ≡ Some resolution }
        ensures gives { (list : List Item) → LeavesFilled H.files H.rest H.is_open self.old resolution list
            → GivesItem (LeavesFilled H.files H.rest H.is_open self.new resolution) list result }
        ensures goes { Goes H.faults self.old self.new result }
        ensures reads { ReadsBehind H.files H.rest H.is_open (ahead_of self.old) (rows_of self.old) (rows_of self.new) }
    {
        match self.rows.next() {
            Item::Bar(row) => {
                self.ahead = Ahead::Row(row);
                self.next_by_row(resolution, row)
            }
            Item::End => {
                self.ahead = Ahead::Over;
                self.next_by_end(resolution)
            }
            Item::Bad(bad) => Item::Bad(bad),
            Item::Faulted => Item::Faulted,
            Item::Coarse(_, _) => unreachable!(),
        }
    }

    // Gives the next bar that is filled before a row, or else the row.
    fn next_by_row(&mut self, resolution: Resolution, row: Bar) -> Item
        requires ahead { ahead_of self.old ≡ Row row }
        requires grid { grid_of (key_of (rows_of self.old)) ≡ Some resolution }
        ensures gives { (list : List Item) → LeavesFilled H.files H.rest H.is_open self.old resolution list
            → GivesItem (LeavesFilled H.files H.rest H.is_open self.new resolution) list result }
        ensures goes { Goes H.faults self.old self.new result }
        ensures faultless { OnFaulted result ⊥ }
        ensures rows { rows_of self.new ≡ rows_of self.old }
    {
        match self.filled_before(resolution, row.end) {
            Some(bar) => {
                self.at = bar.end;
                Item::Bar(bar)
            }
            None => {
                self.ahead = Ahead::Nothing;
                self.last = Some(row);
                self.at = row.end;
                Item::Bar(row)
            }
        }
    }

    // Gives the next bar that is filled up to the end of the window, or else the end.
    fn next_by_end(&mut self, resolution: Resolution) -> Item
        requires over { ahead_of self.old ≡ Over }
        requires grid { grid_of (key_of (rows_of self.old)) ≡ Some resolution }
        ensures gives { (list : List Item) → LeavesFilled H.files H.rest H.is_open self.old resolution list
            → GivesItem (LeavesFilled H.files H.rest H.is_open self.new resolution) list result }
        ensures goes { Goes H.faults self.old self.new result }
        ensures faultless { OnFaulted result ⊥ }
        ensures rows { rows_of self.new ≡ rows_of self.old }
    {
        match self.filled_before(resolution, Moment(self.until.0 + 1)) {
            Some(bar) => {
                self.at = bar.end;
                Item::Bar(bar)
            }
            None => {
                self.ahead = Ahead::Nothing;
                Item::End
            }
        }
    }

    // The bar at the first grid end behind the last bar and before a moment, where a row was given.
    fn filled_before(&self, resolution: Resolution, before: Moment) -> Option<Bar>
        requires low { neg_ℤ (pos 10000) ≤ℤ before.0 }
        requires high { before.0 ≤ℤ pos 121000001 }
        ensures again { IsAgain (filling self.now resolution) (last_of self.now) (given_to self.now) before.0 result }
        ensures between { IfSome result (λ bar. (given_to self.now <ℤ bar.end.0) × (bar.end.0 <ℤ before.0)) }
    {
        match self.last {
            Some(row) => match next_end(self.rows.hours(), resolution, self.at, before) {
                Some(end) => Some(again(&row, resolution, end)),
                None => None,
            },
            None => None,
        }
    }
}

impl<H: Hand> Feed for FilledFeed<H> {
    ghost use Rattle.std.specs.Prelude.{◌≡◌, ◌<◌, ◌≤◌, false, List};
    ghost use Rattle.lean_fixed.specs.Counts.{Rose};
    ghost use Rattle.lean_items.specs.declared.item.Item.{Item};
    ghost use Rattle.lean_items.specs.Given.{is_last, OnRow, OnFaulted, GivesItem};
    ghost use Rattle.row_feed.specs.Feed.{hand_of};
    ghost use Rattle.fill_forward.specs.Feed.{is_done, room, rows_of, ahead_of, LeavesItems, ReadsBehind};
    ghost use Rattle.fill_forward.specs.Few.{few_left};

    ghost leaves = { λ feed list. LeavesItems H.files H.rest H.is_open feed list };

    ghost has_ended = { λ feed. is_done feed };

    ghost room = { λ feed. room feed };

    ghost faults = { λ feed. H.faults (hand_of (rows_of feed)) };

    ghost few = { λ feed. few_left feed };

    /// It reads by one call of its rows where nothing was read ahead, and else no further.
    fn next(&mut self) -> Item
        requires { is_done self.old ≡ false }
        ensures gives { (list : List Item) → LeavesItems H.files H.rest H.is_open self.old list
            → GivesItem (LeavesItems H.files H.rest H.is_open self.new) list result }
        ensures fewer { OnRow result (room self.new < room self.old) }
        ensures ended { is_done self.new ≡ is_last result }
        ensures grows { H.faults (hand_of (rows_of self.old)) ≤ H.faults (hand_of (rows_of self.new)) }
        ensures rose { OnFaulted result
            (Rose (H.faults (hand_of (rows_of self.old))) (H.faults (hand_of (rows_of self.new)))) }
        ensures reads { ReadsBehind H.files H.rest H.is_open (ahead_of self.old) (rows_of self.old) (rows_of self.new) }
    {
        match grid_of(&self.rows.key()) {
            Some(resolution) => self.next_filled(resolution),
            None => self.rows.next(),
        }
    }
}
