//! The lines of the buffer, cut before anything is looked at in them.

use crate::bytes::{find_lf, read_behind};
use crate::raw::Raw;
use crate::reader::{Lines, MOST_BYTES};
use lean_io::{Failed, Hand};

impl<H: Hand> Lines<H> {
    ghost use Rattle.std.specs.Prelude.{◌≡◌, ◌+◌, ◌<◌, ◌≤◌, true, false, Some, [], length, take, drop, IfOk, OnOk, OnErr};
    ghost use Rattle.lean_io.specs.Told.{Files};
    ghost use Rattle.line_source.specs.Raw.{GivesRaw};
    ghost use Rattle.line_source.specs.Written.{has_no_lf};
    ghost use Rattle.line_source.specs.Reader.{hand_of, number_of, text_of, ahead_of, unread, ReadsOn};

    /// Takes what stands before the next LF, or before the file's end. `Failed`: a read failed.
    pub(crate) fn raw_line(&mut self) -> Result<Raw, Failed>
        requires { H.is_open (hand_of self.old) ≡ true }
        ensures gives { IfOk result (λ raw. (f : Files) → H.files (hand_of self.old) ≡ Some f
            → GivesRaw (unread H.rest self.old) (unread H.rest self.new) (text_of self.new) raw) }
        ensures reads_on { ReadsOn H.files H.is_open H.faults self.old self.new result }
    {
        match find_lf(&self.buffer[self.from..self.to]) {
            Some(place) => {
                self.cut(place);
                Ok(Raw::Line)
            }
            None => {
                self.move_to_front();
                self.read_line()
            }
        }
    }

    // Takes the line that ends at an LF, whose place is counted among the bytes ahead.
    fn cut(&mut self, place: usize)
        requires { place < length (ahead_of self.old) }
        ensures text { text_of self.new ≡ take place (ahead_of self.old) }
        ensures ahead { ahead_of self.new ≡ drop (place + 1) (ahead_of self.old) }
        ensures hand { hand_of self.new ≡ hand_of self.old }
        ensures number { number_of self.new ≡ number_of self.old }
    {
        self.start = self.from;
        self.end = self.from + place;
        self.from = self.end + 1;
    }

    // Moves the bytes ahead to the front of the buffer, where the text of the last line is lost.
    fn move_to_front(&mut self)
        ensures ahead { ahead_of self.new ≡ ahead_of self.old }
        ensures front { self.new.from ≡ 0 }
        ensures hand { hand_of self.new ≡ hand_of self.old }
        ensures number { number_of self.new ≡ number_of self.old }
    {
        self.start = 0;
        self.end = 0;
        if self.from > 0 {
            self.buffer.copy_within(self.from..self.to, 0);
            self.to -= self.from;
            self.from = 0;
        }
    }

    // Reads on to the next LF, where no LF is ahead yet and there is room behind what is.
    fn read_line(&mut self) -> Result<Raw, Failed>
        requires opened { H.is_open (hand_of self.old) ≡ true }
        requires front { self.old.from ≡ 0 }
        requires whole { has_no_lf (ahead_of self.old) ≡ true }
        ensures gives { IfOk result (λ raw. (f : Files) → H.files (hand_of self.old) ≡ Some f
            → GivesRaw (unread H.rest self.old) (unread H.rest self.new) (text_of self.new) raw) }
        ensures reads_on { ReadsOn H.files H.is_open H.faults self.old self.new result }
    {
        'reads: while self.to < MOST_BYTES {
            let known = self.to;
            match read_behind(&mut self.hand, &mut self.buffer, known) {
                Ok(0) => return Ok(self.last_line()),
                Ok(n) => {
                    self.to = known + n;
                    match find_lf(&self.buffer[known..self.to]) {
                        Some(place) => {
                            self.cut(known + place);
                            return Ok(Raw::Line);
                        }
                        None => {}
                    }
                }
                Err(Failed) => return Err(Failed),
            }
        }
        self.full_line()
    }

    // Takes all that is ahead, where the file has nothing more.
    fn last_line(&mut self) -> Raw
        requires { has_no_lf (ahead_of self.old) ≡ true }
        ensures gives { GivesRaw (ahead_of self.old) (ahead_of self.new) (text_of self.new) result }
        ensures hand { hand_of self.new ≡ hand_of self.old }
        ensures number { number_of self.new ≡ number_of self.old }
    {
        if self.from == self.to {
            return Raw::End;
        }
        self.take_ahead();
        Raw::Line
    }

    // Takes the buffer's bytes as a line, where they fill it and an LF or the file's end is next.
    fn full_line(&mut self) -> Result<Raw, Failed>
        requires opened { H.is_open (hand_of self.old) ≡ true }
        requires whole { has_no_lf (ahead_of self.old) ≡ true }
        requires front { self.old.from ≡ 0 }
        requires full { self.old.to ≡ 256 }
        ensures gives { IfOk result (λ raw. (f : Files) → H.files (hand_of self.old) ≡ Some f
            → GivesRaw (unread H.rest self.old) (unread H.rest self.new) (text_of self.new) raw) }
        ensures reads_on { ReadsOn H.files H.is_open H.faults self.old self.new result }
    {
        let mut next = [0; 1];
        match self.hand.read(&mut next) {
            Ok(n) => {
                if n > 0 && next[0] != b'\n' {
                    return Ok(Raw::Long);
                }
                self.take_ahead();
                Ok(Raw::Line)
            }
            Err(Failed) => Err(Failed),
        }
    }

    // Takes all that is ahead as a line.
    fn take_ahead(&mut self)
        ensures text { text_of self.new ≡ ahead_of self.old }
        ensures ahead { ahead_of self.new ≡ [] }
        ensures hand { hand_of self.new ≡ hand_of self.old }
        ensures number { number_of self.new ≡ number_of self.old }
    {
        self.start = self.from;
        self.end = self.to;
        self.from = self.to;
    }
}
