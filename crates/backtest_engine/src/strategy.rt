ghost use Rattle.std.specs.Prelude.{◌≡◌, ◌≢◌, ℕ, ◌+◌, ◌^◌, ◌<◌, ◌≤◌, false, pos, List, [], ◌∷◌, ◌++◌, length, IfOk, IfSome, OnOk};
ghost use Rattle.std.specs.List.{All};
ghost use Rattle.lean_fixed.specs.Ranges.{IsMoment, IsPrintedMoment};
ghost use Rattle.lean_items.specs.declared.arrival.Arrival.{Arrival as Given};
ghost use Rattle.lean_items.specs.declared.feed_key.FeedKey.{FeedKey as Key};
ghost use Rattle.lean_orders.specs.declared.desk.Command.{Command as AskedOne};
ghost use Rattle.lean_orders.specs.declared.desk.Reply.{Reply as Answer};
ghost use Rattle.clock_book.specs.Books.{Book as ClockBook};
ghost use Rattle.clock_book.specs.Fitting.{IsFitting, submits, most_orders};
ghost use Rattle.clock_steps.specs.Runs.{rests};
ghost use Rattle.order_book.specs.Stands.{StandsFor};
ghost use Rattle.backtest_engine.specs.Meaning.{Meaning, State, moment_of};
ghost use Rattle.backtest_engine.specs.Turns.{Turn, HasNext, text_after, turn_after, IsFinished, IsNextClose, Arrives, Gives, Closes, most_of_moment};

use crate::changes::Changes;
use crate::limits::Stop;
use crate::phase::Phase;
use lean_fixed::{Moment, NoMemory};
use lean_items::{Arrival, FeedKey, FeedNo};
use lean_orders::{Command, Heard};
use order_book::Book;

/// What a backtest runs: it is given what ends at a moment, gives out the commands of the moment's phases, hears what is
/// replied to them, and keeps the lines of the moment.
///
/// A strategy has a meaning, which speaks of whole phases and of the book. Between moments it stands for a state of it. Within
/// a moment it plays a phase of which it gave out some commands and heard some replies, whatever these are: that they are the
/// book's is known at the end of a phase at the earliest.
pub trait Strategy {
    /// What its meaning keeps for itself.
    ghost Own: { Type 0 };

    /// Between moments: this state, and these keys wait for the numbers of their feeds.
    ghost stands: { Self → Meaning Own → State Own → List Key → Type 0 };

    /// Within a moment: of this phase these commands were given out and these replies were heard.
    ghost plays: { Self → Meaning Own → Turn Own → List AskedOne → List Answer → Type 0 };

    /// A slice that the strategy takes at a moment, in a state.
    ghost meets: { Meaning Own → ℕ → List Given → State Own → Type 0 };

    /// The lines of the moment so far.
    ghost text: { Self → List ℕ };

    /// No more commands than this are to come of the moment.
    ghost left: { Self → ℕ };

    /// No more orders than this are to come.
    ghost orders: { Self → ℕ };

    ghost few_orders: { (strategy : Self) → orders strategy ≤ most_orders };

    /// Behind a phase it plays the next one.
    ghost passes: { (strategy : Self) (m : Meaning Own) (turn : Turn Own) (cs : List AskedOne) (rs : List Answer)
        → plays strategy m turn cs rs → IsFinished m turn cs rs → HasNext turn.phase
        → plays strategy m (turn_after m turn) [] [] };

    /// Behind a phase it has the lines up to it.
    ghost says: { (strategy : Self) (m : Meaning Own) (turn : Turn Own) (cs : List AskedOne) (rs : List Answer)
        → plays strategy m turn cs rs → IsFinished m turn cs rs
        → text strategy ≡ text_after m turn };

    /// At a moment at which nothing ends and no session closes nothing happens.
    ghost idle: { (strategy : Self) (m : Meaning Own) (s : State Own) (t : ℕ)
        → stands strategy m s [] → meets m t [] s → m.is_close t ≡ false → moment_of m t [] s ≡ rests s };

    /// Tells the number of the feed of the first key that waits for one.
    fn named(&mut self, key: &FeedKey, feed: FeedNo) -> Result<(), NoMemory>
        ensures named { OnOk result ((m : Meaning Own) (s : State Own) (keys : List Key)
            → stands self.old m s (key.now ∷ keys) → feed.0 + (length keys + 1) ≡ m.added s.own
            → stands self.new m s keys) }
        ensures left { left self.new ≤ left self.old }
        ensures orders { orders self.new ≤ orders self.old };

    /// Takes what ends at a moment, and the lines of the moment begin.
    fn arrive(&mut self, at: Moment, slice: &[Arrival]) -> Result<(), Stop>
        requires { IsPrintedMoment at.0 }
        ensures arrives { (m : Meaning Own) (s : State Own) (t : ℕ)
            → stands self.old m s [] → meets m t slice.now s → at.0 ≡ pos t
            → Arrives m (plays self.new m) (text self.new) t slice.now s result }
        ensures left { left self.new ≤ most_of_moment }
        ensures orders { orders self.new ≤ orders self.old };

    /// Gives out the next command of a phase. `None`: the phase has no more.
    fn next_command(&mut self, phase: Phase) -> Result<Option<Command>, Stop>
        ensures gives { (m : Meaning Own) (turn : Turn Own) (cs : List AskedOne)
            → plays self.old m turn cs [] → turn.phase ≡ phase
            → Gives m (plays self.new m) turn cs result }
        ensures fitting { IfOk result (λ next. IfSome next (λ command. IsFitting command)) }
        ensures fewer { IfOk result (λ next. IfSome next (λ command.
            (left self.new + 1 ≤ left self.old) × (orders self.new + submits command ≤ orders self.old))) }
        ensures left { left self.new ≤ left self.old }
        ensures orders { orders self.new ≤ orders self.old };

    /// Hears a reply.
    fn hear(&mut self, heard: &Heard) -> Result<(), NoMemory>
        ensures heard { OnOk result ((m : Meaning Own) (turn : Turn Own) (cs : List AskedOne) (rs : List Answer)
            → plays self.old m turn cs rs
            → plays self.new m turn cs (rs ++ heard.now.reply ∷ [])) }
        ensures left { left self.new ≤ left self.old }
        ensures orders { orders self.new ≤ orders self.old };

    /// Closes the moment behind its last phase, and says which feeds are to be added and removed.
    fn close_moment(&mut self) -> Result<Changes, NoMemory>
        ensures closes { IfOk result (λ changes. (m : Meaning Own) (turn : Turn Own) (cs : List AskedOne) (rs : List Answer)
            → plays self.old m turn cs rs → IsFinished m turn cs rs → turn.phase ≡ Phase.Close
            → Closes m (stands self.new m) (text self.new) (turn_after m turn) changes.added.items changes.removed.items) }
        ensures starts { IfOk result (λ changes. All (λ key. IsMoment key.start.0) changes.added.items) }
        ensures few { IfOk result (λ changes. length changes.added.items ≤ most_of_moment) }
        ensures left { left self.new ≤ left self.old }
        ensures orders { orders self.new ≤ orders self.old };

    /// The lines of the moment so far.
    fn text(&self) -> &[u8]
        ensures { result.now ≡ text self.now };

    /// The next moment past `after`, and not past `until`, at which a session closes.
    fn next_close(&self, after: Moment, until: Moment) -> Option<Moment>
        ensures { (m : Meaning Own) (s : State Own) (t last : ℕ) → stands self.now m s []
            → after.0 ≡ pos t → until.0 ≡ pos last → IsNextClose m.is_close t last result };

    /// Appends what is printed behind the last moment.
    fn summary(&self, book: &Book, out: &mut Vec<u8>) -> Result<(), NoMemory>
        ensures { OnOk result ((m : Meaning Own) (s : State Own) → stands self.now m s []
            → StandsFor book.now s.book → out.new.items ≡ out.old.items ++ m.summary s) };
}
