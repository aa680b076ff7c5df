//! A phase of a moment: all commands are submitted, and then all replies are heard.
ghost use Rattle.std.specs.Prelude.{◌≡◌, ℕ, ◌+◌, ◌^◌, ◌≤◌, ◌⊎◌, true, false, List, [], ◌∷◌, ◌++◌, OnOk, IfErr};
ghost use Rattle.lean_orders.specs.declared.desk.Command.{Command as AskedOne};
ghost use Rattle.lean_orders.specs.declared.desk.Reply.{Reply as Answer};
ghost use Rattle.clock_book.specs.Books.{Book as ClockBook};
ghost use Rattle.clock_book.specs.Fitting.{most_orders};
ghost use Rattle.order_desk.specs.Served.{IsRight};
ghost use Rattle.backtest_engine.specs.Meaning.{Meaning};
ghost use Rattle.backtest_engine.specs.Turns.{Turn};
ghost use Rattle.backtest_engine.specs.Phased.{GoesOn, AskedAll, IsFed, Faces, Phased};

use crate::limits::Stop;
use crate::phase::Phase;
use crate::strategy::Strategy;
use lean_fixed::NoMemory;
use lean_orders::Heard;
use order_desk::Desk;

/// Why not all commands of a phase were submitted.
#[derive(Clone, Copy)]
pub(crate) enum Unasked {
    /// The desk has no memory. It is then only finished.
    Starved,
    /// The strategy stopped.
    Stopped(Stop),
}

// Plays a phase. On every path all replies were heard, or the desk has no memory.
pub(crate) fn play_phase<C: Strategy, D: Desk>(
    core: &mut C,
    desk: &mut D,
    phase: Phase,
) -> Result<(), Stop>
    requires fed { D.starved desk.old ≡ false }
    requires done { D.answered desk.old ≡ D.submitted desk.old }
    requires few { D.submitted desk.old + C.left core.old ≤ 2 ^ 59 }
    requires orders { D.orders desk.old + C.orders core.old ≤ most_orders }
    ensures played { (ds : List AskedOne) × (more : List Answer)
        × GoesOn (D.stands desk.old) (D.stands desk.new) ds more
        × ((m : Meaning C.Own) (turn : Turn C.Own) (b : ClockBook) (cs : List AskedOne) (rs : List Answer)
        → Faces m (D.stands desk.old) (C.plays core.old m) turn b cs rs → turn.phase ≡ phase
        → IsRight b (cs ++ ds) (rs ++ more)
        → Phased m (C.plays core.new m) (C.text core.new) turn ds more result) }
    ensures closed { (D.starved desk.new ≡ true) ⊎ (D.answered desk.new ≡ D.submitted desk.new) }
    ensures fed { OnOk result (D.starved desk.new ≡ false) }
    ensures done { OnOk result (D.answered desk.new ≡ D.submitted desk.new) }
    ensures few { OnOk result (D.submitted desk.new + C.left core.new ≤ D.submitted desk.old + C.left core.old) }
    ensures orders { OnOk result (D.orders desk.new + C.orders core.new ≤ D.orders desk.old + C.orders core.old) }
{
    match ask_all(core, desk, phase) {
        Ok(()) => match hear_all(core, desk) {
            Ok(()) => Ok(()),
            Err(NoMemory) => Err(Stop::NoMemory),
        },
        Err(Unasked::Starved) => Err(Stop::NoMemory),
        Err(Unasked::Stopped(stop)) => match hear_all(core, desk) {
            Ok(()) => Err(stop),
            Err(NoMemory) => Err(Stop::NoMemory),
        },
    }
}

// Submits the commands of a phase, as the strategy gives them out.
fn ask_all<C: Strategy, D: Desk>(core: &mut C, desk: &mut D, phase: Phase) -> Result<(), Unasked>
    requires fed { D.starved desk.old ≡ false }
    requires few { D.submitted desk.old + C.left core.old ≤ 2 ^ 59 }
    requires orders { D.orders desk.old + C.orders core.old ≤ most_orders }
    ensures asked { (ds : List AskedOne) × GoesOn (D.stands desk.old) (D.stands desk.new) ds []
        × ((m : Meaning C.Own) (turn : Turn C.Own) → C.plays core.old m turn [] [] → turn.phase ≡ phase
        → AskedAll m (C.plays core.new m) turn ds result) }
    ensures fed { OnOk result (D.starved desk.new ≡ false) }
    ensures starved { IfErr result (λ why. IsFed (D.starved desk.new) why) }
    ensures few { OnOk result (D.submitted desk.new + C.left core.new ≤ D.submitted desk.old + C.left core.old) }
    ensures orders { OnOk result (D.orders desk.new + C.orders core.new ≤ D.orders desk.old + C.orders core.old) }
{
    'commands: loop {
        match core.next_command(phase) {
            Ok(Some(command)) => match desk.submit(command) {
                Ok(_) => {}
                Err(NoMemory) => return Err(Unasked::Starved),
            },
            Ok(None) => return Ok(()),
            Err(stop) => return Err(Unasked::Stopped(stop)),
        }
    }
}

// Hears all replies to what was submitted. After want of memory of the strategy it goes on, so that the desk may be finished.
fn hear_all<C: Strategy, D: Desk>(core: &mut C, desk: &mut D) -> Result<(), NoMemory>
    requires fed { D.starved desk.old ≡ false }
    ensures heard { (more : List Answer) × GoesOn (D.stands desk.old) (D.stands desk.new) [] more
        × OnOk result ((m : Meaning C.Own) (turn : Turn C.Own) (cs : List AskedOne) (rs : List Answer)
        → C.plays core.old m turn cs rs → C.plays core.new m turn cs (rs ++ more)) }
    ensures closed { (D.starved desk.new ≡ true) ⊎ (D.answered desk.new ≡ D.submitted desk.new) }
    ensures fed { OnOk result (D.starved desk.new ≡ false) }
    ensures done { OnOk result (D.answered desk.new ≡ D.submitted desk.new) }
    ensures submitted { D.submitted desk.new ≡ D.submitted desk.old }
    ensures ordered { D.orders desk.new ≡ D.orders desk.old }
    ensures left { C.left core.new ≤ C.left core.old }
    ensures orders { C.orders core.new ≤ C.orders core.old }
{
    let mut lost = false;
    'replies: loop {
        match desk.hear() {
            Ok(Some(heard)) => lost = tell(core, &heard, lost),
            Ok(None) => return unless(lost),
            Err(NoMemory) => return Err(NoMemory),
        }
    }
}

// Lets the strategy hear a reply, and says whether it has lost one.
fn tell<C: Strategy>(core: &mut C, heard: &Heard, lost: bool) -> bool
    ensures heard { result ≡ false → (lost ≡ false) × ((m : Meaning C.Own) (turn : Turn C.Own) (cs : List AskedOne) (rs : List Answer)
        → C.plays core.old m turn cs rs → C.plays core.new m turn cs (rs ++ heard.now.reply ∷ [])) }
    ensures left { C.left core.new ≤ C.left core.old }
    ensures orders { C.orders core.new ≤ C.orders core.old }
{
    match core.hear(heard) {
        Ok(()) => lost,
        Err(NoMemory) => true,
    }
}

// There was no memory where something was lost.
fn unless(lost: bool) -> Result<(), NoMemory>
    ensures { OnOk result (lost ≡ false) }
{
    if lost { Err(NoMemory) } else { Ok(()) }
}
