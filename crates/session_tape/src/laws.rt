//! What is true of all session tapes. The law is the contract of a function that does nothing.
ghost use Rattle.std.specs.Prelude.{ℕ, List};
ghost use Rattle.lean_fixed.specs.declared.resolution.Resolution.{Resolution};
ghost use Rattle.lean_fixed.specs.declared.time.Window.{Window};
ghost use Rattle.clock_steps.specs.Runs.{IsFrontOf};
ghost use Rattle.clock_feeds.specs.Slices.{Source};
ghost use Rattle.session_tape.specs.Session.{SessionBar, session, session_text, session_bytes};
ghost use Rattle.session_tape.specs.Whole.{IsWhole};

/// The lines of whole minutes are the first that a session tape prints.
pub fn minutes_are_a_front()
    ensures { (resolution : Resolution) (window : Window) (sources : List (List ℕ × Source)) (bars : List SessionBar)
        → IsWhole sources window bars
        → IsFrontOf (session_text bars) (session_bytes resolution (session sources window)) }
{}
