//! What is true of all daily tapes. The law is the contract of a function that does nothing.
ghost use Rattle.std.specs.Prelude.{List};
ghost use Rattle.clock_steps.specs.Runs.{IsFrontOf};
ghost use Rattle.daily_tape.specs.DailyTape.{Security, TapeRow, tape, tape_text, tape_bytes};
ghost use Rattle.daily_tape.specs.Whole.{IsWhole};

/// The lines of whole days are the first that a daily tape prints.
pub fn days_are_a_front()
    ensures { (all : List Security) (rows : List TapeRow) → IsWhole all rows
        → IsFrontOf (tape_text rows) (tape_bytes (tape all)) }
{}
