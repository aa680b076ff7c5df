//! The definitions, computed on small walks.
ghost use Rattle.std.specs.Prelude.{◌≡◌, [], ◌∷◌, Some, None};
ghost use Rattle.clock_steps.specs.Runs.{run, run_to};
ghost use Rattle.clock_steps.specs.Walks.{walk};
ghost use Rattle.clock_steps.specs.Small.{counts, stops_at_five, evens};

/// Steps that count what was counted, one that stops, and one that prints nothing.
fn worked_runs()
    ensures whole { run_to counts 3 5 10 ≡ record { lines = 13 ∷ 17 ∷ 22 ∷ []; state = 22; stop = None } }
    ensures none { run counts 0 3 10 ≡ record { lines = []; state = 10; stop = None } }
    ensures stopped { run_to stops_at_five 3 9 0
        ≡ record { lines = 3 ∷ 4 ∷ 5 ∷ []; state = 0; stop = Some 5 } }
{}

fn worked_walks()
    ensures some { walk evens 3 8 ≡ 4 ∷ 6 ∷ 8 ∷ [] }
    ensures none { walk evens 9 9 ≡ [] }
    ensures past { walk evens 9 4 ≡ [] }
{}
