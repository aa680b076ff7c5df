//! What is true of all walks. Each law is the contract of a function that does nothing.
ghost use Rattle.std.specs.Prelude.{◌≡◌, ℕ, ◌+◌, ◌<◌, ◌≤◌, List, [], ◌++◌, Some, None};
ghost use Rattle.clock_steps.specs.Runs.{Ran, rests, behind, before, run, IsStill, IsFrontOf};
ghost use Rattle.clock_steps.specs.Walks.{walk, IsIdle};

/// Steps in which nothing happens change nothing.
pub fn idle_steps<S, L, Z>()
    // Alone they leave the state, print nothing, and do not stop.
    ensures alone { (step : ℕ → S → Ran S L Z) (n from : ℕ) (s : S) → IsStill step s from (from + n)
        → run step n from s ≡ rests s }

    // Between some steps and another the run is what it would be without them.
    ensures between { (step : ℕ → S → Ran S L Z) (n gap from : ℕ) (s t : S) (lines : List L)
        → run step n from s ≡ record { lines = lines; state = t; stop = None }
        → IsStill step t (from + n) (from + n + gap)
        → run step (n + gap + 1) from s ≡ behind lines (step (from + n + gap) t) }

    // Behind some steps they add nothing.
    ensures last { (step : ℕ → S → Ran S L Z) (n gap from : ℕ) (s t : S) (lines : List L)
        → run step n from s ≡ record { lines = lines; state = t; stop = None }
        → IsStill step t (from + n) (from + n + gap)
        → run step (n + gap) from s ≡ record { lines = lines; state = t; stop = None } }
{}

/// A run of one step is the step, and one that stopped is whole.
pub fn single_steps_and_stops<S, L, Z>()
    ensures one { (step : ℕ → S → Ran S L Z) (from : ℕ) (s : S) → run step 1 from s ≡ step from s }
    ensures stopped { (step : ℕ → S → Ran S L Z) (n more from : ℕ) (s t : S) (lines : List L) (z : Z)
        → run step n from s ≡ record { lines = lines; state = t; stop = Some z }
        → run step (n + more) from s ≡ record { lines = lines; state = t; stop = Some z } }
{}

/// What is run behind some steps, and behind those, is run behind the whole; and behind steps that rest it is run alone.
pub fn steps_in_turn<S, L, Z>()
    ensures in_turn { (first : Ran S L Z) (next later : S → Ran S L Z)
        → before (before first next) later ≡ before first (λ s. before (next s) later) }
    ensures behind { (lines : List L) (first : Ran S L Z) (later : S → Ran S L Z)
        → before (behind lines first) later ≡ behind lines (before first later) }
    ensures rests { (first : Ran S L Z) → before first rests ≡ first }
    ensures same { (first : Ran S L Z) (next other : S → Ran S L Z) → ((s : S) → next s ≡ other s)
        → before first next ≡ before first other }
{}

/// A run that is cut short between steps has printed the lines of whole steps, and they are a front of what it prints.
pub fn cut_between_steps<S, L, Z>()
    ensures two { (step : ℕ → S → Ran S L Z) (m n from : ℕ) (s : S)
        → run step (m + n) from s ≡ before (run step m from s) (run step n (from + m)) }
    ensures front { (step : ℕ → S → Ran S L Z) (m n from : ℕ) (s : S)
        → IsFrontOf (run step m from s).lines (run step (m + n) from s).lines }
{}

/// Two runs whose steps are the same from some step on, and before another, are the same between the two.
pub fn same_steps<S, L, Z>()
    ensures { (step other : ℕ → S → Ran S L Z) (n from : ℕ) (s : S)
        → ((t : ℕ) (u : S) → from ≤ t → t < from + n → step t u ≡ other t u)
        → run step n from s ≡ run other n from s }
{}

/// Moments that give nothing may be left out of a walk.
pub fn idle_moments<A>()
    ensures skipped { (gives : ℕ → List A) (after until to : ℕ) → after < until → until ≤ to + 1
        → IsIdle gives after until → walk gives (after + 1) to ≡ walk gives until to }
    ensures next { (gives : ℕ → List A) (after next to : ℕ) → after < next → next ≤ to
        → IsIdle gives after next → walk gives (after + 1) to ≡ gives next ++ walk gives (next + 1) to }
    ensures none { (gives : ℕ → List A) (after to : ℕ) → IsIdle gives after (to + 1)
        → walk gives (after + 1) to ≡ [] }
{}

/// A walk is what its first moments give and then what the others give.
pub fn walks_in_two<A>()
    ensures { (gives : ℕ → List A) (from mid to : ℕ) → from ≤ mid + 1 → mid ≤ to
        → walk gives from to ≡ walk gives from mid ++ walk gives (mid + 1) to }
{}

/// Two walks over moments that give the same are the same.
pub fn same_moments<A>()
    ensures { (gives other : ℕ → List A) (from to : ℕ)
        → ((t : ℕ) → from ≤ t → t ≤ to → gives t ≡ other t)
        → walk gives from to ≡ walk other from to }
{}
