//! The definitions of what is told, computed on small values.
ghost use Rattle.std.specs.Prelude.{◌≡◌, ℕ, ◌-◌, ◌^◌, true, false, [], ◌∷◌, Some, None, Ok, Err, codes};
ghost use Rattle.lean_io.specs.Counts.{raised};
ghost use Rattle.lean_io.specs.Told.{Files, Rose, Opened, Reads};
ghost use Rattle.lean_io.specs.MemSink.{new_sink, FailsNext, amount, taken, failed};
ghost use Rattle.lean_io.specs.StdSink.{IsFault};

/// A count rises by what is added, and stands still at 2^64 - 1, where it counts as risen.
pub fn counts()
    ensures first { raised 0 1 ≡ 1 }
    ensures last { raised (2 ^ 64 - 2) 1 ≡ 2 ^ 64 - 1 }
    ensures end { raised (2 ^ 64 - 1) 1 ≡ 2 ^ 64 - 1 }
    ensures sum { raised (2 ^ 64 - 3) 9 ≡ 2 ^ 64 - 1 }
    ensures rose { Rose 3 4 }
    ensures stood { ¬ Rose 3 3 }
    ensures at_end { Rose (2 ^ 64 - 1) (2 ^ 64 - 1) }
{}

/// A path has a file or none; a read moves a front of the rest, and none at its end or into no room.
pub fn openings_and_reads()
    ensures found { (f : Files) → f (codes "a") ≡ Some (codes "xyz")
        → Opened f (codes "a") true (codes "xyz") }
    ensures missing { (f : Files) → f (codes "b") ≡ None → Opened f (codes "b") false [] }
    ensures front { Reads 2 (codes "xyz") (codes "z") (codes "xy") }
    ensures end { Reads 0 [] [] (codes "qq") }
    ensures no_room { Reads 0 (codes "xyz") (codes "xyz") [] }
    ensures never_none { ¬ Reads 0 (codes "xyz") (codes "xyz") (codes "qq") }
{}

/// A sink of at most 4 bytes at a time and room for 6, whose second write fails, takes 4, fails, and
/// takes 2. A sink without room fails.
pub fn a_sink_in_memory()
    ensures first { amount (new_sink 4 6 (2 ∷ [])) (codes "abcdef") ≡ 4 }
    ensures second { FailsNext (taken (new_sink 4 6 (2 ∷ [])) 4 (codes "abcdef")) }
    ensures third { amount (failed (taken (new_sink 4 6 (2 ∷ [])) 4 (codes "abcdef")))
        (codes "efgh") ≡ 2 }
    ensures full { FailsNext (taken (new_sink 4 2 []) 2 (codes "abcdef")) }
    ensures bytes { (taken (taken (new_sink 4 6 []) 4 (codes "abcdef")) 2 (codes "ef")).bytes
        ≡ codes "abcdef" }
{}

/// Of standard output an error is a fault, and that nothing is taken of a piece that is not empty.
pub fn writes_of_the_system()
    ensures error { (e : ℕ) → IsFault 3 (Err e) }
    ensures nothing { IsFault {E = ℕ} 3 (Ok 0) }
    ensures short { ¬ IsFault {E = ℕ} 3 (Ok 1) }
    ensures empty { ¬ IsFault {E = ℕ} 0 (Ok 0) }
{}
