//! The definitions, computed on a small pipeline. Each value is the contract of a function that does nothing.
ghost use Rattle.std.specs.Prelude.{◌≡◌, ◌++◌, true, [], ◌∷◌, length, codes};
ghost use Rattle.lean_orders.specs.declared.desk.Reply.TheVariants.{Done};
ghost use Rattle.clock_pipeline.specs.Replies.{dones};
ghost use Rattle.clock_pipeline.specs.Steps.{produces, asks, answers, closes, hears, serves};
ghost use Rattle.clock_pipeline.specs.Fitting.{Fits};
ghost use Rattle.clock_pipeline.specs.Worked.{small, state_after, fed, passed, first_closed, second_heard, try_orders, ask_sums, sums};

/// Nothing is asked, and no moment closed, before the coarse feed reaches the moment in hand. A feed that has ended sends no
/// more.
fn feeds_come_first()
    ensures asked { (state_after (asks ∷ closes ∷ [])).commands.sent ≡ [] }
    ensures closed { (state_after (asks ∷ closes ∷ [])).closed ≡ 0 }
    ensures ended { (state_after (fed ++ produces 0 true ∷ [])).feeds ≡ (state_after fed).feeds }
{}

/// A moment is closed only when all replies were heard, and where a lane is full nothing is put into it.
fn replies_come_first()
    ensures waits { (state_after (fed ++ asks ∷ serves ∷ answers ∷ closes ∷ [])).closed ≡ 0 }
    ensures closes { (state_after first_closed).closed ≡ 1 }
    ensures full { length (state_after (first_closed ++ passed ++ asks ∷ serves ∷ answers ∷ answers ∷ [])).replies.sent ≡ 3 }
{}

/// The line of a session's closing is written as its moment is closed, and not before.
fn lines_are_written()
    ensures before { (state_after second_heard).text ≡ [] }
    ensures heard { dones (state_after second_heard).replies.taken ≡ 3 }
    ensures after { (state_after (second_heard ++ closes ∷ [])).text
        ≡ codes "20131007 00:01 close cash 10.0000 equity 10.0000\n" }
{}

/// What does not fit: a moment that was closed before its replies were heard, a command that was served before the one that
/// was asked before it, a reply that was heard before the one that was sent before it, and a line that was written before its
/// moment was closed.
fn what_does_not_fit()
    ensures unheard { ¬ Fits small (record (state_after (fed ++ asks ∷ [])) { closed = 1 }) }
    ensures out_of_turn { ¬ Fits small (record (state_after fed) {
      commands = record { sent = try_orders ∷ ask_sums ∷ []; taken = ask_sums ∷ [] };
    }) }
    ensures skipped { ¬ Fits small (record (state_after fed) {
      replies = record { sent = Done ∷ sums ∷ Done ∷ []; taken = Done ∷ Done ∷ [] };
    }) }
    ensures early { ¬ Fits small (record (state_after second_heard) { text = 50 ∷ [] }) }
{}
