//! That the calls of a core over one moment make the moment of the definition. Each law is the contract of a function that does
//! nothing.
ghost use Rattle.std.specs.Prelude.{◌≡◌, ℕ, ◌+◌, ◌++◌, List, length, Some, None, if◌then◌else◌};
ghost use Rattle.lean_items.specs.declared.arrival.Arrival.{Arrival};
ghost use Rattle.clock_steps.specs.Runs.{Ran};
ghost use Rattle.clock_run.specs.Lines.{Line, Halt, too_many_securities, too_many_requests};
ghost use Rattle.clock_run.specs.Known.{Known};
ghost use Rattle.clock_run.specs.States.{Setup, State, active_keys};
ghost use Rattle.clock_run.specs.Moments.{selection, prices, trading, first_refused, moment_of};
ghost use Rattle.backtest_core.specs.declared.phase.Phase.TheVariants.{Prices, Rules};
ghost use Rattle.backtest_core.specs.Standing.{standing_of, named_all};
ghost use Rattle.backtest_core.specs.Inside.{arrived, has_too_many, is_over_in, closed, lines_closed};
ghost use Rattle.backtest_core.specs.Whole.{through};
ghost use Rattle.backtest_core.specs.Served.{Serves};
ghost use Rattle.backtest_core.specs.Made.{Ties, priced, traded_on, left_behind, lines_behind, core_behind};

/// Over a slice that has what is known at a moment beyond what was known before, and over the replies of the book, a core has
/// the lines of the selection once the slice has arrived, those of the parts up to trading behind its second phase, those of
/// all parts once the moment is closed, and stands for the state behind it once what was added has its numbers. The commands of
/// its phases leave the books of the parts.
pub fn core_makes_moments()
    ensures arrives { (setup : Setup) (t : ℕ) (before known : Known) (slice : List Arrival) (s : State)
        → Ties setup t before known slice s
        → (arrived t slice (standing_of setup s before)).lines
        ≡ (selection setup.plan.universe t known.coarse s).lines }
    ensures lines { (setup : Setup) (t : ℕ) (before known : Known) (slice : List Arrival) (s : State)
        → Ties setup t before known slice s
        → let one = (selection setup.plan.universe t known.coarse s).state in
        lines_closed (core_behind setup t known one (arrived t slice (standing_of setup s before)))
        ≡ (selection setup.plan.universe t known.coarse s).lines ++ lines_behind setup t known one }
    ensures stands { (setup : Setup) (t : ℕ) (before known : Known) (slice : List Arrival) (s : State)
        → Ties setup t before known slice s
        → let one = (selection setup.plan.universe t known.coarse s).state in
        let behind = closed (core_behind setup t known one (arrived t slice (standing_of setup s before))) in
        named_all s.feeds behind.waiting behind ≡ standing_of setup (left_behind setup t known one) known }
    ensures feeds { (setup : Setup) (t : ℕ) (before known : Known) (slice : List Arrival) (s : State)
        → Ties setup t before known slice s
        → let one = (selection setup.plan.universe t known.coarse s).state in
        s.feeds + length (closed (core_behind setup t known one (arrived t slice (standing_of setup s before)))).waiting
        ≡ (left_behind setup t known one).feeds }
    ensures traded { (setup : Setup) (t : ℕ) (before known : Known) (slice : List Arrival) (s : State)
        → Ties setup t before known slice s
        → let one = (selection setup.plan.universe t known.coarse s).state in
        (through Rules (priced t known one).book (through Prices one.book (arrived t slice (standing_of setup s before)))).lines
        ≡ (selection setup.plan.universe t known.coarse s).lines
        ++ ((prices t known one).lines ++ (trading setup t known (priced t known one)).lines) }
    ensures serves { (setup : Setup) (t : ℕ) (before known : Known) (slice : List Arrival) (s : State)
        → Ties setup t before known slice s
        → Serves setup t known (selection setup.plan.universe t known.coarse s).state (arrived t slice (standing_of setup s before)) }
{}

/// A moment without a limit is its parts one after the other; and it is halted at a limit with the lines before it.
pub fn moments_in_parts()
    ensures whole { (setup : Setup) (t : ℕ) (known : Known) (s : State)
        → let one = selection setup.plan.universe t known.coarse s in
        one.stop ≡ None → (trading setup t known (priced t known one.state)).stop ≡ None
        → moment_of setup t known s ≡ record {
          lines = one.lines ++ lines_behind setup t known one.state;
          state = left_behind setup t known one.state;
          stop = first_refused known (active_keys setup.plan (left_behind setup t known one.state));
        } }
    ensures securities { (setup : Setup) (t : ℕ) (known : Known) (s : State) (halt : Halt)
        → (selection setup.plan.universe t known.coarse s).stop ≡ Some halt
        → moment_of setup t known s ≡ selection setup.plan.universe t known.coarse s }
    ensures requests { (setup : Setup) (t : ℕ) (known : Known) (s : State) (halt : Halt)
        → let one = selection setup.plan.universe t known.coarse s in
        one.stop ≡ None → (trading setup t known (priced t known one.state)).stop ≡ Some halt
        → moment_of setup t known s ≡ record {
          lines = one.lines ++ ((prices t known one.state).lines ++ (trading setup t known (priced t known one.state)).lines);
          state = traded_on setup t known one.state;
          stop = Some halt;
        } }
{}

/// The core is out of room exactly where the moment is halted at a limit.
pub fn limits_are_those_of_moments()
    ensures securities { (setup : Setup) (t : ℕ) (before known : Known) (slice : List Arrival) (s : State)
        → Ties setup t before known slice s
        → (selection setup.plan.universe t known.coarse s).stop
        ≡ (if has_too_many (standing_of setup s before) slice then Some too_many_securities else None) }
    ensures requests { (setup : Setup) (t : ℕ) (before known : Known) (slice : List Arrival) (s : State)
        → Ties setup t before known slice s
        → let one = (selection setup.plan.universe t known.coarse s).state in
        (trading setup t known (priced t known one)).stop
        ≡ (if is_over_in Rules (through Prices one.book (arrived t slice (standing_of setup s before)))
        then Some too_many_requests else None) }
{}
