//! The law of the pipeline. It is the contract of a function that does nothing.
ghost use Rattle.std.specs.Prelude.{◌≡◌, ℕ, List};
ghost use Rattle.lean_fixed.specs.Ranges.{IsWindow};
ghost use Rattle.exchange_hours.specs.Sessions.{LieInDays};
ghost use Rattle.clock_steps.specs.Runs.{IsFrontOf};
ghost use Rattle.clock_run.specs.Reports.{backtest, report_bytes};
ghost use Rattle.clock_pipeline.specs.Pipelines.{Pipeline, State, opening, world};
ghost use Rattle.clock_pipeline.specs.Steps.{Step, stepped, after_steps};
ghost use Rattle.clock_pipeline.specs.Fitting.{Fits};

/// Whatever the threads do, the text is that of the definition. Each step keeps a state fitting; so every list of steps from
/// the opening state leads to a state that fits; and where a state fits, its text is a front of what the backtest of the
/// folder's files prints.
pub fn pipeline()
    ensures step { (p : Pipeline) (s : State) (step : Step) → LieInDays p.setup.hours
        → IsWindow p.setup.plan.window → Fits p s → Fits p (stepped p s step) }
    ensures steps { (p : Pipeline) (steps : List Step) → LieInDays p.setup.hours
        → IsWindow p.setup.plan.window → Fits p (after_steps p steps (opening p)) }
    ensures text { (p : Pipeline) (s : State) → LieInDays p.setup.hours → IsWindow p.setup.plan.window
        → Fits p s → IsFrontOf s.text (report_bytes p.setup (backtest p.setup (world p))) }
{}
