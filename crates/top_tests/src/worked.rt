//! What the words of the test `words_agree` ask for, by the definition that the command line's reader meets.
ghost use Rattle.std.specs.Prelude.{◌≡◌, ◌∷◌, [], Some, codes};
ghost use Rattle.lean_top.specs.Command.{Backtest, command};

/// The path, and the number of workers, which is 0 where it is not said.
pub fn words_of_backtests()
    ensures alone { command (codes "backtest" ∷ codes "a.toml" ∷ [])
        ≡ Some (Backtest (codes "a.toml") 0) }
    ensures behind { command (codes "backtest" ∷ codes "a.toml" ∷ codes "--workers" ∷ codes "8" ∷ [])
        ≡ Some (Backtest (codes "a.toml") 8) }
    ensures before { command (codes "backtest" ∷ codes "--workers=8" ∷ codes "a.toml" ∷ [])
        ≡ Some (Backtest (codes "a.toml") 8) }
{}
