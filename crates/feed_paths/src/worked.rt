//! The definitions, computed on values that are known.
ghost use Rattle.std.specs.Prelude.{◌≡◌, ◌+◌, ◌-◌, pos, negsuc, codes, ◌∷◌, [], Some};
ghost use Rattle.lean_fixed.specs.declared.resolution.Resolution.TheVariants.{Minute, Hour, Daily};
ghost use Rattle.lean_fixed.specs.Moments.{midnight};
ghost use Rattle.lean_items.specs.declared.feed_key.FeedKind.TheVariants.{Coarse, Equity};
ghost use Rattle.exchange_hours.specs.Worked.{november_hours};
ghost use Rattle.feed_paths.specs.Files.{files, files_after};
ghost use Rattle.feed_paths.specs.Paths.{path_of};
ghost use Rattle.feed_paths.specs.Worked.{spider, coarse, window};

/// A path of each kind.
pub fn paths()
    ensures minute { path_of (Equity (codes "SPY") Minute) 15985
        ≡ codes "equity/usa/minute/spy/20131007_spy_minute_trade.csv" }
    ensures hour { path_of (Equity (codes "BRK.B") Hour) 0 ≡ codes "equity/usa/hour/brk.b.csv" }
    ensures daily { path_of (Equity (codes "3M") Daily) 0 ≡ codes "equity/usa/daily/3m.csv" }
    ensures coarse { path_of Coarse 0 ≡ codes "equity/usa/fundamental/coarse/19700101.csv" }
{}

/// From noon of Wednesday 2013-11-27, the day before Thanksgiving, to Monday 2013-12-02.
pub fn real_days()
    ensures minute { files (spider Minute (pos (midnight 16036 + 720))) (window 16036 16041) november_hours
        ≡ 16036 ∷ 16038 ∷ 16041 ∷ [] }
    ensures past { files_after (spider Minute (pos (midnight 16036 + 720))) (window 16036 16041) november_hours
        (Some 16037) ≡ 16038 ∷ 16041 ∷ [] }
    ensures coarse { files (coarse (pos (midnight 16036 - 1))) (window 16036 16038) november_hours
        ≡ 16035 ∷ 16036 ∷ 16037 ∷ [] }
    ensures daily { files (spider Daily (pos (midnight 16036))) (window 16036 16041) november_hours ≡ 0 ∷ [] }
{}

/// The first days that there are: a feed that starts before them, and windows at them.
pub fn first_days()
    ensures minute { files (spider Minute (negsuc 0)) (window 0 5) november_hours ≡ 0 ∷ 1 ∷ 4 ∷ 5 ∷ [] }
    ensures coarse { files (coarse (pos 0)) (window 0 1) november_hours ≡ 0 ∷ [] }
    ensures no_coarse { files (coarse (pos 0)) (window 0 0) november_hours ≡ [] }
{}
