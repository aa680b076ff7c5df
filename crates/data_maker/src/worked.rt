//! The definition, computed on the rows and days whose values are known.
ghost use Rattle.std.specs.Prelude.{◌≡◌, ◌∷◌, [], drop};
ghost use Rattle.std.specs.List.{flat_map};
ghost use Rattle.equity_csv.specs.Rows.{row_of};
ghost use Rattle.data_maker.specs.Walk.{seed, first_price, next_random, walked, randoms, prices};
ghost use Rattle.data_maker.specs.MadeFiles.{days, minutes};

/// The first random number, the prices around the first row, and the row's line, of the first security of number 0; and the
/// first row of the last security of number 999,999.
#[tactic(auto, unfolding(crate::specs::Walk::next_random, crate::specs::Walk::next_price, crate::specs::Walk::row_from))]
pub fn first_rows()
    ensures random { next_random (seed 0 0) ≡ 12345 }
    ensures prices { prices (first_price 0) (randoms 1 (seed 0 0)) ≡ 1000000 ∷ 999000 ∷ [] }
    ensures row { walked (seed 0 0) (first_price 0) (23018970 ∷ [])
        ≡ row_of 23018970 1000000 1000045 998955 999000 745 ∷ [] }
    ensures greatest { walked (seed 999999 15) (first_price 15) (23018970 ∷ [])
        ≡ row_of 23018970 1150000 1150056 1149801 1149857 656 ∷ [] }
{}

/// The ten days.
#[tactic(auto, unfolding(crate::specs::MadeFiles::days))]
pub fn ten_days()
    ensures { days ≡ 15985 ∷ 15986 ∷ 15987 ∷ 15988 ∷ 15989 ∷ 15992 ∷ 15993 ∷ 15994 ∷ 15995 ∷ 15996 ∷ [] }
{}

/// The last row of the first security of number 0.
#[tactic(auto, unfolding(crate::specs::Walk::next_random, crate::specs::Walk::next_price, crate::specs::Walk::row_from, crate::specs::MadeFiles::days))]
pub fn last_row()
    ensures { drop 3899 (walked (seed 0 0) (first_price 0) (flat_map minutes days))
        ≡ row_of 23035199 909399 910062 909331 909994 568 ∷ [] }
{}
