//! What the definitions say of worked lines. Each value is the contract of a function that does nothing.

ghost use Rattle.std.specs.Prelude.{◌≡◌, codes};
ghost use Rattle.lean_fixed.specs.Calendar.{day_of_digits};
ghost use Rattle.lean_fixed.specs.declared.resolution.Resolution.{Resolution};
ghost use Rattle.lean_items.specs.declared.reason.Reason.{Reason};
ghost use Rattle.equity_csv.specs.Rows.{minute_row, hour_in, dated_row, row_of};

#[tactic(auto, unfolding(crate::specs::Rows::minute_row))]
pub fn minutes()
    ensures plain { minute_row 15985 (codes "34200000,100,110,90,105,10")
        ≡ Ok (row_of 23018970 100 110 90 105 10) }
    ensures points { minute_row 15985 (codes "34200000.0,100,110.00,90,105.,10,x")
        ≡ Ok (row_of 23018970 100 110 90 105 10) }
    ensures fields { minute_row 15985 (codes "34200000,100,110,90,105") ≡ Err Reason.Fields }
    ensures time { minute_row 15985 (codes "34200001,100,110,90,105,10") ≡ Err Reason.Time }
    ensures midnight { minute_row 15985 (codes "86400000,100,110,90,105,10") ≡ Err Reason.Time }
    ensures zero { minute_row 15985 (codes "34200000,0,110,90,105,10") ≡ Err Reason.Price }
    ensures greatest { minute_row 15985 (codes "34200000,100,10000000001,90,105,10")
        ≡ Err Reason.Price }
    ensures fraction { minute_row 15985 (codes "34200000,100,110,90,1.5,10") ≡ Err Reason.Price }
    ensures volume { minute_row 15985 (codes "34200000,100,110,90,105,1000000000000001")
        ≡ Err Reason.Volume }
    ensures range { minute_row 15985 (codes "34200000,100,104,90,105,10") ≡ Err Reason.Range }
{}

#[tactic(auto, unfolding(crate::specs::Rows::dated_row))]
pub fn dates()
    ensures hour { hour_in (codes " 15:00") ≡ Some 15 }
    ensures late { hour_in (codes " 24:00") ≡ None }
    ensures daily { day_of_digits (codes "20131007") ≡ Some 15985
        → dated_row Resolution.Daily (codes "20131007 00:00,1672000,1680000,1670000,1675000,1234")
        ≡ Ok (row_of 23018400 1672000 1680000 1670000 1675000 1234) }
    ensures afternoon { dated_row Resolution.Daily (codes "20131007 15:00,100,110,90,105,10")
        ≡ Err Reason.Time }
{}
