//! What the definition says of worked lines. Each value is the contract of a function that does nothing.

ghost use Rattle.std.specs.Prelude.{◌≡◌, codes, Some, None};
ghost use Rattle.lean_items.specs.declared.reason.Reason.{Reason};
ghost use Rattle.coarse_csv.specs.Rows.{coarse_row, row_of};

#[tactic(auto, unfolding(crate::specs::Rows::coarse_row))]
pub fn rows()
    ensures close { coarse_row (codes "SPY R735QTJ8XC9X,SPY,645.57,100,64557")
        ≡ Ok (Some (row_of (codes "SPY") 6455700 100 64557)) }
    ensures cut { coarse_row (codes "x,AAA,1.23456,7.00,9.99,further")
        ≡ Ok (Some (row_of (codes "AAA") 12345 7 9)) }
    ensures zeros { coarse_row (codes ",A.B,0,0,0.") ≡ Ok (Some (row_of (codes "A.B") 0 0 0)) }
    ensures fields { coarse_row (codes "x,AAA,1,1") ≡ Err Reason.Fields }
    ensures skipped { coarse_row (codes "x,aaa,-1,-1,-1") ≡ Ok None }
    ensures price { coarse_row (codes "x,AAA,1000000.0001,-1,1") ≡ Err Reason.Price }
    ensures greatest { coarse_row (codes "x,AAA,1000000.00009,1000000000000000,1000000000000000.9")
        ≡ Ok (Some (row_of (codes "AAA") 10000000000 1000000000000000 1000000000000000)) }
    ensures volume { coarse_row (codes "x,AAA,1,1.5,1") ≡ Err Reason.Volume }
    ensures dollars { coarse_row (codes "x,AAA,1,1,1000000000000001") ≡ Err Reason.Volume }
{}
