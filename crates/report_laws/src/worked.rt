//! The definitions, computed on the lines of a buy.
ghost use Rattle.std.specs.Prelude.{◌≡◌, pos, ◌∷◌, []};
ghost use Rattle.report_laws.specs.Fills.{fills_printed};
ghost use Rattle.report_laws.specs.Ledger.{cash_in, position_in, equity_in, held_in};
ghost use Rattle.report_laws.specs.Worked.{spider, bought, lines, ledger_at};

/// A buy of 100 shares at 168.0000 with a fee of 1.0000 leaves 83199.0000 of 100000.0000. With the shares that is 99999.0000 at
/// this price, and 100199.0000 at 170.0000.
pub fn ledger_of_a_buy()
    ensures fills { fills_printed lines ≡ bought ∷ [] }
    ensures cash { cash_in (ledger_at 1680000) ≡ pos 831990000 }
    ensures position { position_in (ledger_at 1680000) spider ≡ pos 100 }
    ensures equity { equity_in (ledger_at 1680000) ≡ pos 999990000 }
    ensures later { equity_in (ledger_at 1700000) ≡ pos 1001990000 }
    ensures held { held_in (ledger_at 1700000) ≡ spider ∷ [] }
{}
