//! What is written is read as the same event. The law is the contract of a function that does nothing.
ghost use Rattle.std.specs.Prelude.{◌≡◌, ℕ, List, true, Some};
ghost use Rattle.lean_fixed.specs.Symbol.{is_symbol};
ghost use Rattle.lean_orders.specs.declared.event.OrderEvent.{OrderEvent};
ghost use Rattle.report_lines.specs.EventLines.{event_line, IsEvent};
ghost use Rattle.report_lines.specs.Reading.{event_of_text};

use lean_fixed::laws;

/// The line of an event that has one is read as that event.
pub fn line_reads_back()
    ensures { (event : OrderEvent) (symbol : List ℕ) → IsEvent event → event.symbol ≡ Some symbol
        → is_symbol symbol ≡ true → event_of_text (event_line event) ≡ Some event }
{
    laws::number_reads_back();
    laws::amount_reads_back();
    laws::moment_reads_back();
    laws::money_has_no_sign();
}
