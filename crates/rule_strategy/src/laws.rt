//! What holds of every plan that is read. The law is the contract of a function that does nothing.

ghost use Rattle.std.specs.Prelude.{◌≡◌, ℕ, List, Ok};
ghost use Rattle.rule_strategy.specs.declared.plan.Plan.{Plan};
ghost use Rattle.rule_strategy.specs.PlanFile.{plan};
ghost use Rattle.rule_strategy.specs.Validity.{IsPlan};

/// A plan that was read is valid: its values are of their kinds and in their ranges, its listed symbols differ, and of each
/// rule `when` is a truth and every other expression that its kind takes is there and is a number.
pub fn plans_are_valid()
    ensures { (bytes : List ℕ) (p : Plan) → plan bytes ≡ Ok p → IsPlan p }
{
    rule_lang::laws::read_is_typed();
}
