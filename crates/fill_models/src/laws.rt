//! What follows of the fill table. Each law is the contract of a function that does nothing.
ghost use Rattle.std.specs.Prelude.{ℤ, pos, unsigned_abs, IfSome};
ghost use Rattle.lean_fixed.specs.Ranges.{IsPrice, IsFillPrice, IsQuantity, IsFee};
ghost use Rattle.lean_fixed.specs.declared.money.Side.{Side};
ghost use Rattle.lean_items.specs.declared.bar.Bar.{Bar};
ghost use Rattle.lean_orders.specs.declared.order.Order.{Order};
ghost use Rattle.trade_costs.specs.declared.costs.Costs.{Costs};
ghost use Rattle.trade_costs.specs.Fees.{IsCosts, fee, slipped};
ghost use Rattle.fill_models.specs.FillPrice.{IsPriced, fill_price};

/// A bar fills an order at a price of fills, where the prices of the bar and the order are in their range. So does a price with
/// slippage, and the fee of a quantity is in its range.
pub fn fills_stay_in_range()
    ensures price { (order : Order) (bar : Bar) (opens : ℤ) (costs : Costs) → IsPriced bar
        → IfSome order.price (λ price. IsPrice price.0) → IfSome order.limit (λ limit. IsPrice limit.0)
        → IsCosts costs → IfSome (fill_price order bar opens costs) IsFillPrice }
    ensures slipped { (costs : Costs) (price : ℤ) (side : Side) → IsCosts costs → IsPrice price
        → IsFillPrice (slipped costs price side) }
    ensures fee { (costs : Costs) (quantity : ℤ) → IsCosts costs → IsQuantity quantity
        → IsFee (fee costs (pos (unsigned_abs quantity))) }
{}
