ghost use Rattle.std.specs.Prelude.{◌≡◌, ◌+◌, ◌<◌, ◌≤◌, false, unsigned_abs, neg_ℤ, ◌+ℤ◌, ◌-ℤ◌, ◌*ℤ◌};
ghost use Rattle.lean_fixed.specs.Ranges.{IsQuantity, IsFillPrice, IsPosition, IsAtMost, most_quantity};
ghost use Rattle.portfolio.specs.Lots.{opened, part_of, closed, enlarges, filled};
ghost use Rattle.portfolio.specs.LotRanges.{most_value, most_cost, most_between, IsBounded};

/// What the fills of one symbol leave.
#[derive(Clone, Copy)]
pub struct Lot {
    /// The shares that are held, negative where they are owed.
    pub position: i64,
    /// What was paid for them, negative where they are owed, in 1/10000 dollar.
    pub cost: i128,
    /// The profit of the shares that are no longer held, before fees.
    pub profit: i128,
}

impl Lot {
    /// No position, and none before.
    pub const NONE: Lot = Lot {
        position: 0,
        cost: 0,
        profit: 0,
    };

    /// After one more fill. A fill through zero closes the position first and then opens one with the rest.
    pub fn filled(self, quantity: i64, price: i64) -> Lot
        requires bounded { IsBounded self }
        requires quantity { IsQuantity quantity }
        requires price { IsFillPrice price }
        ensures { result ≡ filled self quantity price }
    {
        if enlarges(self.position, quantity) {
            self.opened(quantity, price)
        } else if quantity.unsigned_abs() <= self.position.unsigned_abs() {
            self.closed(quantity, price)
        } else {
            self.turned(quantity, price)
        }
    }

    // The quantity is on the other side, and more than the position.
    fn turned(self, quantity: i64, price: i64) -> Lot
        requires bounded { IsBounded self }
        requires other { enlarges self.position quantity ≡ false }
        requires more { unsigned_abs self.position < unsigned_abs quantity }
        requires quantity { IsAtMost most_quantity quantity }
        requires price { IsFillPrice price }
        ensures { result
            ≡ opened (closed self (neg_ℤ self.position) price) (self.position +ℤ quantity) price }
    {
        self.closed(-self.position, price)
            .opened(self.position + quantity, price)
    }

    #[tactic(auto, using(crate::proofs::LotLemmas::same_lot))]
    fn opened(self, quantity: i64, price: i64) -> Lot
        requires position { IsPosition self.position }
        requires cost { IsAtMost most_between self.cost }
        requires profit { IsAtMost most_between self.profit }
        requires quantity { IsAtMost most_quantity quantity }
        requires price { IsFillPrice price }
        ensures { result ≡ opened self quantity price }
    {
        let value = value_of(quantity, price);
        self.enlarged(quantity, value)
    }

    fn enlarged(self, quantity: i64, value: i128) -> Lot
        requires position { IsPosition self.position }
        requires cost { IsAtMost most_between self.cost }
        requires quantity { IsAtMost most_quantity quantity }
        requires value { IsAtMost most_value value }
        ensures position { result.position ≡ self.position +ℤ quantity }
        ensures cost { result.cost ≡ self.cost +ℤ value }
        ensures profit { result.profit ≡ self.profit }
    {
        Lot {
            position: self.position + quantity,
            cost: self.cost + value,
            profit: self.profit,
        }
    }

    #[tactic(auto, using(crate::proofs::LotLemmas::same_lot))]
    // The quantity is on the other side, and at most the position.
    fn closed(self, quantity: i64, price: i64) -> Lot
        requires bounded { IsBounded self }
        requires part { unsigned_abs quantity ≤ unsigned_abs self.position }
        requires quantity { IsAtMost most_quantity quantity }
        requires price { IsFillPrice price }
        ensures value { result ≡ closed self quantity price }
        ensures position { result.position ≡ self.position +ℤ quantity }
        ensures cost { IsAtMost most_between result.cost }
        ensures profit { IsAtMost most_between result.profit }
    {
        let part = part_of(
            self.cost,
            self.position.unsigned_abs(),
            quantity.unsigned_abs(),
        );
        let gain = gain_of(value_of(quantity, price), part);
        self.lessened(quantity, part, gain)
    }

    fn lessened(self, quantity: i64, part: i128, gain: i128) -> Lot
        requires bounded { IsBounded self }
        requires quantity { IsAtMost most_quantity quantity }
        requires part { IsAtMost most_cost part }
        requires gain { IsAtMost (most_value + most_cost) gain }
        ensures position { result.position ≡ self.position +ℤ quantity }
        ensures cost { result.cost ≡ self.cost -ℤ part }
        ensures profit { result.profit ≡ self.profit +ℤ gain }
        ensures costs { IsAtMost most_between result.cost }
        ensures profits { IsAtMost most_between result.profit }
    {
        Lot {
            position: self.position + quantity,
            cost: self.cost - part,
            profit: self.profit + gain,
        }
    }
}

// What is received for shares that are sold, less their part of the cost.
fn gain_of(value: i128, part: i128) -> i128
    requires value { IsAtMost most_value value }
    requires part { IsAtMost most_cost part }
    ensures value { result ≡ neg_ℤ value -ℤ part }
    ensures range { IsAtMost (most_value + most_cost) result }
{
    -value - part
}

fn enlarges(position: i64, quantity: i64) -> bool
    ensures { result ≡ enlarges position quantity }
{
    (position >= 0 && quantity >= 0) || (position <= 0 && quantity <= 0)
}

// The part of a cost that falls to some of the shares that are held.
fn part_of(cost: i128, held: u64, shares: u64) -> i128
    requires shares { shares ≤ held }
    requires cost { IsAtMost most_cost cost }
    ensures value { result ≡ part_of cost held shares }
    ensures within { IsAtMost most_cost result }
{
    if shares == held {
        return cost;
    }
    cost / held as i128 * shares as i128
}

/// What so many shares cost at a price.
pub fn value_of(quantity: i64, price: i64) -> i128
    requires quantity { IsAtMost most_quantity quantity }
    requires price { IsFillPrice price }
    ensures value { result ≡ quantity *ℤ price }
    ensures within { IsAtMost most_value result }
{
    quantity as i128 * price as i128
}
