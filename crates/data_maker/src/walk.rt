//! The random walk that a security's prices take.
ghost use Rattle.std.specs.Prelude.{◌≡◌, ◌+◌, ◌-◌, ◌%◌, ◌<◌, ◌≤◌, max, min};
ghost use Rattle.lean_fixed.specs.Calendar.{last_day};
ghost use Rattle.lean_fixed.specs.Moments.{midnight};
ghost use Rattle.equity_csv.specs.Rows.{row_of};
ghost use Rattle.equity_csv.specs.Written.{IsRow};
ghost use Rattle.data_maker.specs.Walk.{seed, first_price, next_random, next_price, row_from};

use equity_csv::Row;
use lean_fixed::{Moment, Price, Shares};

// The random numbers are a linear congruence modulo 2^31.
const MODULUS: u64 = 2_147_483_648;

const MULTIPLIER: u64 = 1_103_515_245;

const INCREMENT: u64 = 12_345;

// Where the prices begin, and how far apart those of two securities are.
const FIRST_PRICE: u64 = 1_000_000;

const PRICE_BETWEEN: u64 = 10_000;

// No price is lower.
const LEAST_PRICE: u64 = 10_000;

// The most by which a price goes up or down in a minute.
const STEP: u64 = 1_000;

// A walk: its last random number and its last price.
#[derive(Drop)]
pub struct Walk {
    pub random: u64,
    pub price: u64,
}

impl Walk {
    // The walk of a security before its first row.
    pub fn new(number: u64, security: u64) -> Walk
        requires number { number ≤ 999999 }
        requires security { security < 16 }
        ensures random { result.random ≡ seed number security }
        ensures price { result.price ≡ first_price security }
        ensures range { result.random < 2147483648 }
    {
        Walk {
            random: (16 * number + security) % MODULUS,
            price: FIRST_PRICE + PRICE_BETWEEN * security,
        }
    }

    // The row of the minute that starts at a moment, behind which the walk goes on.
    pub fn next_row(&mut self, start: u64) -> Row
        requires start { start < midnight (last_day + 1) }
        requires range { self.old.random < 2147483648 }
        requires least { 10000 ≤ self.old.price }
        requires most { self.old.price ≤ 1000000000 }
        ensures row { result ≡ row_from start self.old.price (next_random self.old.random) }
        ensures valid { IsRow result }
        ensures random { self.new.random ≡ next_random self.old.random }
        ensures price { self.new.price ≡ next_price self.old.price (next_random self.old.random) }
        ensures range { self.new.random < 2147483648 }
        ensures least { 10000 ≤ self.new.price }
        ensures most { self.new.price ≤ self.old.price + 1000 }
    {
        let opening = self.price;
        self.random = next_random(self.random);
        self.price = next_price(opening, self.random);
        row_between(start, opening, self.price, self.random)
    }
}

// The random number after another one.
#[tactic(auto, unfolding(crate::specs::Walk::next_random))]
fn next_random(random: u64) -> u64
    requires { random < 2147483648 }
    ensures value { result ≡ next_random random }
    ensures range { result < 2147483648 }
{
    (MULTIPLIER * random + INCREMENT) % MODULUS
}

// The price to which a random number leads from another one.
#[tactic(auto, unfolding(crate::specs::Walk::next_price))]
fn next_price(price: u64, random: u64) -> u64
    requires least { 10000 ≤ price }
    requires most { price ≤ 1000000000 }
    ensures value { result ≡ next_price price random }
    ensures least { 10000 ≤ result }
    ensures most { result ≤ price + 1000 }
{
    let raised = price + random / 65_536 % (2 * STEP + 1);
    raised.saturating_sub(STEP).max(LEAST_PRICE)
}

// The row of a minute that opens at one price and closes at the next.
fn row_between(start: u64, opening: u64, closing: u64, random: u64) -> Row
    requires start { start < midnight (last_day + 1) }
    requires opening { 10000 ≤ opening }
    requires most_opening { opening ≤ 1000000000 }
    requires closing { 10000 ≤ closing }
    requires most_closing { closing ≤ 1000001000 }
    ensures row { result ≡ row_of start opening (max opening closing + random % 100)
        (min opening closing - random % 100) closing (100 + random % 900) }
    ensures valid { IsRow result }
{
    let wide = random % 100;
    row(
        start,
        opening,
        opening.max(closing) + wide,
        opening.min(closing) - wide,
        closing,
        100 + random % 900,
    )
}

fn row(start: u64, opening: u64, high: u64, low: u64, closing: u64, volume: u64) -> Row
    requires start { start < midnight (last_day + 1) }
    requires least { 1 ≤ low }
    requires low_opening { low ≤ opening }
    requires opening_high { opening ≤ high }
    requires low_closing { low ≤ closing }
    requires closing_high { closing ≤ high }
    requires most { high ≤ 10000000000 }
    requires volume { volume ≤ 1000000000000000 }
    ensures row { result ≡ row_of start opening high low closing volume }
    ensures valid { IsRow result }
{
    Row {
        start: Moment(start as i64),
        opening: Price(opening as i64),
        high: Price(high as i64),
        low: Price(low as i64),
        closing: Price(closing as i64),
        volume: Shares(volume as i64),
    }
}
