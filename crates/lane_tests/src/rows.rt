ghost use Rattle.std.specs.Prelude.{◌≡◌, ◌+◌, ◌<◌, ◌^◌};

use lean_fixed::Moment;
use lean_items::{CoarseRow, Feed, Item};

/// A feed that tells no list: some equal rows, and then the end or a read that fails.
#[derive(Drop)]
pub struct Rows {
    row: CoarseRow,
    left: u64,
    fails: bool,
    ended: bool,
    faults: u64,
    ghost few: { left + 1 < 2 ^ 40 },
}

impl Rows {
    ghost use Rattle.std.specs.Prelude.{◌≡◌, ◌+◌, ◌<◌, ◌^◌, false};

    /// So many rows, and whether a read fails behind them.
    pub fn new(row: CoarseRow, count: u64, fails: bool) -> Rows
        requires { count + 1 < 2 ^ 40 }
        ensures { ⟦<Rows as Feed>⟧.has_ended result ≡ false }
    {
        Rows {
            row,
            left: count,
            fails,
            ended: false,
            faults: 0,
        }
    }
}

impl Feed for Rows {
    ghost use Rattle.std.specs.Prelude.{◌≡◌, ⊤};

    ghost leaves = { λ feed list. ⊥ };

    ghost has_ended = { λ feed. feed.ended };

    ghost room = { λ feed. feed.left };

    ghost faults = { λ feed. feed.faults };

    ghost few = { λ feed. feed.few };

    fn next(&mut self) -> Item {
        if self.left > 0 {
            self.left -= 1;
            return Item::Coarse(Moment(0), *&self.row);
        }
        self.ended = true;
        if self.fails {
            self.faults = self.faults.saturating_add(1);
            return Item::Faulted;
        }
        Item::End
    }
}
