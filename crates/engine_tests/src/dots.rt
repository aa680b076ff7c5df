use backtest_engine::{Changes, Phase, Stop, Strategy};
use lean_fixed::{Moment, NoMemory};
use lean_items::{Arrival, FeedKey, FeedNo};
use lean_orders::{Command, Heard};
use order_book::Book;
use std::alloc::Global;

/// A strategy that prints a dot at each moment at which something ends.
#[derive(Drop)]
pub struct Dots {
    alloc: Global,
    text: Vec<u8>,
}

impl Dots {
    ghost use Rattle.std.specs.Prelude.{◌≡◌, [], List};
    ghost use Rattle.lean_items.specs.declared.feed_key.FeedKey.{FeedKey as Key};
    ghost use Rattle.backtest_engine.specs.Meaning.{State};
    ghost use Rattle.engine_tests.specs.Dots.{dots};

    /// Before its first moment.
    pub fn new(alloc: Global) -> Dots
        ensures stands { (s : State (List Key)) (keys : List Key) → ⟦<Dots as Strategy>⟧.stands result dots s keys }
    {
        Dots {
            alloc,
            text: Vec::new(alloc),
        }
    }
}

impl Strategy for Dots {
    ghost use Rattle.std.specs.Prelude.{◌≡◌, List};
    ghost use Rattle.lean_items.specs.declared.feed_key.FeedKey.{FeedKey as Key};
    ghost use Rattle.engine_tests.specs.Dots.{dots, PlaysDots, dots_pass, dots_say, dots_rest, takes_any, no_orders};

    ghost Own = { List Key };

    ghost stands = { λ d m s keys. m ≡ dots };

    ghost plays = { λ d m turn cs rs. PlaysDots d.text.items m turn cs rs };

    ghost meets = { λ m t slice s. takes_any t slice };

    ghost text = { λ d. d.text.items };

    ghost left = { λ d. 0 };

    ghost orders = { λ d. 0 };

    ghost few_orders = { λ d. no_orders };

    ghost passes = { λ d m turn cs rs plays finished next. dots_pass d.text.items m turn cs rs plays };

    ghost says = { λ d m turn cs rs plays finished. dots_say d.text.items m turn cs rs plays };

    ghost idle = { λ d m s t stands met none. dots_rest m s t stands };

    fn named(&mut self, key: &FeedKey, feed: FeedNo) -> Result<(), NoMemory> {
        Ok(())
    }

    fn arrive(&mut self, at: Moment, slice: &[Arrival]) -> Result<(), Stop> {
        self.text.clear();
        if slice.is_empty() {
            return Ok(());
        }
        match self.text.push(b'.') {
            Ok(()) => Ok(()),
            Err(_) => Err(Stop::NoMemory),
        }
    }

    fn next_command(&mut self, phase: Phase) -> Result<Option<Command>, Stop> {
        Ok(None)
    }

    fn hear(&mut self, heard: &Heard) -> Result<(), NoMemory> {
        Ok(())
    }

    fn close_moment(&mut self) -> Result<Changes, NoMemory> {
        Ok(Changes {
            added: Vec::new(self.alloc),
            removed: Vec::new(self.alloc),
        })
    }

    fn text(&self) -> &[u8] {
        &self.text
    }

    fn next_close(&self, after: Moment, until: Moment) -> Option<Moment> {
        None
    }

    fn summary(&self, book: &Book, out: &mut Vec<u8>) -> Result<(), NoMemory> {
        out.extend_from_slice(b"end\n")?;
        Ok(())
    }
}
