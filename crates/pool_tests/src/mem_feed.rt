use crate::Script;
use lean_items::{Feed, Item};

/// A feed of the items of a script.
#[derive(Drop)]
pub struct MemFeed {
    script: Script,
    place: usize,
    ended: bool,
    faults: u64,
}

impl MemFeed {
    ghost use Rattle.std.specs.Prelude.{◌≡◌, false};
    ghost use Rattle.pool_tests.specs.Scripts.{list_of, items_of};

    /// The feed of a script from its start.
    pub fn new(script: Script) -> MemFeed
        ensures leaves { ⟦<MemFeed as Feed>⟧.leaves result (list_of (items_of script)) }
        ensures open { ⟦<MemFeed as Feed>⟧.has_ended result ≡ false }
        ensures faults { ⟦<MemFeed as Feed>⟧.faults result ≡ 0 }
    {
        MemFeed {
            script,
            place: 0,
            ended: false,
            faults: 0,
        }
    }
}

impl Feed for MemFeed {
    ghost use Rattle.std.specs.Prelude.{◌≡◌, ◌-◌, drop, vec_len};
    ghost use Rattle.pool_tests.specs.Scripts.{list_of, items_of, room_few};

    ghost leaves = { λ feed list. list ≡ list_of (drop feed.place (items_of feed.script)) };

    ghost has_ended = { λ feed. feed.ended };

    ghost room = { λ feed. vec_len feed.script.items - feed.place };

    ghost faults = { λ feed. feed.faults };

    ghost few = { λ feed. room_few (vec_len feed.script.items) feed.place feed.script.few };

    fn next(&mut self) -> Item {
        let item = self.script.at(self.place);
        match item {
            Item::Bar(_) => self.place += 1,
            Item::Coarse(_, _) => self.place += 1,
            Item::Bad(_) => self.ended = true,
            Item::Faulted => {
                self.ended = true;
                self.faults = self.faults.saturating_add(1);
            }
            Item::End => self.ended = true,
        }
        item
    }
}
