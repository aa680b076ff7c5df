ghost use Rattle.std.specs.Prelude.{◌≡◌, MatchOption};
ghost use Rattle.std.specs.List.{All};
ghost use Rattle.work_scheduler.specs.Picked.{IsPick};

/// The place of the greatest room, and of several such the least. `None`: all rooms are 0, or there are none.
pub fn pick(rooms: &[u32]) -> Option<usize>
    ensures { MatchOption result (All (λ room. room ≡ 0) rooms.now) (IsPick rooms.now) }
{
    let mut most = 0;
    let mut found = None;
    for (place, room) in rooms.iter().enumerate() {
        if *room > most {
            most = *room;
            found = Some(place);
        }
    }
    found
}
