//! What a pool with workers does to the seats of its feeds.
ghost use Rattle.std.specs.Prelude.{◌≡◌, ◌<◌, true, false, vec_len, length, option_map, IfSome, MatchOption};
ghost use Rattle.feed_workers.specs.Shown.{shown, shut};
ghost use Rattle.feed_pool.specs.Crews.{show, show_all, shut_in, is_open_seat, Took, IsLeft, Collected};

use feed_workers::{Running, Seat};
use lean_items::{Feed, FeedNo, Item};
use std::sync::Wait;
use std::thread::Threads;

// Takes the next item of the feed whose seat stands in a place.
pub(crate) fn take_of<G: Feed + Drop + 'static, R: Wait>(rt: &R, slot: &mut Option<Seat<G>>) -> Item
    requires { is_open_seat (show slot.old) ≡ true }
    ensures { Took (show slot.old) (show slot.new) result }
{
    match slot {
        Some(seat) => seat.take(rt),
        None => unreachable!(),
    }
}

// The worker with the fewest turns, the first of those that have as few.
fn fewest<G: Feed + Drop + 'static>(workers: &Vec<Running<G>>) -> Option<usize>
    ensures { IfSome result (λ place. place < vec_len workers.now) }
{
    let mut found = None;
    let mut turns = u64::MAX;
    for place in 0..workers.len() {
        let own = workers[place].turns();
        if own < turns {
            turns = own;
            found = Some(place);
        }
    }
    found
}

// Sends the turn of a new feed to a worker, if there is one that has a place for it.
pub(crate) fn send_out<G: Feed + Drop + 'static, R: Wait>(
    rt: &R,
    workers: &mut Vec<Running<G>>,
    feed: FeedNo,
    mut seat: Seat<G>,
) -> Seat<G>
    ensures { shown result ≡ shown seat }
{
    match fewest(workers) {
        Some(station) => {
            seat.send(rt, feed, station, &mut workers[station]);
            seat
        }
        None => seat,
    }
}

// Nothing more is taken of the feed whose seat stands in a place. Whether a feed stands there.
fn shut_slot<G: Feed + Drop + 'static>(slot: &mut Option<Seat<G>>) -> bool
    ensures { show slot.new ≡ option_map shut (show slot.old) }
{
    match slot {
        Some(seat) => {
            seat.shut();
            true
        }
        None => false,
    }
}

// Nothing more is taken of the feed of a number. Whether a feed stands there.
fn shut_in_place<G: Feed + Drop + 'static>(seats: &mut Vec<Option<Seat<G>>>, place: usize) -> bool
    ensures shut { show_all seats.new.items ≡ shut_in (show_all seats.old.items) place }
    ensures count { vec_len seats.new ≡ vec_len seats.old }
{
    if place >= seats.len() {
        return false;
    }
    shut_slot(&mut seats[place])
}

// Nothing more is taken of the feed of a number, which is then one of those that leave.
pub(crate) fn shut_at<G: Feed + Drop + 'static>(
    seats: &mut Vec<Option<Seat<G>>>,
    leaving: &mut Vec<usize>,
    place: usize,
)
    ensures shut { show_all seats.new.items ≡ shut_in (show_all seats.old.items) place }
    ensures count { vec_len seats.new ≡ vec_len seats.old }
{
    let there = shut_in_place(seats, place);
    if there && leaving.len() < leaving.capacity() {
        leaving.push_reserved(place);
    }
}

// Whether nothing is to be waited for in a place: no feed stands there, or its turn is home.
fn is_home<G: Feed + Drop + 'static, R: Wait>(
    rt: &R,
    slot: &mut Option<Seat<G>>,
    feed: FeedNo,
    workers: &mut Vec<Running<G>>,
) -> bool
    ensures { show slot.new ≡ show slot.old }
{
    match slot {
        Some(seat) => seat.call_home(rt, feed, workers),
        None => true,
    }
}

// The first of the places of feeds that leave in which nothing is to be waited for.
fn find_home<G: Feed + Drop + 'static, R: Wait>(
    rt: &R,
    seats: &mut Vec<Option<Seat<G>>>,
    workers: &mut Vec<Running<G>>,
    leaving: &Vec<usize>,
) -> Option<usize>
    ensures found { IfSome result (λ i. i < vec_len leaving.now) }
    ensures same { show_all seats.new.items ≡ show_all seats.old.items }
    ensures count { vec_len seats.new ≡ vec_len seats.old }
{
    for i in 0..leaving.len() {
        if is_home_at(rt, seats, leaving[i], workers) {
            return Some(i);
        }
    }
    None
}

fn is_home_at<G: Feed + Drop + 'static, R: Wait>(
    rt: &R,
    seats: &mut Vec<Option<Seat<G>>>,
    place: usize,
    workers: &mut Vec<Running<G>>,
) -> bool
    ensures same { show_all seats.new.items ≡ show_all seats.old.items }
    ensures count { vec_len seats.new ≡ vec_len seats.old }
{
    if place >= seats.len() {
        return true;
    }
    is_home(rt, &mut seats[place], FeedNo(place as u64), workers)
}

// Lets the feed go whose seat stands in a place and was shut.
fn unseat<G: Feed + Drop + 'static, R: Wait>(rt: &R, slot: &mut Option<Seat<G>>) -> Option<G>
    ensures { MatchOption result (show slot.new ≡ show slot.old) (λ left. IsLeft (show slot.old) (show slot.new) left) }
{
    match slot.take() {
        Some(seat) => {
            if seat.is_open() {
                *slot = Some(seat);
                return None;
            }
            Some(seat.settle(rt))
        }
        None => None,
    }
}

fn unseat_at<G: Feed + Drop + 'static, R: Wait>(
    rt: &R,
    seats: &mut Vec<Option<Seat<G>>>,
    place: usize,
) -> Option<G>
    ensures collected { Collected (show_all seats.old.items) (show_all seats.new.items) result }
    ensures count { vec_len seats.new ≡ vec_len seats.old }
{
    if place >= seats.len() {
        return None;
    }
    unseat(rt, &mut seats[place])
}

// Lets a feed go that was removed and whose turn is home, if there is one.
pub(crate) fn collect<G: Feed + Drop + 'static, R: Wait>(
    rt: &R,
    seats: &mut Vec<Option<Seat<G>>>,
    workers: &mut Vec<Running<G>>,
    leaving: &mut Vec<usize>,
) -> Option<G>
    ensures collected { Collected (show_all seats.old.items) (show_all seats.new.items) result }
    ensures count { vec_len seats.new ≡ vec_len seats.old }
    ensures fewer { IfSome result (λ left. vec_len leaving.new < vec_len leaving.old) }
{
    match find_home(rt, seats, workers, leaving) {
        Some(i) => {
            let place = leaving.swap_remove(i);
            unseat_at(rt, seats, place)
        }
        None => None,
    }
}

// Stops the workers. All turns that they had come home.
pub(crate) fn stop_all<G: Feed + Drop + 'static, R: Wait + Threads>(
    rt: &R,
    workers: &mut Vec<Running<G>>,
) {
    while let Some(worker) = workers.pop() {
        worker.join(rt);
    }
}
