ghost use Rattle.std.specs.Prelude.{◌<◌, ◌≤◌};

use crate::{Kind, Rows, kind_of};
use feed_queue::{Reader, lane};
use lean_fixed::NoMemory;
use lean_items::{CoarseRow, FeedNo, Item};
use std::alloc::Global;
use std::sync::Wait;
use work_scheduler::{Pumped, Shelf, Turn};

// A turn of so many rows into a lane of so many places.
fn turn_of(
    alloc: Global,
    row: CoarseRow,
    rows: u64,
    places: usize,
) -> Result<(Turn<Rows>, Reader<Item>), NoMemory>
    requires rows { rows < 1000 }
    requires some { 0 < places }
    requires few { places ≤ 1000 }
{
    let (writer, reader) = lane(alloc, places)?;
    Ok((Turn::new(Rows::new(row, rows, false), writer), reader))
}

// Puts a turn on a shelf, and says whether there was a place.
fn put(shelf: &mut Shelf<Rows>, number: u64, turn: Turn<Rows>) -> bool {
    match shelf.lift(FeedNo(number)) {
        Some(_) => false,
        None => shelf.place(FeedNo(number), turn).is_ok(),
    }
}

/// A shelf of one place: whether an empty one has nothing to pump, whether turns 3 and 4 are placed, and whether then turns 4, 3
/// and 3 again are lifted.
pub fn one_turn<R: Wait>(rt: &R, alloc: Global, row: CoarseRow) -> Result<[bool; 6], NoMemory> {
    let mut shelf = Shelf::new(alloc, 1)?;
    let (third, _reader) = turn_of(alloc, *&row, 1, 8)?;
    let (fourth, _other) = turn_of(alloc, row, 1, 8)?;
    let idle = shelf.round(rt, 32).is_none();
    let placed = put(&mut shelf, 3, third);
    let refused = put(&mut shelf, 4, fourth);
    let other = shelf.lift(FeedNo(4)).is_some();
    let lifted = shelf.lift(FeedNo(3)).is_some();
    let again = shelf.lift(FeedNo(3)).is_some();
    Ok([idle, placed, refused, other, lifted, again])
}

/// What rounds of a shelf gave.
#[derive(Drop)]
pub struct Rounds {
    pub rounds: [Option<Pumped>; 6],
    pub wide: Kind,
    pub narrow: [Kind; 2],
}

/// Two turns, of two rows into a wide lane and of one row into a lane of one place: rounds, with one item popped of the narrow lane
/// after the fourth.
pub fn two_turns<R: Wait>(rt: &R, alloc: Global, row: CoarseRow) -> Result<Rounds, NoMemory> {
    let mut shelf = Shelf::new(alloc, 2)?;
    let (turn, mut narrow) = turn_of(alloc, *&row, 1, 1)?;
    let (other, mut wide) = turn_of(alloc, row, 2, 8)?;
    let _ = put(&mut shelf, 9, turn);
    let _ = put(&mut shelf, 2, other);
    let first = shelf.round(rt, 2);
    let from_wide = wide.pop(rt);
    let early = narrow.pop(rt);
    let second = shelf.round(rt, 32);
    let third = shelf.round(rt, 32);
    let fourth = shelf.round(rt, 32);
    let from_narrow = narrow.pop(rt);
    let fifth = shelf.round(rt, 32);
    let sixth = shelf.round(rt, 32);
    Ok(Rounds {
        rounds: [first, second, third, fourth, fifth, sixth],
        wide: kind_of(from_wide),
        narrow: [kind_of(early), kind_of(from_narrow)],
    })
}
