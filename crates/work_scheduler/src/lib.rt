//! What a worker does: turns, which send the items of a feed into its lane, the choice of the next turn, and the shelf that a
//! worker's turns stand on. What a turn has sent, and then the item that it holds, follows the list of its feed.
#![tactic(auto)]

mod picking;
mod placing;
mod rounds;
mod shelf;
mod shelving;
mod turn;
mod turning;

pub use picking::pick;
pub use placing::Placing;
pub use shelf::Shelf;
pub use shelving::Placed;
pub use turn::Turn;
pub use turning::{Parts, Pumped};
