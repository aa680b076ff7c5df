ghost use Rattle.std.specs.Prelude.{◌≤◌, string_capacity};

use crate::course::Course;
use crate::reader::Reader;
use lean_io::Hand;

/// The feed of a key's kept rows, over a hand of the folder.
#[derive(Drop)]
pub struct RowFeed<H: Hand> {
    pub(crate) reader: Reader<H>,
    pub(crate) course: Course,
    // the path of the last file, in a text that is made once
    pub(crate) path: String,
    // whether the last item was given
    pub(crate) ended: bool,
    ghost path_room: { 80 ≤ string_capacity path },
}
