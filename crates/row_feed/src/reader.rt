ghost use Rattle.std.specs.Prelude.{◌≡◌, ◌≤◌, true};
ghost use Rattle.line_source.specs.Reader.{hand_of, number_of};

use lean_io::Hand;
use line_source::Lines;

/// The reader of the file that is open, or of none.
#[derive(Drop)]
pub struct Reader<H: Hand> {
    pub(crate) lines: Lines<H>,
    // whether a file is open that was not read to its end
    pub(crate) opened: bool,
    ghost open: { opened ≡ true → H.is_open (hand_of lines) ≡ true },
    ghost few: { opened ≡ true → number_of lines ≤ 10_000_000 },
}
