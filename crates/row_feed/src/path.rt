//! The path of a file, in a text that is written again and again.
ghost use Rattle.std.specs.Prelude.{◌≡◌, ◌≤◌, string_bytes, string_capacity};
ghost use Rattle.lean_fixed.specs.Calendar.{last_day};
ghost use Rattle.feed_paths.specs.Paths.{path};

use feed_paths::path_text;
use lean_items::FeedKey;

/// The most bytes of a path.
pub const MOST_BYTES: usize = 80;

/// Writes the path of a file in place of what stands in the text.
pub fn write_path(key: &FeedKey, file: u32, text: &mut String)
    requires file { file ≤ last_day }
    requires room { 80 ≤ string_capacity text.old }
    ensures path { string_bytes text.new ≡ path key.now file }
    ensures room { 80 ≤ string_capacity text.new }
{
    text.clear();
    match path_text(*key, file, text) {
        Ok(()) => {}
        Err(_) => unreachable!(),
    }
}
