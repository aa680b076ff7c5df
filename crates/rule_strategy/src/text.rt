ghost use Rattle.std.specs.Prelude.{◌≡◌, ◌≤◌, length};

use std::marker::Model;

/// The text of an expression, of at most 1,000 bytes. Contracts see the bytes.
#[derive(Drop)]
pub(crate) struct ShortText<'t> {
    text: &'t str,
    ghost short: { length text.now ≤ 1000 },
}

impl<'t> Model for ShortText<'t> {
    ghost use Rattle.std.specs.Prelude.{List, ℕ};

    ghost Value = { List ℕ };

    ghost view = { λ t. t.text.now };
}

impl<'t> ShortText<'t> {
    pub(crate) fn new(text: &'t str) -> ShortText<'t>
        requires { length text.now ≤ 1000 }
        ensures { result ≡ text.now }
    {
        ShortText { text }
    }

    pub(crate) fn bytes(&self) -> &[u8]
        ensures value { result.now ≡ self.now }
        ensures short { length result.now ≤ 1000 }
    {
        self.text.as_bytes()
    }
}
