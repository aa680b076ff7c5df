ghost use Rattle.std.specs.Prelude.{◌≡◌, IfOk};

use std::alloc::{AllocError, Global};
use std::marker::Model;

/// The key that a fault of an algorithm file names, whole. Contracts see the list of its bytes.
#[derive(Debug, Drop)]
pub struct KeyText(Held);

/// A key of the format, which takes no memory, or one that a file has.
#[derive(Debug, Drop)]
pub(crate) enum Held {
    Known(&'static str),
    Read(Vec<u8>),
}

impl Model for KeyText {
    ghost use Rattle.std.specs.Prelude.{List, ℕ};
    ghost use Rattle.rule_strategy.specs.Keys.{key_of};

    ghost Value = { List ℕ };

    ghost view = { λ k. key_of k.0 };
}

impl KeyText {
    pub(crate) fn known(key: &'static str) -> KeyText
        ensures { result ≡ key.now }
    {
        KeyText(Held::Known(key))
    }

    pub(crate) fn read(alloc: Global, key: &str) -> Result<KeyText, AllocError>
        ensures { IfOk result (λ k. k ≡ key.now) }
    {
        let mut bytes = Vec::new(alloc);
        bytes.extend_from_slice(key.as_bytes())?;
        Ok(KeyText(Held::Read(bytes)))
    }

    /// The bytes of the key, after quotes and escapes.
    pub fn bytes(&self) -> &[u8]
        ensures { result.now ≡ self.now }
    {
        match &self.0 {
            Held::Known(key) => key.as_bytes(),
            Held::Read(bytes) => bytes,
        }
    }
}
