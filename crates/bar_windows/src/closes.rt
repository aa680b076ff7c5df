//! The last closes of a security.

ghost use Rattle.std.specs.Prelude.{◌≡◌, ◌-◌, [], ◌∷◌, ◌++◌, length, slice_get, None, nat_lt, if◌then◌else◌, All, IfOk};
ghost use Rattle.circular_buffer.specs.Buffer.{buffer, keep_last};
ghost use Rattle.lean_fixed.specs.Ranges.{IsPrice};

use circular_buffer::HeapCircularBuffer;
use lean_fixed::{NoMemory, Price};
use std::alloc::Global;
use std::marker::Model;

// The last closes, of which each is a price, and how many there may be.
#[derive(Drop)]
pub(crate) struct Closes {
    ring: HeapCircularBuffer<Price>,
}

impl Model for Closes {
    ghost use Rattle.std.specs.Prelude.{All};
    ghost use Rattle.circular_buffer.specs.Buffer.{Buffer};
    ghost use Rattle.lean_fixed.specs.Ranges.{IsPrice};
    ghost use Rattle.lean_fixed.specs.declared.money.Price.{Price};

    ghost Value = { Buffer Price };

    ghost view = { λ c. c.ring };

    ghost invariant = { λ c. All (λ close. IsPrice close.0) c.ring.items };
}

impl Closes {
    pub(crate) fn new(alloc: Global, most: usize) -> Result<Closes, NoMemory>
        ensures { IfOk result (λ closes. closes ≡ buffer [] most) }
    {
        let ring = HeapCircularBuffer::with_capacity(alloc, most)?;
        Ok(Closes { ring })
    }

    // The first close leaves where there is no room for one more.
    pub(crate) fn push(&mut self, close: Price)
        requires { IsPrice close.0 }
        ensures { self.new ≡ buffer (keep_last self.old.capacity (self.old.items ++ close ∷ [])) self.old.capacity }
    {
        self.ring.push_back(close);
    }

    pub(crate) fn len(&self) -> usize
        ensures { result ≡ length self.now.items }
    {
        self.ring.len()
    }

    // The close that came so many before the last.
    pub(crate) fn before(&self, count: usize) -> Option<Price>
        ensures close { result ≡ (if nat_lt count (length self.now.items) then slice_get self.now.items (length self.now.items - count - 1) else None) }
        ensures prices { All (λ close. IsPrice close.0) self.now.items }
    {
        self.ring.nth_back(count).copied()
    }
}
