ghost use Rattle.std.specs.Prelude.{◌≡◌, ◌+◌, ◌≤◌, ◌++◌, length, take, drop, if◌then◌else◌, nat_eq, refl, Some};
ghost use Rattle.std.specs.List.{list_all};
ghost use Rattle.std.specs.Ordering.{nat_cmp};
ghost use Rattle.std.specs.Cmp.{partial_equiv_from_equiv};
ghost use Rattle.std.specs.Cmp.Lexicographic.{pointwise, bytes_decides, slice_cmp, nat_list_eq_equiv, nat_list_cmp_total, texts_po, texts_ties};
ghost use Rattle.std.specs.Hash as fed;
ghost use Rattle.lean_fixed.specs.Symbol.{is_symbol, is_symbol_byte};
ghost use Rattle.lean_fixed.specs.Padded.{padded_to, padded_writes};

use std::cmp::Ordering;
use std::hash::{Hash, Hasher};
use std::marker::Model;

// The most bytes of a symbol.
const MOST: usize = 12;

/// The name of a security: 1 to 12 of the bytes `A` to `Z`, `0` to `9` and `.`, of which the first is no `.`. Contracts
/// see it as the list of these bytes, and symbols are ordered by them.
#[derive(Clone, Copy, Debug)]
pub struct Symbol {
    // the bytes of the name, and zeros behind them
    padded: [u8; MOST],
    len: u8,
}

impl Model for Symbol {
    ghost use Rattle.std.specs.Prelude.{List, ℕ, take, length};
    ghost use Rattle.lean_fixed.specs.Padded.{padded_to, IsPadded, length-kept, padded_to-kept};

    ghost Value = { List ℕ };

    ghost view = { λ s. take s.len s.padded };

    ghost invariant = { λ s. IsPadded s.padded s.len };

    ghost inverse = { λ text. record { padded = padded_to 12 text; len = length text } };

    ghost inverse_ok = { λ s kept i. record {
      padded = padded_to-kept s.padded s.len kept i;
      len = length-kept s.padded s.len kept i;
    } };
}

impl Symbol {
    /// The symbol that the bytes spell. `None` exactly where they are not 1 to 12 of `A` to `Z`, `0` to `9` and `.`, or
    /// begin with `.`.
    pub fn read(bytes: &[u8]) -> Option<Symbol>
        ensures { result ≡ (if is_symbol bytes.now then Some bytes.now else None) }
    {
        if !spells_symbol(bytes) {
            return None;
        }
        let mut padded = [0; MOST];
        padded[..bytes.len()].copy_from_slice(bytes);
        Some(Symbol {
            padded,
            len: bytes.len() as u8,
        })
    }

    /// The bytes of the name.
    pub fn bytes(&self) -> &[u8]
        ensures value { result.now ≡ self.now }
    {
        &self.padded[..self.len as usize]
    }

    // The twelve bytes that are kept.
    fn padded(&self) -> &[u8]
        ensures value { result.now ≡ padded_to 12 self.now }
        ensures size { length result.now ≡ 12 }
    {
        &self.padded
    }

    /// Writes the bytes of the name at a place of a buffer, and gives the place behind them. The twelve bytes from the place
    /// on are written, whatever the name's length, since a copy of a known length needs no call.
    #[inline]
    pub fn put(&self, buffer: &mut [u8], place: usize) -> usize
        requires room { place + 12 ≤ length buffer.old }
        ensures end { result ≡ place + length self.now }
        ensures size { length buffer.new ≡ length buffer.old }
        ensures written { take result buffer.new ≡ take place buffer.old ++ self.now }
        ensures rest { drop (place + 12) buffer.new ≡ drop (place + 12) buffer.old }
        ensures most { result ≤ place + 12 }
    {
        let name: &[u8] = &self.padded;
        buffer[place..place + MOST].copy_from_slice(name);
        place + self.len as usize
    }
}

fn spells_symbol(bytes: &[u8]) -> bool
    ensures { result ≡ is_symbol bytes.now }
{
    if bytes.is_empty() || bytes.len() > MOST || bytes[0] == b'.' {
        return false;
    }
    are_symbol_bytes(bytes)
}

fn are_symbol_bytes(bytes: &[u8]) -> bool
    ensures { result ≡ list_all is_symbol_byte bytes.now }
{
    bytes.iter().all(|byte| is_symbol_letter(*byte))
}

fn is_symbol_letter(byte: u8) -> bool
    ensures { result ≡ is_symbol_byte byte }
{
    byte.is_ascii_uppercase() || byte.is_ascii_digit() || byte == b'.'
}

impl PartialEq for Symbol {
    ghost eq = { pointwise nat_eq };

    ghost laws = { partial_equiv_from_equiv nat_list_eq_equiv };

    fn eq(&self, other: &Self) -> bool {
        self.bytes() == other.bytes()
    }
}

impl Eq for Symbol {
    ghost laws = { nat_list_eq_equiv };
}

impl PartialOrd for Symbol {
    ghost partial_cmp = { λ a b. Some (slice_cmp nat_cmp a b) };

    ghost laws = { texts_po };

    fn partial_cmp(&self, other: &Self) -> Option<Ordering> {
        Some(self.cmp(other))
    }
}

impl Ord for Symbol {
    ghost cmp = { slice_cmp nat_cmp };

    ghost total = { nat_list_cmp_total };

    ghost matches_partial_cmp = { λ a b. refl };

    ghost matches_eq = { texts_ties };

    fn cmp(&self, other: &Self) -> Ordering {
        self.bytes().cmp(other.bytes())
    }
}

impl Hash for Symbol {
    ghost hash_input = { padded_writes };

    ghost respects_eq = { (fed.same_Alike padded_writes bytes_decides).fed };

    // Two writes of known lengths, where one of each byte would be some ten steps more for each. They are cut where the copy of
    // a symbol is cut, so that a hasher need not wait for it.
    fn hash<H: Hasher>(&self, state: &mut H) {
        let padded = self.padded();
        state.write(&padded[..8]);
        state.write(&padded[8..12]);
    }
}
