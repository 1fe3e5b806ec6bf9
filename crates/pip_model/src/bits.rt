//! Sets of numbers kept as bits.
ghost use Rattle.std.specs.Prelude.{◌≡◌, ◌↔◌, ◌<◌, ◌≤◌, ◌*◌, ◌⊎◌, ℕ, length, IsTrue, IfOk};
ghost use Rattle.pip_model.specs.Bits.{HasBit};

use std::alloc::{AllocError, Global};
use std::marker::Model;

/// The bits of a word.
pub const WORD_BITS: usize = 64;

// A set of small numbers. Contracts see it as its words, of which word k / 64 has the bit k % 64 of
// number k.
#[derive(Drop)]
pub(crate) struct BitSet {
    words: Vec<u64>,
}

impl Model for BitSet {
    ghost use Rattle.std.specs.Prelude.{List, ℕ};

    ghost Value = { List ℕ };

    ghost view = { λ s. s.words.items };
}

// Adds the bits of a word to another.
fn join_words(row: &mut [u64], other: &[u64])
    requires { length other.now ≤ length row.old }
    ensures { (k : ℕ) → HasBit row.new k ↔ (HasBit row.old k ⊎ HasBit other.now k) }
{
    'words: for place in 0..other.len() {
        row[place] |= other[place];
    }
}

fn add_bit(row: &mut [u64], number: usize)
    requires { number < length row.old * WORD_BITS }
    ensures { (k : ℕ) → HasBit row.new k ↔ (HasBit row.old k ⊎ (k ≡ number)) }
{
    row[number / WORD_BITS] |= 1 << (number % WORD_BITS);
}

impl BitSet {
    // The empty set of numbers below 64 times `words`.
    pub(crate) fn empty(alloc: Global, words: usize) -> Result<BitSet, AllocError>
        ensures size { IfOk result (λ set. length set ≡ words) }
        ensures none { IfOk result (λ set. (k : ℕ) → HasBit set k → ⊥) }
    {
        Ok(BitSet {
            words: vec![in alloc; 0u64; words]?,
        })
    }

    // Adds a number.
    pub(crate) fn add(&mut self, number: usize)
        requires { number < length self.old * WORD_BITS }
        ensures size { length self.new ≡ length self.old }
        ensures added { (k : ℕ) → HasBit self.new k ↔ (HasBit self.old k ⊎ (k ≡ number)) }
    {
        add_bit(self.words.as_mut_slice(), number);
    }

    // Adds the numbers of another set, which has no more words.
    pub(crate) fn join(&mut self, other: &BitSet)
        requires { length other.now ≤ length self.old }
        ensures size { length self.new ≡ length self.old }
        ensures joined { (k : ℕ) → HasBit self.new k ↔ (HasBit self.old k ⊎ HasBit other.now k) }
    {
        join_words(self.words.as_mut_slice(), other.words.as_slice());
    }

    // Whether a number is in the set.
    pub(crate) fn has(&self, number: usize) -> bool
        ensures { IsTrue result ↔ HasBit self.now number }
    {
        let place = number / WORD_BITS;
        if place >= self.words.len() {
            return false;
        }
        (self.words[place] >> (number % WORD_BITS)) & 1 == 1
    }
}
