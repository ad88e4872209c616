//! Bits in words.
ghost use Rattle.std.specs.Int.{bit_at};
ghost use Rattle.std.specs.Prelude.{◌≡◌, ◌≢◌, ◌==◌, ◌||◌, ◌<◌, ◌≤◌, ◌+◌, ◌-◌, ◌*◌, ◌/◌, ◌^◌, ℕ};
ghost use Rattle.std.specs.Prelude.{IfNone, IfOk, IfSome, length, slice_index_or};
ghost use Rattle.ready_work.specs.Lowest.{IsFrom, IsLowest, IsNone};
ghost use Rattle.ready_work.specs.WordBits.{bit_in, HasBit, IsInWord, Summarizes};

use std::alloc::{AllocError, Global};

/// Bits, numbered through all words.
#[derive(Drop)]
pub(crate) struct Bits {
    words: Vec<u64>,
}

impl Bits {
    /// Bits that are all clear, as many as are asked for or a few more.
    pub(crate) fn clear(alloc: Global, len: usize) -> Result<Bits, AllocError>
        ensures room { IfOk result (λ bits. len ≤ 64 * length bits.words.items) }
        ensures few { IfOk result (λ bits. 64 * length bits.words.items < len + 64) }
        ensures clear { IfOk result (λ bits. (i : ℕ) → slice_index_or bits.words.items i 0 ≡ 0) }
    {
        let words = vec![in alloc; 0; len.div_ceil(64)]?;
        Ok(Bits { words })
    }

    /// How many words there are.
    pub(crate) fn word_count(&self) -> usize
        ensures { result ≡ length self.now.words.items }
    {
        self.words.len()
    }

    // The word at a place.
    fn word(&self, place: usize) -> u64
        requires { place < length self.now.words.items }
        ensures { result ≡ slice_index_or self.now.words.items place 0 }
    {
        self.words[place]
    }

    /// Whether a bit is set.
    pub(crate) fn has(&self, number: usize) -> bool
        requires { number / 64 < length self.now.words.items }
        ensures { result ≡ (bit_in self.now.words.items number == 1) }
    {
        self.words[number / 64] >> (number % 64) & 1 == 1
    }

    /// Turns a bit round, and tells whether its word was 0 or is 0 now.
    pub(crate) fn flip(&mut self, number: usize) -> bool
        requires { number / 64 < length self.old.words.items }
        ensures size { length self.new.words.items ≡ length self.old.words.items }
        ensures flipped { bit_in self.new.words.items number ≡ 1 - bit_in self.old.words.items number }
        ensures bits { (k : ℕ) → k ≢ number → bit_in self.new.words.items k ≡ bit_in self.old.words.items k }
        ensures words { (i : ℕ) → i ≢ number / 64 → slice_index_or self.new.words.items i 0 ≡ slice_index_or self.old.words.items i 0 }
        ensures empty { result ≡ ((slice_index_or self.old.words.items (number / 64) 0 == 0) || (slice_index_or self.new.words.items (number / 64) 0 == 0)) }
    {
        let word = self.words[number / 64];
        let flipped = with_bit_flipped(word, number % 64);
        self.words[number / 64] = flipped;
        word == 0 || flipped == 0
    }

    /// Turns a bit round, and the bit of its word in the summary where the word was 0 or is 0 now.
    pub(crate) fn flip_with(&mut self, summary: &mut Bits, number: usize)
        requires within { number / 64 < length self.old.words.items }
        requires summarized { Summarizes self.old.words.items summary.old.words.items }
        ensures size { length self.new.words.items ≡ length self.old.words.items }
        ensures flipped { bit_in self.new.words.items number ≡ 1 - bit_in self.old.words.items number }
        ensures bits { (k : ℕ) → k ≢ number → bit_in self.new.words.items k ≡ bit_in self.old.words.items k }
        ensures summarized { Summarizes self.new.words.items summary.new.words.items }
    {
        if self.flip(number) {
            summary.flip(number / 64);
        }
    }

    /// The lowest bit from a number on that is set: in the number's own word, or else in the next
    /// word that the summary has.
    pub(crate) fn next_by(&self, summary: &Bits, from: usize) -> Option<usize>
        requires { Summarizes self.now.words.items summary.now.words.items }
        ensures some { IfSome result (IsLowest (IsFrom from (HasBit self.now.words.items))) }
        ensures none { IfNone result (IsNone (IsFrom from (HasBit self.now.words.items))) }
    {
        if let Some(number) = self.next_in_word(from) {
            return Some(number);
        }
        let place = summary.next_from(from / 64 + 1)?;
        Some(self.lowest_in(place))
    }

    /// The lowest bit from a number on that is set, by a look at each word.
    pub(crate) fn next_from(&self, from: usize) -> Option<usize>
        requires { length self.now.words.items ≤ 2 ^ 26 }
        ensures some { IfSome result (IsLowest (IsFrom from (HasBit self.now.words.items))) }
        ensures none { IfNone result (IsNone (IsFrom from (HasBit self.now.words.items))) }
    {
        let first = self.next_in_word(from);
        if first.is_some() {
            return first;
        }
        for place in from / 64 + 1..self.words.len() {
            let next = self.next_in_word(place * 64);
            if next.is_some() {
                return next;
            }
        }
        None
    }

    /// The lowest bit from a number on that is set in the number's own word.
    pub(crate) fn next_in_word(&self, from: usize) -> Option<usize>
        requires { length self.now.words.items ≤ 2 ^ 26 }
        ensures word { IfSome result (λ k. k / 64 ≡ from / 64) }
        ensures some { IfSome result (IsLowest (IsFrom from (HasBit self.now.words.items))) }
        ensures none { IfNone result (IsNone (IsFrom from (IsInWord self.now.words.items (from / 64)))) }
    {
        let place = from / 64;
        if place >= self.words.len() {
            return None;
        }
        let rest = bits_from(self.words[place], from % 64);
        if rest == 0 {
            return None;
        }
        Some(place * 64 + rest.trailing_zeros() as usize)
    }

    /// The lowest bit that is set in a word that isn't 0.
    pub(crate) fn lowest_in(&self, place: usize) -> usize
        requires few { length self.now.words.items ≤ 2 ^ 26 }
        requires filled { 0 < slice_index_or self.now.words.items place 0 }
        ensures { IsLowest (IsFrom (place * 64) (HasBit self.now.words.items)) result }
    {
        place * 64 + self.word(place).trailing_zeros() as usize
    }
}

// The word with the bits below a place cleared.
fn bits_from(word: u64, place: usize) -> u64
    requires { place < 64 }
    ensures below { (i : ℕ) → i < place → bit_at result i ≡ 0 }
    ensures from { (i : ℕ) → i < 64 → place ≤ i → bit_at result i ≡ bit_at word i }
{
    word & (u64::MAX << place)
}

// The word with one bit turned round.
fn with_bit_flipped(word: u64, place: usize) -> u64
    requires { place < 64 }
    ensures flipped { bit_at result place ≡ 1 - bit_at word place }
    ensures others { (i : ℕ) → i < 64 → i ≢ place → bit_at result i ≡ bit_at word i }
{
    word ^ (1 << place)
}
