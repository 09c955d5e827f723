//! Rows of bits, kept as words of 64 bits.

ghost use Rattle.std.specs.Prelude.{◌≡◌, ℕ, ◌+◌, ◌*◌, ◌/◌, ◌%◌, ◌^◌, ◌<◌, ◌≤◌, ◌↔◌, ◌⊎◌, true, false, length, IsTrue, IfOk, slice_index, bit_and, bit_or};
ghost use Rattle.site_graph.specs.Bits.{IsSet, AreInOrder, no_bits, IsWith, IsJoined, Gains, IsWithCommon};
ghost use Rattle.site_graph.specs.BitWords.{words_a_row, bit_of, AreAdded, Adds};

use sc_base::OutOfMemory;
use std::alloc::Global;
use std::marker::Model;

/// A relation between numbers below `rows` and numbers below `columns`, seen as these two sizes and the list of its
/// set pairs, by row and then by column.
#[derive(Debug, Drop)]
pub struct BitRows {
    rows: u32,
    columns: u32,
    words: Vec<u64>,
}

impl Model for BitRows {
    ghost use Rattle.site_graph.specs.Bits.{Bits};

    ghost Value = { Bits };

    ghost use Rattle.site_graph.specs.BitWords.{bits_of, AreRows};

    ghost view = { bits_of };

    ghost invariant = { AreRows };
}

impl BitRows {
    /// No pair of these sizes is set.
    pub fn new(alloc: Global, rows: u32, columns: u32) -> Result<BitRows, OutOfMemory>
        ensures { IfOk result (λ b. b ≡ no_bits rows columns) }
    {
        let Ok(words) = vec![in alloc; 0u64; place_of(columns, rows, 0)] else {
            return Err(OutOfMemory);
        };
        Ok(BitRows {
            rows,
            columns,
            words,
        })
    }

    /// How many rows there are.
    pub fn rows(&self) -> u32
        ensures rows { result ≡ self.now.rows }
        ensures in_order { AreInOrder self.now }
    {
        self.rows
    }

    /// How many columns there are.
    pub fn columns(&self) -> u32
        ensures columns { result ≡ self.now.columns }
        ensures in_order { AreInOrder self.now }
    {
        self.columns
    }

    /// Whether the pair is set.
    pub fn get(&self, row: u32, column: u32) -> bool
        requires row { row < self.now.rows }
        requires column { column < self.now.columns }
        ensures { IsTrue result ↔ IsSet self.now row column }
    {
        let word = self.words[place_of(self.columns, row, column)];
        has_bit(word, column)
    }

    /// Sets the pair.
    pub fn set(&mut self, row: u32, column: u32)
        requires row { row < self.old.rows }
        requires column { column < self.old.columns }
        ensures { IsWith row column self.old self.new }
    {
        let place = place_of(self.columns, row, column);
        let word = self.words[place];
        self.words[place] = with_bit(word, column);
    }

    /// Sets in the row what is set in the row `from`, word by word, and tells whether anything was not set there before.
    pub fn join(&mut self, row: u32, from: u32) -> bool
        requires row { row < self.old.rows }
        requires from { from < self.old.rows }
        ensures joined { IsJoined row from self.old self.new }
        ensures gains { IsTrue result ↔ Gains row from self.old }
    {
        let to = place_of(self.columns, row, 0);
        let from = place_of(self.columns, from, 0);
        let width = row_width(self.columns);
        join_words(&mut self.words, to, from, width)
    }

    /// Sets in the row what is set both in a row of `a` and in one of `b`, word by word.
    pub fn add_common(&mut self, row: u32, a: &BitRows, a_row: u32, b: &BitRows, b_row: u32)
        requires row { row < self.old.rows }
        requires a_row { a_row < a.now.rows }
        requires b_row { b_row < b.now.rows }
        requires a_columns { a.now.columns ≡ self.old.columns }
        requires b_columns { b.now.columns ≡ self.old.columns }
        ensures { IsWithCommon row a.now a_row b.now b_row self.old self.new }
    {
        let to = place_of(self.columns, row, 0);
        let from_a = place_of(self.columns, a_row, 0);
        let from_b = place_of(self.columns, b_row, 0);
        let width = row_width(self.columns);
        add_words(
            &mut self.words,
            to,
            &a.words,
            from_a,
            &b.words,
            from_b,
            width,
        );
    }
}

/// How many words a row of so many bits takes.
fn row_width(columns: u32) -> usize
    ensures { result ≡ words_a_row columns }
{
    (columns as usize + 63) / 64
}

/// The number of the word in which the pair's bit is.
fn place_of(columns: u32, row: u32, column: u32) -> usize
    ensures { result ≡ row * words_a_row columns + column / 64 }
{
    row as usize * row_width(columns) + column as usize / 64
}

/// Whether the column's bit is set in its word.
fn has_bit(word: u64, column: u32) -> bool
    ensures { result ≡ bit_of word (column % 64) }
{
    word & (1 << (column % 64)) != 0
}

/// The word with the column's bit.
fn with_bit(word: u64, column: u32) -> u64
    ensures { result ≡ bit_or word (2 ^ (column % 64)) }
{
    word | (1 << (column % 64))
}

/// Whether a bit is set in `more` that is not set in the word.
fn adds(word: u64, more: u64) -> bool
    ensures { IsTrue result ↔ Adds word more }
{
    word | more != word
}

/// Joins the `width` words from `from` on to those from `to` on, and tells whether any of these changed.
fn join_words(words: &mut [u64], to: usize, from: usize, width: usize) -> bool
    requires to { to + width ≤ length words.old }
    requires from { from + width ≤ length words.old }
    requires apart { to ≡ from ⊎ to + width ≤ from ⊎ from + width ≤ to }
    ensures joined { AreAdded to width (λ k. slice_index words.old (from + k)) words.old words.new }
    ensures gains { IsTrue result ↔ ((k : ℕ) × (k < width) × Adds (slice_index words.old (to + k)) (slice_index words.old (from + k))) }
{
    let mut gains = false;
    for i in 0..width {
        let before = words[to + i];
        let more = words[from + i];
        words[to + i] = before | more;
        gains |= adds(before, more);
    }
    gains
}

/// Joins what is set in the `width` words from `from_a` on in `a` and in those from `from_b` on in `b` to those from `to` on.
fn add_words(
    words: &mut [u64],
    to: usize,
    a: &[u64],
    from_a: usize,
    b: &[u64],
    from_b: usize,
    width: usize,
)
    requires to { to + width ≤ length words.old }
    requires from_a { from_a + width ≤ length a.now }
    requires from_b { from_b + width ≤ length b.now }
    ensures { AreAdded to width (λ k. bit_and (slice_index a.now (from_a + k)) (slice_index b.now (from_b + k))) words.old words.new }
{
    for i in 0..width {
        words[to + i] |= a[from_a + i] & b[from_b + i];
    }
}
