// Cutting a line into words.
ghost use Rattle.std.specs.Prelude.{◌≡◌, ℕ, ◌-◌, ◌<◌, ◌≤◌, ◌∷◌, ◌++◌, ◌≢◌, true, false, cond, length, Ok, Err, ◌==◌, slice_index, MatchOption};
ghost use Rattle.bench.specs.Blanks.{is_blank};
ghost use Rattle.bench.specs.declared.expected.Expected.TheVariants.{End};

use crate::expected::Expected;

// What stands before the first byte of this value, and what stands behind it; none where there is no such byte.
pub fn split_once(text: &[u8], byte: u8) -> Option<(&[u8], &[u8])>
    ensures { MatchOption result ((k : ℕ) → k < length text.now → slice_index text.now k ≢ byte) (λ parts. (text.now ≡ parts.0.now ++ byte ∷ parts.1.now) × ((k : ℕ) → k < length parts.0.now → slice_index parts.0.now k ≢ byte)) }
{
    let at = text.iter().position(|other| *other == byte)?;
    Some((&text[..at], &text[at + 1..]))
}

// How many items stand before the first one that a test takes: all of them, where it takes none.
pub fn length_until<T, F: Fn(&T) -> bool>(items: &[T], test: F) -> usize
    requires { F.IsAlwaysCallable test }
    ensures { result ≤ length items.now }
{
    items.iter().position(test).unwrap_or(items.len())
}

// Blanks, tabs and carriage returns alone divide words; `trim_ascii_start` would take form feeds too.
fn is_blank(byte: u8) -> bool
    ensures { result ≡ is_blank byte }
{
    matches!(byte, b' ' | b'\t' | b'\r')
}

// How many bytes stand before the first blank, and below before the first byte that is none.
// Two functions: one with the test as a parameter could not say by a clause where it stops.
fn word_length(text: &[u8]) -> usize
    ensures within { result ≤ length text.now }
    ensures word { (k : ℕ) → k < result → is_blank (slice_index text.now k) ≡ false }
    ensures behind { result < length text.now → is_blank (slice_index text.now result) ≡ true }
{
    text.iter()
        .position(|byte| is_blank(*byte))
        .unwrap_or(text.len())
}

fn blank_length(text: &[u8]) -> usize
    ensures within { result ≤ length text.now }
    ensures blanks { (k : ℕ) → k < result → is_blank (slice_index text.now k) ≡ true }
    ensures behind { result < length text.now → is_blank (slice_index text.now result) ≡ false }
{
    text.iter()
        .position(|byte| !is_blank(*byte))
        .unwrap_or(text.len())
}

// A text without the blanks at its front.
pub fn trimmed(text: &[u8]) -> &[u8]
    ensures within { length result.now ≤ length text.now }
    ensures front { (k : ℕ) → k < length text.now - length result.now → is_blank (slice_index text.now k) ≡ true }
{
    &text[blank_length(text)..]
}

// The words of a line that are not read yet.
#[derive(Clone, Copy)]
pub struct Words<'a> {
    rest: &'a [u8],
}

impl<'a> Words<'a> {
    pub fn new(line: &'a [u8]) -> Words<'a>
        ensures front { (k : ℕ) → k < length line.now - length result.rest.now → is_blank (slice_index line.now k) ≡ true }
    {
        Words {
            rest: trimmed(line),
        }
    }

    // The next word; an empty one where none is left, which no reader of a word takes.
    pub fn next(&mut self) -> &'a [u8] {
        let (word, rest) = self.rest.split_at(word_length(self.rest));
        self.rest = trimmed(rest);
        word
    }

    // Whether no word is left.
    pub fn is_empty(self) -> bool
        ensures { result ≡ (length self.entry.rest.now == 0) }
    {
        self.rest.is_empty()
    }

    // All that is left of the line.
    pub fn rest(self) -> &'a [u8] {
        self.rest
    }

    // The end of the line.
    pub fn ended(self) -> Result<(), Expected>
        ensures { result ≡ cond (length self.entry.rest.now == 0) (Ok tt) (Err End) }
    {
        if self.is_empty() {
            Ok(())
        } else {
            Err(Expected::End)
        }
    }
}
