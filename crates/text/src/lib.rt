// Text that grows in lent bytes: words, numbers in decimal, bytes in hex.
#![tactic(auto)]

mod over;

ghost use Rattle.std.specs.Prelude.{◌≡◌, ◌+◌, ◌*◌, ◌<◌, ◌≤◌, [], ◌++◌, length};
ghost use Rattle.text.specs.Digits.{most_digits, digit, decimal, DigitsFrom, hex};

pub use over::{put_decimal, put_hex, put_word};

// 64 bits have no more.
const MOST_DIGITS: usize = 20;

// Lent bytes, and how many of them are filled.
#[derive(Drop)]
pub struct Page<'a> {
    bytes: &'a mut [u8],
    filled: usize,
    ghost within: { filled ≤ length bytes.now },
}

impl<'a> Page<'a> {
    ghost use Rattle.text.specs.Page.{shown, Put};

    // An empty page.
    #[tactic(auto, unfolding(crate::specs::Page::shown))]
    pub fn new(bytes: &'a mut [u8]) -> Page<'a>
        ensures shows { shown result ≡ record { text = []; spare = bytes.old } }
        ensures same_reference { result.bytes.ghost_name ≡ bytes.entry.ghost_name }
    {
        Page { bytes, filled: 0 }
    }

    // Bytes as they are.
    #[tactic(auto, unfolding(crate::specs::Page::shown))]
    pub fn put_word(&mut self, word: &[u8])
        requires { length word.now ≤ length (shown self.old).spare }
        ensures { Put (length word.now) word.now self.old self.new }
    {
        octets::put_bytes(self.bytes, self.filled, word);
        self.filled += word.len();
    }

    // A number in decimal. (Its bytes are promised, and no `Display` promises its own; so with hex.)
    pub fn put_decimal(&mut self, n: u64)
        requires { most_digits ≤ length (shown self.old).spare }
        ensures { Put most_digits (decimal n) self.old self.new }
    {
        let mut digits = [0u8; MOST_DIGITS];
        let from = put_digits(&mut digits, n);
        self.put_word(&digits[from..]);
    }

    // Bytes in hex.
    pub fn put_hex(&mut self, bytes: &[u8])
        requires { 2 * length bytes.now ≤ length (shown self.old).spare }
        ensures { Put (2 * length bytes.now) (hex bytes.now) self.old self.new }
    {
        for b in bytes {
            self.put_word(&[digit(b / 16), digit(b % 16)]);
        }
    }

    // The text so far.
    #[tactic(auto, unfolding(crate::specs::Page::shown))]
    pub fn text(&self) -> &[u8]
        ensures { result.now ≡ (shown self.now).text }
    {
        &self.bytes[..self.filled]
    }

    // The lent bytes, with the text at their start.
    #[tactic(auto, unfolding(crate::specs::Page::shown))]
    pub fn into_bytes(self) -> &'a mut [u8]
        ensures whole { result.now ≡ (shown self.entry).text ++ (shown self.entry).spare }
        ensures same_reference { result.ghost_name ≡ self.entry.bytes.ghost_name }
    {
        self.bytes
    }

    // The text is gone, and all bytes may be filled anew.
    #[tactic(auto, unfolding(crate::specs::Page::shown))]
    pub fn clear(&mut self)
        ensures shows { shown self.new ≡ record { text = []; spare = (shown self.old).text ++ (shown self.old).spare } }
        ensures same_reference { self.new.bytes.ghost_name ≡ self.old.bytes.ghost_name }
    {
        self.filled = 0;
    }
}

// The digits of a number at the end of the bytes lent; where they begin. (std's `write!` doesn't promise to succeed.)
fn put_digits(digits: &mut [u8; MOST_DIGITS], n: u64) -> usize
    ensures { DigitsFrom n result digits.new }
{
    let mut rest = n;
    for from in (0..MOST_DIGITS).rev() {
        if rest < 10 {
            digits[from] = 48 + rest as u8;
            return from;
        }
        digits[from] = 48 + (rest % 10) as u8;
        rest /= 10;
    }
    0
}

// A digit below 16, in small letters.
fn digit(d: u8) -> u8
    requires { d < 16 }
    ensures { result ≡ digit d }
{
    if d < 10 { 48 + d } else { 87 + d }
}
