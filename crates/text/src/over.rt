// Text over a part of the caller's bytes, and the place behind it.
ghost use Rattle.std.specs.Prelude.{◌≡◌, ◌+◌, ◌*◌, ◌≤◌, length};
ghost use Rattle.octets.specs.Writing.{Wrote, WroteMost};
ghost use Rattle.text.specs.Digits.{most_digits, decimal, hex};

use crate::Page;

fn word_over(bytes: &mut [u8], word: &[u8]) -> usize
    requires { length word.now ≤ length bytes.old }
    ensures { Wrote word.now 0 result bytes.old bytes.new }
{
    let mut page = Page::new(bytes);
    page.put_word(word);
    page.text().len()
}

fn decimal_over(bytes: &mut [u8], n: u64) -> usize
    requires { most_digits ≤ length bytes.old }
    ensures { WroteMost most_digits (decimal n) 0 result bytes.old bytes.new }
{
    let mut page = Page::new(bytes);
    page.put_decimal(n);
    page.text().len()
}

fn hex_over(bytes: &mut [u8], word: &[u8]) -> usize
    requires { 2 * length word.now ≤ length bytes.old }
    ensures { WroteMost (2 * length word.now) (hex word.now) 0 result bytes.old bytes.new }
{
    let mut page = Page::new(bytes);
    page.put_hex(word);
    page.text().len()
}

// Bytes as they are.
pub fn put_word(out: &mut [u8], at: usize, word: &[u8]) -> usize
    requires { at + length word.now ≤ length out.old }
    ensures { Wrote word.now at result out.old out.new }
{
    at + word_over(&mut out[at..], word)
}

// A number in decimal.
pub fn put_decimal(out: &mut [u8], at: usize, n: u64) -> usize
    requires { at + most_digits ≤ length out.old }
    ensures { WroteMost most_digits (decimal n) at result out.old out.new }
{
    at + decimal_over(&mut out[at..], n)
}

// Bytes in hex.
pub fn put_hex(out: &mut [u8], at: usize, bytes: &[u8]) -> usize
    requires { at + 2 * length bytes.now ≤ length out.old }
    ensures { WroteMost (2 * length bytes.now) (hex bytes.now) at result out.old out.new }
{
    at + hex_over(&mut out[at..], bytes)
}
