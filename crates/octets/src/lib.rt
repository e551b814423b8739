// Numbers and runs of bytes in slices: reading, writing, blocks of fields, tests of runs.
#![tactic(auto)]

ghost use Rattle.std.specs.Prelude.{◌≡◌, ◌++◌, ◌+◌, ◌*◌, ◌≤◌, ℕ, List, refl, take, drop, length, get_or};
ghost use Rattle.octets.specs.Numbers.{be16_at, be32_at, be16, be32};
ghost use Rattle.octets.specs.Numbers.{be16-dropped, be16-taken, be32-dropped, be32-taken};
ghost use Rattle.octets.specs.Runs.{farthest, part, paste, all_zero, same_bytes};
ghost use Rattle.octets.specs.Blocks.{flat, block_size, pad};

// A byte, or 0 past the end.
pub fn byte_at(s: &[u8], i: usize) -> u8
    ensures { result ≡ get_or s.now i 0 }
{
    s.get(i).copied().unwrap_or(0)
}

// A number of several bytes, the top one first.
pub trait Number: Copy {
    const SIZE: usize;

    ghost SIZE: { ℕ };

    ghost at: { List ℕ → ℕ → Self };

    ghost bytes: { Self → List ℕ };

    // The number in the first bytes; a byte past the end is 0.
    fn first(s: &[u8]) -> Self
        ensures { result ≡ at s.now 0 };

    // The number's bytes, over as many others.
    fn over(self, dst: &mut [u8])
        requires { length dst.old ≡ SIZE }
        ensures { dst.new ≡ bytes self };

    ghost dropped: { (s : List ℕ) (k : ℕ) → at (drop k s) 0 ≡ at s k };

    ghost taken: { (s : List ℕ) → at (take SIZE s) 0 ≡ at s 0 };

    ghost long: { (v : Self) → length (bytes v) ≡ SIZE };
}

impl Number for u16 {
    const SIZE: usize = 2;

    ghost SIZE = { 2 };

    ghost at = { be16_at };

    ghost bytes = { be16 };

    ghost dropped = { be16-dropped };

    ghost taken = { be16-taken };

    ghost long = { λ v. refl };

    fn first(s: &[u8]) -> u16 {
        u16::from_be_bytes([byte_at(s, 0), byte_at(s, 1)])
    }

    fn over(self, dst: &mut [u8]) {
        dst.copy_from_slice(&u16::to_be_bytes(self));
    }
}

impl Number for u32 {
    const SIZE: usize = 4;

    ghost SIZE = { 4 };

    ghost at = { be32_at };

    ghost bytes = { be32 };

    ghost dropped = { be32-dropped };

    ghost taken = { be32-taken };

    ghost long = { λ v. refl };

    fn first(s: &[u8]) -> u32 {
        u32::from_be_bytes([byte_at(s, 0), byte_at(s, 1), byte_at(s, 2), byte_at(s, 3)])
    }

    fn over(self, dst: &mut [u8]) {
        dst.copy_from_slice(&u32::to_be_bytes(self));
    }
}

// The number in the bytes at a place; a byte past the end is 0.
pub fn number_at<N: Number>(s: &[u8], at: usize) -> N
    requires { at ≤ farthest }
    ensures { result ≡ N.at s.now at }
{
    N::first(s.get(at..).unwrap_or(&[]))
}

// The number in bytes that are known to be there: no end is looked for.
pub fn number_inside<N: Number>(s: &[u8], at: usize) -> N
    requires { at + N.SIZE ≤ length s.now }
    ensures { result ≡ N.at s.now at }
{
    N::first(&s[at..at + N::SIZE])
}

// Bytes over others from a place on. (`copy_from_slice` would have the library for C need memmove of the caller's.)
pub fn put_bytes(dst: &mut [u8], at: usize, src: &[u8])
    requires { at + length src.now ≤ length dst.old }
    ensures { dst.new ≡ paste dst.old at src.now }
{
    for i in 0..src.len() {
        dst[at + i] = src[i];
    }
}

// A number's bytes over others from a place on.
pub fn put_number<N: Number>(dst: &mut [u8], at: usize, v: N)
    requires { at + N.SIZE ≤ length dst.old }
    ensures { dst.new ≡ paste dst.old at (N.bytes v) }
{
    v.over(&mut dst[at..at + N::SIZE]);
}

// A block.
pub const BLOCK_SIZE: usize = 96;

// A block of fields of four bytes each, zeros behind them.
fn block_of(fields: &[u32]) -> [u8; BLOCK_SIZE]
    requires { length fields.now * 4 ≤ block_size }
    ensures { result ≡ pad (flat fields.now) }
{
    let mut block = [0u8; BLOCK_SIZE];
    for (i, w) in fields.iter().enumerate() {
        put_number(&mut block, i * 4, *w);
    }
    block
}

// A block of fields with other bytes behind them, zeros behind those.
pub fn block_with(fields: &[u32], tail: &[u8]) -> [u8; BLOCK_SIZE]
    requires { length fields.now * 4 + length tail.now ≤ block_size }
    ensures { result ≡ pad (flat fields.now ++ tail.now) }
{
    let mut block = block_of(fields);
    put_bytes(&mut block, fields.len() * 4, tail);
    block
}

// Every byte is 0: all are looked at, so that many can be at once.
pub fn is_zero(s: &[u8]) -> bool
    ensures { result ≡ all_zero s.now }
{
    s.iter().fold(0, |any, b| any | b) == 0
}

// Two runs have the same length and the same bytes. (Place by place: of `a == b` no edit could compare the wrong byte.)
pub fn same_bytes(a: &[u8], b: &[u8]) -> bool
    ensures { result ≡ same_bytes a.now b.now }
{
    a.len() == b.len() && (0..a.len()).all(|i| byte_at(a, i) == byte_at(b, i))
}

// Of n bytes from a place on, those that are there.
pub fn part_at<'a>(s: &'a [u8], at: usize, n: usize) -> &'a [u8]
    requires { at + n ≤ farthest }
    ensures { result.now ≡ part s.now at n }
{
    let from = at.min(s.len());
    &s[from..(at + n).min(s.len())]
}
