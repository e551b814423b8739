// The register of indications: what it keeps stands in specs/.
#![tactic(auto)]

ghost use Rattle.std.specs.Prelude.{◌≡◌, ◌+◌, ◌*◌, ℕ, Bool, ltb, length};
ghost use Rattle.fates_book.specs.Book.{count_of};
ghost use Rattle.fates_register.specs.Register.{one_more, raised, counting, close_up, cleared, first_free, place_of, open_on, first_place, Tells};
ghost use Rattle.fates_register.specs.Register.{begun, placed, rung, removed, gone, entered};
ghost use Rattle.fates_register.specs.Register.{end_total, newest_size, register_size, OfStream, CountOf, CellsOf, PlaceIn};
ghost use Rattle.ledger.specs.Few.{Few};
ghost use Rattle.paper.specs.Base.{stream_total};
ghost use Rattle.paper.specs.Saps.{most_open};

use fates_book::{End, Line};

// A page begins with how often its stream was opened, the indications of its newest opening, and how many met each of the four ends.
const END_TOTAL: usize = 4;

pub const COUNT_TOTAL: usize = 1 + 1 + END_TOTAL;
// Those still open follow, two numbers for each and no more of them than a stream may have,
pub const PLACES_END: usize = COUNT_TOTAL + 2 * paper::MOST_OPEN;
// and two zeros, so that a full row can close up as any other.
pub const PAGE_SIZE: usize = PLACES_END + 2;
// All that a page tells of the newest opening.
const NEWEST_SIZE: usize = PLACES_END - 1;
// The page of the whole table stands behind those of the streams.
pub const TOTALS_AT: usize = paper::STREAM_TOTAL * PAGE_SIZE;
// It is the last.
pub const REGISTER_SIZE: usize = TOTALS_AT + PAGE_SIZE;

// One more, up to the largest number of 64 bits.
fn one_more(n: u64) -> u64
    ensures { result ≡ one_more n }
{
    n.saturating_add(1)
}

// (The register is lent as cells, since the definitions that the theorems on what is printed stand on are said of cells.)

// Count k of a page is one more.
fn raise(register: &mut [u64], page: usize, k: usize)
    requires { CellsOf page (k + 1) register.old }
    ensures { register.new ≡ raised (page + k) register.old }
{
    register[page + k] = one_more(register[page + k]);
}

// Count k is one more, on the stream's page and on that of the whole table.
fn count(register: &mut [u64], i: usize, k: usize)
    requires { CountOf i k register.old }
    ensures { register.new ≡ counting i k register.old }
{
    raise(register, i * PAGE_SIZE, k);
    raise(register, TOTALS_AT, k);
}

// The cell of the first place of stream i that is looked for, by what stands in its two cells; or the cell behind its places.
fn first_place<F: Fn(u64, u64) -> bool>(register: &[u64], i: usize, is_it: F) -> usize
    requires stream { OfStream i register.now }
    requires calls { F.IsAlwaysCallable is_it }
    ensures { (test : ℕ → ℕ → Bool) → Tells (F.post is_it) test → PlaceIn i (first_place test i register.now) result }
{
    let end = i * PAGE_SIZE + PLACES_END;
    for c in (i * PAGE_SIZE + COUNT_TOTAL..end).step_by(2) {
        if is_it(register[c], register[c + 1]) {
            return c;
        }
    }
    end
}

// The cell of the first free place of stream i, or the cell behind its places. (The definition's `first_free` and `place_of` are cells
// where there is none, too: an indication is counted by how far they lie.)
fn first_free(register: &[u64], i: usize) -> usize
    requires { OfStream i register.now }
    ensures { PlaceIn i (first_free i register.now) result }
{
    first_place(register, i, |at, _| at == 0)
}

// The cell of the first place of stream i that number n has, or the cell behind its places.
pub fn place_of(register: &[u64], i: usize, n: u32) -> usize
    requires { OfStream i register.now }
    ensures { PlaceIn i (place_of i n register.now) result }
{
    first_place(register, i, |at, number| 0 < at && number == n as u64)
}

// How many indications are open on stream i.
pub fn open_on(register: &[u64], i: usize) -> u64
    requires { OfStream i register.now }
    ensures { Few most_open (open_on i register.now) result }
{
    let c = first_free(register, i);
    ((c - (i * PAGE_SIZE + COUNT_TOTAL)) / 2) as u64
}

// Of a page all that is told of its newest opening becomes zero.
fn clear(register: &mut [u64], at: usize)
    requires { CellsOf at newest_size register.old }
    ensures { register.new ≡ cleared newest_size at register.old }
{
    register[at..at + NEWEST_SIZE].fill(0);
}

fn begin(register: &mut [u64], i: usize)
    requires { OfStream i register.old }
    ensures { register.new ≡ begun i register.old }
{
    clear(register, i * PAGE_SIZE + 1);
    count(register, i, 0);
}

// An indication that came stands in the first free place, where there is one.
fn place(register: &mut [u64], i: usize, n: u32)
    requires { OfStream i register.old }
    ensures { register.new ≡ placed i n register.old }
{
    let c = first_free(register, i);
    if i * PAGE_SIZE + PLACES_END <= c {
        return;
    }
    register[c] = register[i * PAGE_SIZE + 1];
    register[c + 1] = n as u64;
}

fn ring(register: &mut [u64], i: usize, n: u32)
    requires { OfStream i register.old }
    ensures { register.new ≡ rung i n register.old }
{
    count(register, i, 1);
    place(register, i, n);
}

// k cells take what stands two cells further on.
fn close_up(register: &mut [u64], at: usize, k: usize)
    requires { CellsOf at (k + 2) register.old }
    ensures { register.new ≡ close_up k at register.old }
{
    register.copy_within(at + 2..at + 2 + k, at);
}

// One that ended gives up its place; the later ones move down.
fn remove(register: &mut [u64], i: usize, n: u32)
    requires { OfStream i register.old }
    ensures { register.new ≡ removed i n register.old }
{
    let c = place_of(register, i, n);
    if i * PAGE_SIZE + PLACES_END <= c {
        return;
    }
    close_up(register, c, i * PAGE_SIZE + PLACES_END - c);
}

// Which of a page's counts is meant. (No `From`: an end has no number but here.)
fn count_of(e: End) -> usize
    ensures { Few end_total (count_of e) result }
{
    match e {
        End::Accepted => 1,
        End::Denied => 2,
        End::Withdrawn => 3,
        End::Dropped => 4,
    }
}

fn leave(register: &mut [u64], i: usize, n: u32, e: End)
    requires { OfStream i register.old }
    ensures { register.new ≡ gone i n e register.old }
{
    count(register, i, count_of(e) + 1);
    remove(register, i, n);
}

// Whether a stream is of the table, and so has a page.
pub fn has_page(i: u8) -> bool
    ensures { result ≡ ltb i stream_total }
{
    (i as usize) < paper::STREAM_TOTAL
}

// What a line changes. A stream past the last of the table has no page.
pub fn enter(register: &mut [u64], y: Line)
    requires { length register.old ≡ register_size }
    ensures { register.new ≡ entered y register.old }
{
    match y {
        Line::Began(i) if has_page(i) => begin(register, i as usize),
        Line::Came(i, n) if has_page(i) => ring(register, i as usize, n),
        Line::Went(i, n, e) if has_page(i) => leave(register, i as usize, n, e),
        _ => {}
    }
}
