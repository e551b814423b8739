// The open numbers of the streams: reading, counting, all in a row, the next number, one more, one less.
#![tactic(auto)]

ghost use Rattle.std.specs.Prelude.{◌≡◌, ◌<◌, ◌≤◌, suc, ◌+◌, [], ◌∷◌, ◌++◌, length, take, drop, get_or, eqb, position};
ghost use Rattle.ledger.specs.Tally.{occ, has, without, free};
ghost use Rattle.octets.specs.Runs.{paste};
ghost use Rattle.paper.specs.Base.{stream_total, waiting, with_numbers};
ghost use Rattle.paper.specs.Saps.{most_open};
ghost use Rattle.paper.specs.Correlations.{occurrences, next_number};
ghost use Rattle.table_image.specs.Layout.{slot_base, table_of, stream_bytes, waiting_bytes, image_of};
ghost use Rattle.table_image.specs.Lent.{Lent, At, LentAt, NumberPlace};
ghost use Rattle.table_image.specs.LentTable.{table_in};
ghost use Rattle.table_numbers.specs.Row.{InRow, RowRoom};

use paper::{Correlation, MOST_NUMBERS, STREAM_TOTAL, Stream};
use table_image::{COUNT_OFFSET, LentTable, NUMBERS_OFFSET, NUMBERS_SIZE, SLOT_SIZE, SLOTS_OFFSET};

// The most numbers that are passed over for the next one.
const MOST_PASSED: usize = MOST_NUMBERS + 1;

// The bytes of a stream's open numbers: their count, the numbers, zeros.
const NUMBER_BYTES: usize = 1 + NUMBERS_SIZE;

// Where those of stream 0 begin in the image, and where its numbers do.
const FIRST_COUNT: usize = SLOTS_OFFSET + COUNT_OFFSET;

const FIRST_NUMBER: usize = SLOTS_OFFSET + NUMBERS_OFFSET;

// The open number at a place, the oldest first.
pub fn number_at(table: LentTable, i: usize, k: usize) -> Correlation
    requires within { i < stream_total }
    requires placed { k < length (waiting (table_in table) i) }
    ensures { result ≡ record { 0 = get_or (waiting (table_in table.entry) i) k 0 } }
{
    Correlation(octets::number_inside::<u32>(table.image, i * SLOT_SIZE + k * 4 + FIRST_NUMBER))
}

// The first place of a number among a stream's open ones.
fn number_place(table: LentTable, i: usize, n: Correlation) -> Option<usize>
    requires { i < stream_total }
    ensures { result ≡ position (eqb n.0) (waiting (table_in table.entry) i) }
{
    (0..table.count_at(i) as usize).find(|&k| n.0 == number_at(table, i, k).0)
}

// A number is open on a stream.
pub fn is_waiting(table: LentTable, i: usize, n: Correlation) -> bool
    requires { i < stream_total }
    ensures { result ≡ has n.0 (waiting (table_in table.entry) i) }
{
    number_place(table, i, n).is_some()
}

// How many numbers stay open on a stream without one of them.
pub fn remaining(table: LentTable, i: usize, n: Correlation) -> u8
    requires { i < stream_total }
    ensures { result ≡ length (without n.0 (waiting (table_in table.entry) i)) }
{
    let count = table.count_at(i);
    if is_waiting(table, i, n) {
        count - 1
    } else {
        count
    }
}

// How often a number is open on a stream.
fn occurs_on(table: LentTable, i: usize, n: u32) -> u32
    requires { i < stream_total }
    ensures { result ≡ occ n (waiting (table_in table.entry) i) }
{
    (0..table.count_at(i) as usize)
        .filter(|&k| n == number_at(table, i, k).0)
        .count() as u32
}

// How often a number is open in the table.
fn occurrences(table: LentTable, n: u32) -> u32
    ensures { result ≡ occurrences (table_in table.entry) n }
{
    (0..STREAM_TOTAL).map(|i| occurs_on(table, i, n)).sum()
}

// A stream's open numbers over others, from a place on.
fn copy_numbers(table: LentTable, i: usize, dst: &mut [u32], at: usize)
    requires within { i < stream_total }
    requires fits { at + length (waiting (table_in table) i) ≤ length dst.old }
    ensures { dst.new ≡ paste dst.old at (waiting (table_in table.entry) i) }
{
    for k in 0..table.count_at(i) as usize {
        dst[at + k] = number_at(table, i, k).0;
    }
}

// The open numbers of all streams, one stream's behind another's, and how many they are: in a row they are compared
// many at once.
pub fn open_numbers(img: &[u8], dst: &mut [u32]) -> usize
    requires { RowRoom img.now dst.old }
    ensures { InRow (table_of img.now) result dst.new }
{
    let table = LentTable { image: img };
    let mut total = 0;
    for i in 0..STREAM_TOTAL {
        copy_numbers(table, i, dst, total);
        total += table.count_at(i) as usize;
    }
    total
}

// Not 0, and open nowhere.
fn is_free(table: LentTable, n: u32) -> bool
    ensures { result ≡ free (occurrences (table_in table.entry)) n }
{
    0 < n && occurrences(table, n) == 0
}

// The counter's number, passing over 0 and numbers still open: at most one more than can be open.
pub fn next_number(img: &[u8]) -> u32
    requires { Lent img.now }
    ensures { result ≡ next_number (table_of img.now) }
{
    let table = LentTable { image: img };
    let mut n = table.counter();
    for _ in 0..MOST_PASSED {
        if is_free(table, n) {
            return n;
        }
        n = n.wrapping_add(1);
    }
    n
}

// The bytes of a stream's open numbers.
fn numbers_of(table: LentTable, i: usize) -> [u8; NUMBER_BYTES]
    requires { i < stream_total }
    ensures { result ≡ waiting_bytes (waiting (table_in table.entry) i) }
{
    let at = i * SLOT_SIZE + FIRST_COUNT;
    let mut bytes = [0u8; NUMBER_BYTES];
    octets::put_bytes(&mut bytes, 0, &table.image[at..at + NUMBER_BYTES]);
    bytes
}

// Those bytes with one number more behind the others.
fn one_number_more(table: LentTable, i: usize, n: u32) -> [u8; NUMBER_BYTES]
    requires within { i < stream_total }
    requires place { length (waiting (table_in table) i) < most_open }
    ensures { result ≡ waiting_bytes (waiting (table_in table.entry) i ++ (n ∷ [])) }
{
    let count = table.count_at(i);
    let mut bytes = numbers_of(table, i);
    octets::put_number::<u32>(&mut bytes, (count as usize) * 4 + 1, n);
    bytes[0] = count + 1;
    bytes
}

// Those bytes without the number at a place: the later ones move down.
fn one_number_less(table: LentTable, i: usize, k: usize) -> [u8; NUMBER_BYTES]
    requires within { i < stream_total }
    requires placed { k < length (waiting (table_in table) i) }
    ensures { result ≡ waiting_bytes (take k (waiting (table_in table.entry) i) ++ drop (suc k) (waiting (table_in table.entry) i)) }
{
    let count = table.count_at(i);
    let old = numbers_of(table, i);
    let at = k * 4 + 1;
    let mut bytes = [0u8; NUMBER_BYTES];
    octets::put_bytes(&mut bytes, 0, &old[0..at]);
    octets::put_bytes(&mut bytes, at, &old[at + 4..NUMBER_BYTES]);
    bytes[0] = count - 1;
    bytes
}

// A stream's slot is written anew: how the stream stands, and the bytes of its open numbers.
fn put_slot(img: &mut [u8], i: usize, s: Stream, bytes: [u8; NUMBER_BYTES])
    requires { At i img.old }
    ensures { img.new ≡ paste img.old (slot_base i) (stream_bytes s ++ bytes) }
{
    let at = i * SLOT_SIZE + SLOTS_OFFSET;
    let fields = table_image::stream_bytes(s);
    octets::put_bytes(img, at, &fields);
    octets::put_bytes(img, at + COUNT_OFFSET, &bytes);
}

// A stream stands anew, with one open number more.
pub fn add_number(img: &mut [u8], i: usize, s: Stream, n: Correlation)
    requires { NumberPlace i img.old }
    ensures { img.new ≡ image_of (with_numbers (table_of img.old) i s (waiting (table_of img.old) i ++ (n.0 ∷ []))) }
{
    let bytes = one_number_more(LentTable { image: img }, i, n.0);
    put_slot(img, i, s, bytes);
}

// A stream stands anew, without one of its open numbers; with all of them where that one is not open.
pub fn remove_number(img: &mut [u8], i: usize, s: Stream, n: Correlation)
    requires { LentAt i img.old }
    ensures { img.new ≡ image_of (with_numbers (table_of img.old) i s (without n.0 (waiting (table_of img.old) i))) }
{
    let table = LentTable { image: img };
    if let Some(k) = number_place(table, i, n) {
        let bytes = one_number_less(table, i, k);
        put_slot(img, i, s, bytes);
    } else {
        table_image::store_stream(img, i, s);
    }
}
