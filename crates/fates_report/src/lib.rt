// What fates prints, from the register of indications: see docs/FATES.md.
#![tactic(auto)]

ghost use Rattle.std.specs.Prelude.{◌≡◌, ◌*◌, ◌≤◌, length};
ghost use Rattle.text.specs.Page.{shown, Put};
ghost use Rattle.paper.specs.Base.{stream_total};
ghost use Rattle.paper.specs.Saps.{most_open};
ghost use Rattle.fates_book.specs.Lines.{opening_lines};
ghost use Rattle.fates_book.specs.declared.Line.TheVariants.{Began, Went};
ghost use Rattle.fates_register.specs.Register.{register_size, places_of, entered};
ghost use Rattle.fates_report.specs.Report.{heading, word_of, spaced_number, numbers, indication_line, open_lines, opening_line};
ghost use Rattle.fates_report.specs.Report.{end_text, line_text, end_texts, open_on_all, total_line, closing, lines_written, lines_told};
ghost use Rattle.fates_report.specs.Report.{spaced_size, indication_size, counts_size, end_size, ends_size, closing_size, records_size, told_size};
ghost use Rattle.fates_report.specs.Report.{RegisterRoom, StreamRoom, PlaceRoom, FateRoom, TokenRoom, WrittenRoom, NumbersRoom};
ghost use Rattle.fates_report.specs.Report.{Telling, TellingOf};

use fates_book::{End, Line};
use paper::Input;
use text::Page;

// 'dlpi fates'
pub fn put_heading(page: &mut Page)
    requires { length heading ≤ length (shown page.old).spare }
    ensures { Put (length heading) heading page.old page.new }
{
    page.put_word(b"dlpi fates\n");
}

// A blank and a number.
fn put_spaced(page: &mut Page, n: u64)
    requires { spaced_size ≤ length (shown page.old).spare }
    ensures { Put spaced_size (spaced_number n) page.old page.new }
{
    page.put_word(b" ");
    page.put_decimal(n);
}

// k numbers of the register, from cell c on.
fn put_numbers(page: &mut Page, register: &[u64], c: usize, k: usize)
    requires { NumbersRoom c k register.now page.old }
    ensures { Put (spaced_size * k) (numbers k c register.now) page.old page.new }
{
    for n in &register[c..c + k] {
        put_spaced(page, *n);
    }
}

// 'call stream opening call number fate', of the indication in cell c.
fn put_indication(page: &mut Page, register: &[u64], i: usize, c: usize, word: &[u8])
    requires { FateRoom word.now i c register.now indication_size page.old }
    ensures { Put indication_size (indication_line i c word.now register.now) page.old page.new }
{
    page.put_word(b"call");
    put_spaced(page, i as u64);
    put_numbers(page, register, i * fates_register::PAGE_SIZE, 1);
    put_numbers(page, register, c, 2);
    page.put_word(word);
    page.put_word(b"\n");
}

// The word for an end.
fn word_of(end: End) -> &'static [u8]
    ensures { result.now ≡ word_of end }
{
    match end {
        End::Accepted => b" accepted",
        End::Denied => b" denied",
        End::Withdrawn => b" withdrawn",
        End::Dropped => b" dropped",
    }
}

// The lines of those still open, the oldest first.
fn put_still_open(page: &mut Page, register: &[u64], i: usize)
    requires { StreamRoom i register.now (most_open * indication_size) page.old }
    ensures { Put (most_open * indication_size) (open_lines most_open i (places_of i) register.now) page.old page.new }
{
    let first = i * fates_register::PAGE_SIZE;
    for c in (first + fates_register::COUNT_TOTAL..first + fates_register::PLACES_END).step_by(2) {
        if register[c] == 0 {
            break;
        }
        put_indication(page, register, i, c, b" open");
    }
}

// 'opening stream opening calls accepted denied withdrawn dropped open'
fn put_opening(page: &mut Page, register: &[u64], i: usize)
    requires { StreamRoom i register.now counts_size page.old }
    ensures { Put counts_size (opening_line i register.now) page.old page.new }
{
    page.put_word(b"opening");
    put_spaced(page, i as u64);
    put_numbers(
        page,
        register,
        i * fates_register::PAGE_SIZE,
        fates_register::COUNT_TOTAL,
    );
    put_spaced(page, fates_register::open_on(register, i));
    page.put_word(b"\n");
}

// What is printed of an opening at its end; nothing of a stream that was never opened.
fn put_end(page: &mut Page, register: &[u64], i: usize)
    requires { StreamRoom i register.now end_size page.old }
    ensures { Put end_size (end_text i register.now) page.old page.new }
{
    if register[i * fates_register::PAGE_SIZE] != 0 {
        put_still_open(page, register, i);
        put_opening(page, register, i);
    }
}

// An indication ended that stands in the register.
fn put_went(page: &mut Page, register: &[u64], i: usize, n: u32, end: End)
    requires { StreamRoom i register.now indication_size page.old }
    ensures { Put indication_size (line_text (Went i n end) register.now) page.old page.new }
{
    let c = fates_register::place_of(register, i, n);
    if c < i * fates_register::PAGE_SIZE + fates_register::PLACES_END {
        put_indication(page, register, i, c, word_of(end));
    }
}

// What is printed when a line of the history is entered: of an opening anew the opening before, of an indication that ended its line.
fn put_line(page: &mut Page, register: &[u64], y: Line)
    requires { RegisterRoom register.now end_size page.old }
    ensures { Put end_size (line_text y register.now) page.old page.new }
{
    match y {
        Line::Began(i) if fates_register::has_page(i) => put_end(page, register, i as usize),
        Line::Went(i, n, end) if fates_register::has_page(i) => {
            put_went(page, register, i as usize, n, end)
        }
        _ => {}
    }
}

// The last openings of the streams.
fn put_ends(page: &mut Page, register: &[u64])
    requires { RegisterRoom register.now ends_size page.old }
    ensures { Put ends_size (end_texts stream_total 0 register.now) page.old page.new }
{
    for i in 0..paper::STREAM_TOTAL {
        put_end(page, register, i);
    }
}

// How many are open on all streams.
fn open_on_all(register: &[u64]) -> u64
    requires { length register.now ≡ register_size }
    ensures { result ≡ open_on_all stream_total 0 register.now }
{
    (0..paper::STREAM_TOTAL)
        .map(|i| fates_register::open_on(register, i))
        .sum()
}

// 'total openings calls accepted denied withdrawn dropped open'
fn put_total(page: &mut Page, register: &[u64])
    requires { RegisterRoom register.now counts_size page.old }
    ensures { Put counts_size (total_line register.now) page.old page.new }
{
    page.put_word(b"total");
    put_numbers(
        page,
        register,
        fates_register::TOTALS_AT,
        fates_register::COUNT_TOTAL,
    );
    put_spaced(page, open_on_all(register));
    page.put_word(b"\n");
}

// What is printed at the end of the capture.
pub fn put_closing(page: &mut Page, register: &[u64])
    requires { RegisterRoom register.now closing_size page.old }
    ensures { Put closing_size (closing register.now) page.old page.new }
{
    put_ends(page, register);
    put_total(page, register);
}

// A line of the history: its text, and its entry in the register.
fn tell(register: &mut [u64], page: &mut Page, y: Line)
    requires { RegisterRoom register.old end_size page.old }
    ensures { Telling end_size (line_text y register.old) (entered y register.old) page.old page.new register.new }
{
    put_line(page, register, y);
    fates_register::enter(register, y);
}

// The lines of the records written, one behind the other.
fn tell_records(register: &mut [u64], page: &mut Page, q: Input, written: &[u8])
    requires { WrittenRoom written.now register.old records_size page.old }
    ensures { TellingOf records_size (lines_written q written.now) page.old page.new register.old register.new }
{
    let mut rest = written;
    while !rest.is_empty() {
        tell(register, page, fates_book::line_at(q, rest));
        rest = replay_transcript::behind_first(rest);
    }
}

// The line of the opening, where a stream was opened.
fn tell_opening(register: &mut [u64], page: &mut Page, token: u32)
    requires { TokenRoom token register.old end_size page.old }
    ensures { TellingOf end_size (opening_lines token) page.old page.new register.old register.new }
{
    if token != 0 {
        tell(register, page, Line::Began((token - 1) as u8));
    }
}

// A call: from the record lent to it, what it returned, and the room that it left.
pub fn tell_call(register: &mut [u64], page: &mut Page, lent: &[u8], answer: u32, room: &[u8])
    requires { WrittenRoom room.now register.old told_size page.old }
    ensures { TellingOf told_size (lines_told lent.now answer room.now) page.old page.new register.old register.new }
{
    let q = wire_records::input_of(lent);
    tell_opening(register, page, answer / 16777216);
    let written = replay_transcript::start_of(room, (answer % 65536) as usize);
    tell_records(register, page, q, written);
}
