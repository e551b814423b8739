// What the replay program prints: a line for each record out of a call, the first line and the last.
#![tactic(auto)]

ghost use Rattle.std.specs.Prelude.{◌≡◌, ◌++◌, ◌≤◌, length, get_or, take, drop};
ghost use Rattle.paper.specs.RecordsOut.{size_out};
ghost use Rattle.text.specs.Page.{shown, Put};
ghost use Rattle.paper.specs.Room.{frame_room_size};
ghost use Rattle.replay_transcript.specs.Transcript.{shown_of, pair, spaced, record_line, all_lines, ok_line, call_text, title, totals};
ghost use Rattle.replay_transcript.specs.Transcript.{shown_size, word_size, pair_size, line_size, record_line_size, call_text_size, Fits, FitsWith};
ghost use Rattle.paper.specs.Base.{stream};

use text::Page;

// What a line shows behind the stream: of a message its bytes up to L, of other kinds the body's other fields.
fn shown<'a>(r: &'a [u8]) -> &'a [u8]
    ensures { result.now ≡ shown_of r.now }
{
    let kind = octets::byte_at(r, 0);
    if paper::is_message(kind) {
        return octets::part_at(r, paper::HEAD_SIZE, octets::byte_at(r, 2) as usize);
    }
    octets::part_at(
        r,
        paper::START_SIZE,
        paper::size_out(kind) - paper::START_SIZE,
    )
}

// The fields in hex behind a space; nothing where there are none.
fn put_shown(page: &mut Page, s: &[u8])
    requires { shown_size s.now ≤ length (shown page.old).spare }
    ensures { Put (shown_size s.now) (spaced s.now) page.old page.new }
{
    if !s.is_empty() {
        page.put_word(b" ");
        page.put_hex(s);
    }
}

// Two numbers with a word between them.
fn put_pair(page: &mut Page, n: u64, word: &[u8], m: u64)
    requires { Fits word_size word.now pair_size page.old }
    ensures { Put pair_size (pair n word.now m) page.old page.new }
{
    page.put_decimal(n);
    page.put_word(word);
    page.put_decimal(m);
}

// One line for each record out: the call's number, the kind, the stream, the fields in hex.
fn put_record(page: &mut Page, n: u64, r: &[u8])
    requires { record_line_size r.now ≤ length (shown page.old).spare }
    ensures { Put (record_line_size r.now) (record_line n r.now) page.old page.new }
{
    let kind = octets::byte_at(r, 0);
    let stream = octets::byte_at(r, 1);
    put_pair(page, n, &[b' ', kind, b' '], stream as u64);
    put_shown(page, shown(r));
    page.put_word(b"\n");
}

// What stands behind the first of some records.
pub fn behind_first<'a>(rs: &'a [u8]) -> &'a [u8]
    ensures { result.now ≡ drop (size_out (get_or rs.now 0 0)) rs.now }
{
    let size = paper::size_out(octets::byte_at(rs, 0));
    &rs[size.min(rs.len())..]
}

// The lines of records that stand one behind the other.
fn put_lines(page: &mut Page, n: u64, rs: &[u8])
    requires { Fits frame_room_size rs.now call_text_size page.old }
    ensures { Put call_text_size (all_lines n rs.now) page.old page.new }
{
    let mut rest = rs;
    while !rest.is_empty() {
        put_record(page, n, rest);
        rest = behind_first(rest);
    }
}

// Two numbers with a word between them, and the line's end.
fn put_pair_line(page: &mut Page, n: u64, word: &[u8], m: u64, end: &[u8])
    requires { FitsWith word_size end.now word.now line_size page.old }
    ensures { Put line_size (pair n word.now m ++ end.now) page.old page.new }
{
    put_pair(page, n, word, m);
    page.put_word(end);
}

// 'n ok'
fn put_ok(page: &mut Page, n: u64)
    requires { line_size ≤ length (shown page.old).spare }
    ensures { Put line_size (ok_line n) page.old page.new }
{
    page.put_decimal(n);
    page.put_word(b" ok\n");
}

// The bytes at the start of the room, as many as are there.
pub fn start_of<'a>(room: &'a [u8], n: usize) -> &'a [u8]
    ensures { result.now ≡ take n room.now }
{
    &room[..n.min(room.len())]
}

// What is printed of the call with a number of its own: from what the call returned, and the room that it left.
pub fn put_call(page: &mut Page, n: u64, answer: u32, room: &[u8])
    requires { Fits frame_room_size room.now call_text_size page.old }
    ensures { Put call_text_size (call_text n answer room.now) page.old page.new }
{
    let refusal = answer / 65536 % 256;
    let token = answer / 16777216;
    let written = (answer % 65536) as usize;
    if 0 < refusal {
        put_pair_line(page, n, b" refused ", refusal as u64, b"\n");
    } else if 0 < token {
        put_pair_line(page, n, b" open ", (token - 1) as u64, b"\n");
    } else if written == 0 {
        put_ok(page, n);
    } else {
        put_lines(page, n, start_of(room, written));
    }
}

// 'dlpi replay'
pub fn put_title(page: &mut Page)
    requires { length title ≤ length (shown page.old).spare }
    ensures { Put (length title) title page.old page.new }
{
    page.put_word(b"dlpi replay\n");
}

// 'n records, m refused'
pub fn put_totals(page: &mut Page, n: u64, m: u64)
    requires { line_size ≤ length (shown page.old).spare }
    ensures { Put line_size (totals n m) page.old page.new }
{
    put_pair_line(page, n, b" records, ", m, b" refused\n");
}
