// How a program reads records on its input, makes a call for each and prints its text: where it stands between two calls, and how
// it reads on and writes out.
#![tactic(auto)]

mod any_page;

ghost use Rattle.std.specs.Prelude.{◌≡◌, ◌<◌, ◌≤◌, List, ℕ, false, length};
ghost use Rattle.octets.specs.Runs.{part, paste};
ghost use Rattle.text.specs.Page.{shown, Put};
ghost use Rattle.paper.specs.Base.{fresh};
ghost use Rattle.table_image.specs.Layout.{image_of};
ghost use Rattle.turns.specs.Turns.{buffer_size, most_text, most_calls, first_turn, waits, is_over, stopping, after_call};
ghost use Rattle.turns.specs.Turns.{Fine, FineAs, Buffer, CallMade, Rest, Fed, Whole, Drained};
ghost use Rattle.turns.specs.Programs.{Teller, CallRoom, Tells, Standing, AtTurn, AtCall, Called, Turned, Kept};

pub use any_page::{Program, tell};
use std::io::{self, Read, Write};
use text::Page;

// A buffer of the program.
pub const BUFFER_SIZE: usize = 163840;
// What may wait to be written while a call is made: the text of a call has room behind it.
const MOST_WAITING: usize = 45000;
// 64 bits count no more.
pub const MOST_CALLS: u64 = u64::MAX;

// A program by what it keeps beside the table. Its text stays in the bytes that its page was lent.
pub trait LentProgram {
    ghost tells: { Teller Self };

    // The first line.
    fn put_title(page: &mut Page)
        requires { length (shown page.old).spare ≡ buffer_size }
        ensures { Put buffer_size tells.title page.old page.new };

    // One call, and its text behind what is printed already; whether it was refused.
    fn call(
        &mut self,
        table: &mut [u8],
        bytes: &[u8],
        room: &mut [u8],
        page: &mut Page,
        n: u64,
    ) -> bool
        requires { CallRoom tells table.old self.old room.old page.old }
        ensures { Tells tells table.old bytes.now self.old page.old n table.new self.new page.new result };

    // The last line.
    fn put_closing(&self, page: &mut Page, calls: u64, refused: u64)
        requires { most_text ≤ length (shown page.old).spare }
        ensures { Put most_text (tells.closing self.now calls refused) page.old page.new };
}

// Where the bytes not yet read stand in the input, and whether there are more to come; how many calls were made, and how many
// refused; whether to go on.
#[derive(Clone, Copy)]
pub struct Turn {
    pub start: usize,
    pub end: usize,
    pub ended: bool,
    pub calls: u64,
    pub refused: u64,
    pub going: bool,
}

// Bytes of a buffer, no more than the longest record has with its data, to its start.
fn shift(buf: &mut [u8], from: usize, n: usize)
    requires { Rest n from buf.old }
    ensures { buf.new ≡ paste buf.old 0 (part buf.old from n) }
{
    let mut rest = [0u8; paper::PAIR_SIZE];
    octets::put_bytes(&mut rest, 0, &buf[from..from + n]);
    octets::put_bytes(buf, 0, &rest[0..n]);
}

impl Turn {
    // Nothing is read and nothing counted.
    pub fn first() -> Turn
        ensures { FineAs first_turn result }
    {
        Turn {
            start: 0,
            end: 0,
            ended: false,
            calls: 0,
            refused: 0,
            going: true,
        }
    }

    // More input, where a record may be cut: what is left goes to the front, and one read follows it.
    pub fn feed<R: Read>(&mut self, reader: &mut R, input: &mut [u8]) -> io::Result<()>
        requires { Buffer input.old self.old }
        ensures { Fed input.old self.old input.new self.new }
    {
        let start = self.start;
        let left = self.end - start;
        if paper::PAIR_SIZE <= left || self.ended {
            return Ok(());
        }
        shift(input, start, left);
        self.start = 0;
        self.end = left;
        let more = reader.read(&mut input[left..])?;
        self.end += more;
        self.ended = more == 0;
        Ok(())
    }

    // A record may be cut, and more bytes may come.
    pub fn waits(self) -> bool
        requires { Fine self }
        ensures { result ≡ waits self }
    {
        self.end - self.start < paper::PAIR_SIZE && !self.ended
    }

    // No bytes are left, or no numbers to count calls with.
    pub fn is_over(self) -> bool
        requires { Fine self }
        ensures is { result ≡ is_over self }
        ensures numbered { result ≡ false → self.calls < most_calls }
    {
        self.end - self.start == 0 || self.calls == MOST_CALLS
    }

    // No more turns.
    pub fn stop(&mut self)
        requires { Fine self.old }
        ensures { FineAs (stopping self.old) self.new }
    {
        self.going = false;
    }

    // A call was made on what is not read yet, and was refused or not.
    pub fn after_call(&mut self, input: &[u8], refused: bool)
        requires { CallMade input.now self.old }
        ensures { FineAs (after_call input.now refused self.old) self.new }
    {
        let size = wire_records::record_size(&input[self.start..self.end]);
        self.start += size;
        self.calls += 1;
        self.refused += u64::from(refused);
        self.going = 0 < size;
    }
}

// What is printed to be written out, where little room is left on the page.
pub fn drain<W: Write>(page: &mut Page, writer: &mut W) -> io::Result<()>
    requires { Whole page.old }
    ensures { Drained page.old page.new }
{
    if page.text().len() <= MOST_WAITING {
        return Ok(());
    }
    let written = writer.write_all(page.text());
    page.clear();
    written
}

// The call on what is not read yet, and its text behind what is printed already.
fn called<P: LentProgram>(
    program: &mut P,
    table: &mut [u8],
    room: &mut [u8],
    input: &[u8],
    page: &mut Page,
    t: &mut Turn,
)
    requires { AtCall P.tells table.old program.old room.old input.now page.old t.old }
    ensures { Called P.tells table.old program.old input.now page.old t.old table.new program.new page.new t.new }
{
    let bytes = &input[t.start..t.end];
    let refused = program.call(table, bytes, room, page, t.calls + 1);
    t.after_call(input, refused);
}

// A call is made where a whole record may stand in the input, or no more is to come. Reading ends behind the last record, and
// at one that is cut or of an unknown kind.
fn turned<P: LentProgram>(
    program: &mut P,
    table: &mut [u8],
    room: &mut [u8],
    input: &[u8],
    page: &mut Page,
    t: &mut Turn,
)
    requires { AtTurn P.tells table.old program.old room.old input.now page.old t.old }
    ensures { Turned P.tells table.old program.old input.now page.old t.old table.new program.new page.new t.new }
{
    if t.waits() {
        return;
    }
    if t.is_over() {
        t.stop();
        return;
    }
    called(program, table, room, input, page, t);
}

fn one_turn<P: LentProgram, R: Read, W: Write>(
    program: &mut P,
    reader: &mut R,
    writer: &mut W,
    table: &mut [u8],
    room: &mut [u8],
    input: &mut [u8],
    page: &mut Page,
    t: &mut Turn,
) -> io::Result<()>
    requires { Standing P.tells table.old program.old room.old input.old page.old t.old }
    ensures { Kept P.tells table.new program.new page.new t.new }
{
    t.feed(reader, input)?;
    drain(page, writer)?;
    turned(program, table, room, input, page, t);
    Ok(())
}

// Turn after turn, until one says to stop; no more than 64 bits count.
fn run<P: LentProgram, R: Read, W: Write>(
    program: &mut P,
    reader: &mut R,
    writer: &mut W,
    table: &mut [u8],
    room: &mut [u8],
    input: &mut [u8],
    page: &mut Page,
    t: &mut Turn,
) -> io::Result<()>
    requires { Standing P.tells table.old program.old room.old input.old page.old t.old }
    ensures { Kept P.tells table.new program.new page.new t.new }
{
    for _ in 0..MOST_CALLS {
        if !t.going {
            break;
        }
        one_turn(program, reader, writer, table, room, input, page, t)?;
    }
    Ok(())
}

// The whole text of such a program, from a fresh table on. Where reading or writing fails there is no last line, so that what was
// printed is not taken for the whole.
pub fn tell_lent<P: LentProgram, R: Read, W: Write>(
    program: &mut P,
    reader: &mut R,
    writer: &mut W,
) -> io::Result<()>
    requires { P.tells.holds (image_of fresh) program.old }
    ensures { (table : List ℕ) × P.tells.holds table program.new }
{
    let mut table = [0u8; table_image::IMAGE_SIZE];
    table_image::make_fresh(&mut table);
    let mut room = [0u8; paper::FRAME_ROOM_SIZE];
    let mut input = [0u8; BUFFER_SIZE];
    let mut output = [0u8; BUFFER_SIZE];
    let mut page = Page::new(&mut output);
    P::put_title(&mut page);
    let mut t = Turn::first();
    let ran = run(
        program, reader, writer, &mut table, &mut room, &mut input, &mut page, &mut t,
    );
    if ran.is_err() {
        let _ = writer.write_all(page.text());
        return ran;
    }
    drain(&mut page, writer)?;
    program.put_closing(&mut page, t.calls, t.refused);
    writer.write_all(page.text())
}
