// The run of a program that may leave its text on another page than it was lent.
ghost use Rattle.std.specs.Prelude.{◌≡◌, ◌≤◌, List, ℕ, length};
ghost use Rattle.text.specs.Page.{shown, Added};
ghost use Rattle.paper.specs.Base.{fresh};
ghost use Rattle.table_image.specs.Layout.{image_of};
ghost use Rattle.turns.specs.Turns.{buffer_size, most_text};
ghost use Rattle.turns.specs.Programs.{Teller, CallRoom, Standing, AtTurn, AtCall, Kept};
ghost use Rattle.turns.specs.AnyPage.{TellsShown, CalledShown, TurnedShown};

use crate::{BUFFER_SIZE, MOST_CALLS, Turn, drain};
use std::io::{self, Read, Write};
use text::Page;

// A program by what it keeps beside the table.
pub trait Program {
    ghost tells: { Teller Self };

    // The first line.
    fn put_title(page: &mut Page)
        requires { length (shown page.old).spare ≡ buffer_size }
        ensures { Added buffer_size tells.title (shown page.old) (shown page.new) };

    // One call, and its text behind what is printed already; whether it was refused.
    fn call(
        &mut self,
        table: &mut [u8],
        bytes: &[u8],
        room: &mut [u8],
        page: &mut Page,
        n: u64,
    ) -> bool
        requires { CallRoom tells table.old self.old room.old page.old }
        ensures { TellsShown tells table.old bytes.now self.old page.old n table.new self.new page.new result };

    // The last line.
    fn put_closing(&self, page: &mut Page, calls: u64, refused: u64)
        requires { most_text ≤ length (shown page.old).spare }
        ensures { Added most_text (tells.closing self.now calls refused) (shown page.old) (shown page.new) };
}

// The call on what is not read yet, and its text behind what is printed already.
fn called<P: Program>(
    program: &mut P,
    table: &mut [u8],
    room: &mut [u8],
    input: &[u8],
    page: &mut Page,
    t: &mut Turn,
)
    requires { AtCall P.tells table.old program.old room.old input.now page.old t.old }
    ensures { CalledShown P.tells table.old program.old input.now page.old t.old table.new program.new page.new t.new }
{
    let bytes = &input[t.start..t.end];
    let refused = program.call(table, bytes, room, page, t.calls + 1);
    t.after_call(input, refused);
}

// A call is made where a whole record may stand in the input, or no more is to come. Reading ends behind the last record, and
// at one that is cut or of an unknown kind.
fn turned<P: Program>(
    program: &mut P,
    table: &mut [u8],
    room: &mut [u8],
    input: &[u8],
    page: &mut Page,
    t: &mut Turn,
)
    requires { AtTurn P.tells table.old program.old room.old input.now page.old t.old }
    ensures { TurnedShown P.tells table.old program.old input.now page.old t.old table.new program.new page.new t.new }
{
    if t.waits() {
        return;
    }
    if t.is_over() {
        t.stop();
        return;
    }
    called(program, table, room, input, page, t);
}

fn one_turn<P: Program, R: Read, W: Write>(
    program: &mut P,
    reader: &mut R,
    writer: &mut W,
    table: &mut [u8],
    room: &mut [u8],
    input: &mut [u8],
    page: &mut Page,
    t: &mut Turn,
) -> io::Result<()>
    requires { Standing P.tells table.old program.old room.old input.old page.old t.old }
    ensures { Kept P.tells table.new program.new page.new t.new }
{
    t.feed(reader, input)?;
    drain(page, writer)?;
    turned(program, table, room, input, page, t);
    Ok(())
}

// Turn after turn, until one says to stop; no more than 64 bits count.
fn run<P: Program, R: Read, W: Write>(
    program: &mut P,
    reader: &mut R,
    writer: &mut W,
    table: &mut [u8],
    room: &mut [u8],
    input: &mut [u8],
    page: &mut Page,
    t: &mut Turn,
) -> io::Result<()>
    requires { Standing P.tells table.old program.old room.old input.old page.old t.old }
    ensures { Kept P.tells table.new program.new page.new t.new }
{
    for _ in 0..MOST_CALLS {
        if !t.going {
            break;
        }
        one_turn(program, reader, writer, table, room, input, page, t)?;
    }
    Ok(())
}

// The whole text of a program, from a fresh table on. Where reading or writing fails there is no last line, so that what was
// printed is not taken for the whole.
pub fn tell<P: Program, R: Read, W: Write>(
    program: &mut P,
    reader: &mut R,
    writer: &mut W,
) -> io::Result<()>
    requires { P.tells.holds (image_of fresh) program.old }
    ensures { (table : List ℕ) × P.tells.holds table program.new }
{
    let mut table = [0u8; table_image::IMAGE_SIZE];
    table_image::make_fresh(&mut table);
    let mut room = [0u8; paper::FRAME_ROOM_SIZE];
    let mut input = [0u8; BUFFER_SIZE];
    let mut output = [0u8; BUFFER_SIZE];
    let mut page = Page::new(&mut output);
    P::put_title(&mut page);
    let mut t = Turn::first();
    let ran = run(
        program, reader, writer, &mut table, &mut room, &mut input, &mut page, &mut t,
    );
    if ran.is_err() {
        let _ = writer.write_all(page.text());
        return ran;
    }
    drain(&mut page, writer)?;
    program.put_closing(&mut page, t.calls, t.refused);
    writer.write_all(page.text())
}
