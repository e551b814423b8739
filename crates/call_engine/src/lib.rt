// The call: it reads one record, decides by value what that comes to, and concludes it.
#![tactic(auto)]

ghost use Rattle.std.specs.Prelude.{◌≡◌, ◌≤◌, true, length};
ghost use Rattle.paper.specs.RecordsIn.{message_size, message_in};
ghost use Rattle.paper.specs.Room.{room_for};
ghost use Rattle.paper.specs.StateRows.{state_rows};
ghost use Rattle.paper.specs.Step.{of_open, message, serve_by, is_readable};
ghost use Rattle.table_image.specs.Layout.{table_of, sound_image};
ghost use Rattle.table_image.specs.LentTable.{table_in};
ghost use Rattle.call_outcomes.specs.Leaving.{left, leaving, call_of};
ghost use Rattle.call_outcomes.specs.Answering.{call_number};
ghost use Rattle.call_outcomes.specs.Deciding.{Rightly};
ghost use Rattle.call_engine.specs.Reading.{Holds, ToStream, Servable};

use call_outcomes::{Deed, Refusal, Served};
use octets::BLOCK_SIZE;
use paper::{FRAME_ROOM_SIZE, HEAD_SIZE, Input, MAC_SIZE, MOST_DATA, ROOM_SIZE};
use table_image::LentTable;

// ---- what comes to a stream

// The L bytes of the message in a record.
fn message_in<'a>(r: &'a [u8], l: u8) -> &'a [u8]
    requires { Holds l r.now }
    ensures { result.now ≡ message_in r.now l }
{
    let end = HEAD_SIZE + l as usize;
    &r[HEAD_SIZE..end]
}

// A message of stream i, with n bytes of data: refusals 2, 5 and 4, then its answer.
fn message_to(table: LentTable, i: u8, l: u8, n: u8, r: &[u8]) -> Result<Deed, Refusal>
    requires { message_size ≤ length r.now }
    ensures { Rightly (table_in table.entry) r.now result (of_open (table_in table.entry) i (message state_rows (table_in table.entry) i l n r.now)) }
{
    if !table.is_open(i as usize) {
        return Err(Refusal::NotOpen);
    }
    if BLOCK_SIZE < l as usize {
        return Err(Refusal::OverLong);
    }
    if MOST_DATA < n as usize {
        return Err(Refusal::OverLong);
    }
    if l < 4 {
        return Err(Refusal::NoCode);
    }
    Ok(call_answering::answer_message(table, i, message_in(r, l)))
}

// Any message, any event.
fn decide_coming(table: LentTable, r: &[u8], q: Input) -> Result<Deed, Refusal>
    requires { ToStream q table.image.now r.now }
    ensures { Rightly (table_in table.entry) r.now result (serve_by state_rows (table_in table.entry) r.now q) }
{
    match q {
        Input::Message(i, l, n) => message_to(table, i, l, n, r),
        _ => call_events::occur(table, r, q),
    }
}

// ---- the call

// A record that was read as q, in room enough.
fn serve(img: &mut [u8], room: &mut [u8], r: &[u8], q: Input) -> Result<Served, Refusal>
    requires { Servable q img.old r.now room.old }
    ensures { left (call_number result) img.new room.new ≡ leaving img.old room.old (serve_by state_rows (table_of img.old) r.now q) }
{
    match q {
        Input::AddPpa(p) => call_openings::add_ppa(img, p, octets::part_at(r, 5, MAC_SIZE)),
        Input::Open => call_openings::open_stream(img),
        Input::Close(i) => call_openings::close_stream(img, room, i),
        Input::Frame(f) => call_frames::show(LentTable { image: img }, room, r, f),
        _ => {
            let d = decide_coming(LentTable { image: img }, r, q);
            call_enacting::conclude(img, room, r, d)
        }
    }
}

#[tactic(auto, unfolding(paper::specs::Step::is_readable))]
fn is_readable(q: Input) -> bool
    ensures { result ≡ is_readable q }
{
    !matches!(q, Input::Unreadable | Input::Malformed)
}

// A call needs 128 bytes of room, the frame event 4,096.
fn room_for(q: Input) -> usize
    ensures { result ≡ room_for q }
{
    match q {
        Input::Frame(_) => FRAME_ROOM_SIZE,
        _ => ROOM_SIZE,
    }
}

// The call on a table that is known to be sound: refusals 10 and 1, then what the record asks for.
pub fn call_sound(img: &mut [u8], r: &[u8], room: &mut [u8]) -> Result<Served, Refusal>
    requires { sound_image img.old ≡ true }
    ensures { left (call_number result) img.new room.new ≡ call_of img.old r.now room.old }
{
    let q = wire_records::input_of(r);
    if !is_readable(q) {
        return Err(Refusal::NotARecord);
    }
    if room.len() < room_for(q) {
        return Err(Refusal::LittleRoom);
    }
    serve(img, room, r, q)
}

// The call on any table: refusal 16 first.
pub fn call(img: &mut [u8], r: &[u8], room: &mut [u8]) -> Result<Served, Refusal>
    ensures { left (call_number result) img.new room.new ≡ call_of img.old r.now room.old }
{
    if !table_soundness::sound_image(img) {
        return Err(Refusal::NotSound);
    }
    call_sound(img, r, room)
}
