// Adding a PPA, opening and closing.
#![tactic(auto)]

ghost use Rattle.std.specs.Prelude.{List, map, length, ◌<◌, ◌≡◌, ◌≤◌, ℕ};
ghost use Rattle.paper.specs.Base.{stream_total, slot, waiting};
ghost use Rattle.paper.specs.RecordsOut.{all_bytes};
ghost use Rattle.paper.specs.Openings.{adds_ppa, opens, goodbye, goodbyes, closes};
ghost use Rattle.paper.specs.Step.{of_open};
ghost use Rattle.paper.specs.Room.{room_size};
ghost use Rattle.table_image.specs.Layout.{table_of};
ghost use Rattle.call_outcomes.specs.Leaving.{left, leaving};
ghost use Rattle.call_outcomes.specs.Answering.{call_number};
ghost use Rattle.octets.specs.Writing.{WroteMost};
ghost use Rattle.table_image.specs.Lent.{LentMac};
ghost use Rattle.table_image.specs.LentTable.{table_in};
ghost use Rattle.call_outcomes.specs.Rooms.{LentCall};
ghost use Rattle.call_openings.specs.Openable.{Openable, most_goodbyes};

use call_outcomes::{Refusal, Served};
use paper::{Correlation, DISCONNECT_SIZE, LineOrder, MOST_PPAS, PpaNumber};
use table_image::LentTable;

// G adds a PPA: none after any opening, no ninth, none whose number is already there.
pub fn add_ppa(img: &mut [u8], p: PpaNumber, mac: &[u8]) -> Result<Served, Refusal>
    requires { LentMac mac.now img.old }
    ensures { (room : List ℕ) → left (call_number result) img.new room ≡ leaving img.old room (adds_ppa (table_of img.old) p mac.now) }
{
    let table = LentTable { image: img };
    if table.remembers() {
        return Err(Refusal::NoNewPpa);
    }
    if MOST_PPAS <= table.ppa_total() as usize {
        return Err(Refusal::NoNewPpa);
    }
    if table_lookup::knows(table, p) {
        return Err(Refusal::NoNewPpa);
    }
    table_image::store_ppa(img, p, mac);
    Ok(Served::Wrote(0))
}

// Opening takes the lowest free stream and gives its token.
pub fn open_stream(img: &mut [u8]) -> Result<Served, Refusal>
    requires { Openable img.old }
    ensures { (room : List ℕ) → left (call_number result) img.new room ≡ leaving img.old room (opens (table_of img.old)) }
{
    if table_image::free_total(img) == 0 {
        return Err(Refusal::AllOpen);
    }
    let i = table_image::lowest_free(img);
    table_image::open_slot(img, i as usize);
    Ok(Served::Opened(i as u8 + 1))
}

// A d with reason 0 for each open indication, the oldest first.
fn put_drops(table: LentTable, room: &mut [u8], i: u8) -> usize
    requires within { i < stream_total }
    requires roomy { room_size ≤ length room.old }
    ensures { WroteMost most_goodbyes (all_bytes (map (goodbye i) (waiting (table_in table.entry) i))) 0 result room.old room.new }
{
    let at = i as usize;
    let count = table.count_at(at) as usize;
    for k in 0..count {
        let c = table_numbers::number_at(table, at, k);
        wire_replies::put_order(
            &mut room[k * DISCONNECT_SIZE..],
            i,
            LineOrder::Disconnect(c, 0),
        );
    }
    count * DISCONNECT_SIZE
}

// From 9 one d for each open indication; from 8, 11, 12, 13 one with correlation 0.
fn put_goodbyes(table: LentTable, room: &mut [u8], i: u8) -> usize
    requires within { i < stream_total }
    requires roomy { room_size ≤ length room.old }
    ensures { WroteMost most_goodbyes (all_bytes (goodbyes i (slot (table_in table.entry) i))) 0 result room.old room.new }
{
    let state = table.state_at(i as usize);
    if state.number() == 9 {
        return put_drops(table, room, i);
    }
    if state.is_calling() {
        return wire_replies::put_order(room, i, LineOrder::Disconnect(Correlation(0), 0));
    }
    0
}

// A close tells the line, and frees the stream.
pub fn close_stream(img: &mut [u8], room: &mut [u8], i: u8) -> Result<Served, Refusal>
    requires { LentCall img.old room.old }
    ensures { left (call_number result) img.new room.new ≡ leaving img.old room.old (of_open (table_of img.old) i (closes (table_of img.old) i)) }
{
    let at = i as usize;
    let table = LentTable { image: img };
    if !table.is_open(at) {
        return Err(Refusal::NotOpen);
    }
    let written = put_goodbyes(table, room, i);
    table_image::close_slot(img, at);
    Ok(Served::Wrote(written as u16))
}
