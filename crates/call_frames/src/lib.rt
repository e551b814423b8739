// A frame: each stream that it is shown to gets one indication with its M, in stream order.
#![tactic(auto)]

ghost use Rattle.std.specs.Prelude.{◌<◌, ◌≡◌, take};
ghost use Rattle.octets.specs.Runs.{same_bytes};
ghost use Rattle.octets.specs.Writing.{WroteMost};
ghost use Rattle.paper.specs.Base.{mac_size, stream_total, slot, mac_of};
ghost use Rattle.paper.specs.RecordsIn.{pair_size, frame_called_in};
ghost use Rattle.paper.specs.RecordsOut.{all_bytes};
ghost use Rattle.paper.specs.Datagrams.{is_for, is_shown, shown_below, indications, frames};
ghost use Rattle.paper.specs.StateRows.{state_rows};
ghost use Rattle.table_image.specs.LentTable.{table_in};
ghost use Rattle.call_outcomes.specs.Leaving.{left, leaving};
ghost use Rattle.call_outcomes.specs.Answering.{call_number};
ghost use Rattle.call_frames.specs.Showing.{if_shown, block_of, Framed, ShowsOne, Shows, most_shown};

use call_outcomes::{Refusal, Served};
use octets::BLOCK_SIZE;
use paper::{BODY_SIZE, Form, Frame, MAC_SIZE, MOST_DATA, STREAM_TOTAL, Stream};
use table_image::LentTable;

// A stream with a row for frames, of its PPA, bound to its SAP in its form.
fn is_for(s: Stream, f: Frame) -> bool
    ensures { result ≡ is_for state_rows f s }
{
    let form = f.form;
    if !paper_rows::takes_frames(s) {
        return false;
    }
    if s.ppa.0 != f.ppa.0 {
        return false;
    }
    if s.sap != f.sap {
        return false;
    }
    Form::of_sap(s.sap).length() == form.length()
}

// The stream is open, and the frame is for it. The SAP is asked first: it is another for most.
fn is_shown(table: LentTable, i: usize, f: Frame) -> bool
    requires { i < stream_total }
    ensures { result ≡ is_shown state_rows f (slot (table_in table.entry) i) }
{
    if table.sap_at(i) != f.sap {
        return false;
    }
    if !table.is_open(i) {
        return false;
    }
    is_for(table.load_stream(i), f)
}

// The block of an indication, which is the same for all streams.
fn block_in(r: &[u8], form: Form) -> [u8; BLOCK_SIZE]
    ensures { result ≡ block_of r.now form }
{
    let length = form.length();
    wire_replies::unitdata_block(
        form,
        octets::part_at(r, 6, length),
        octets::part_at(r, 14, length),
    )
}

// An indication and its M, where the frame is shown to the stream.
fn put_if_shown(
    table: LentTable,
    room: &mut [u8],
    i: usize,
    r: &[u8],
    f: Frame,
    block: &[u8],
) -> usize
    requires { ShowsOne i r.now f block.now room.old }
    ensures { WroteMost pair_size (all_bytes (indications r.now f (if_shown (table_in table.entry) f i))) 0 result room.old room.new }
{
    let form = f.form;
    if !is_shown(table, i, f) {
        return 0;
    }
    let size = 24 + 2 * form.length();
    wire_replies::put_indication(
        room,
        i as u8,
        size as u8,
        block,
        octets::part_at(r, 22, BODY_SIZE),
    )
}

// In stream order, each right behind the one before.
fn put_indications(table: LentTable, room: &mut [u8], r: &[u8], f: Frame, block: &[u8]) -> usize
    requires { Shows r.now f block.now room.old }
    ensures { WroteMost most_shown (all_bytes (indications r.now f (shown_below state_rows (table_in table.entry) f stream_total))) 0 result room.old room.new }
{
    let mut n = 0;
    for i in 0..STREAM_TOTAL {
        n += put_if_shown(table, &mut room[n..], i, r, f, block);
    }
    n
}

// The called MAC is that of the PPA.
fn is_called(table: LentTable, r: &[u8], f: Frame) -> bool
    ensures { result ≡ same_bytes (take mac_size (frame_called_in r.now f.form)) (mac_of (table_in table.entry) f.ppa) }
{
    let p = f.ppa;
    table_lookup::has_mac(table, p, octets::part_at(r, 6, MAC_SIZE))
}

// 5 for data over 64, 7 on an unknown PPA; else the indications, none where the called MAC is another.
pub fn show(table: LentTable, room: &mut [u8], r: &[u8], f: Frame) -> Result<Served, Refusal>
    requires { Framed r.now room.old }
    ensures { left (call_number result) table.entry.image.now room.new ≡ leaving table.entry.image.now room.old (frames state_rows (table_in table.entry) r.now f) }
{
    let p = f.ppa;
    let form = f.form;
    if MOST_DATA < f.bytes as usize {
        return Err(Refusal::OverLong);
    }
    if !table_lookup::knows(table, p) {
        return Err(Refusal::NobodyThere);
    }
    if !is_called(table, r, f) {
        return Ok(Served::Wrote(0));
    }
    let block = block_in(r, form);
    let written = put_indications(table, room, r, f, &block);
    Ok(Served::Wrote(written as u16))
}
