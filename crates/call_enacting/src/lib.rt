// What was decided, concluded: an effect's records are written to the lent room, then the lent table is changed.
#![tactic(auto)]

ghost use Rattle.std.specs.Prelude.{ℕ, ◌≡◌, ◌+◌, ◌<◌, ◌≤◌, length, Some};
ghost use Rattle.paper.specs.Base.{stream_total, slot, mac_at};
ghost use Rattle.paper.specs.RecordsOut.{up, bytes_of, unitdata_size, all_bytes};
ghost use Rattle.paper.specs.Effects.{named_by, orders_in, behind_reply, ups_in, told};
ghost use Rattle.table_image.specs.Layout.{table_of};
ghost use Rattle.table_image.specs.LentTable.{table_in};
ghost use Rattle.call_outcomes.specs.Leaving.{left, leaving};
ghost use Rattle.call_outcomes.specs.declared.Refusal.{Refusal};
ghost use Rattle.call_outcomes.specs.Deciding.{outcome_of, outcome_by};
ghost use Rattle.call_outcomes.specs.Answering.{number_by};
ghost use Rattle.call_enacting.specs.Behind.{own_behind, behind_by};
ghost use Rattle.paper.specs.RecordsIn.{message_size, data_size, block_in};
ghost use Rattle.paper.specs.Room.{room_size, Fits, most_of_order, most_told, most_said};
ghost use Rattle.octets.specs.Writing.{WroteMost};
ghost use Rattle.paper.specs.Replies.{most_tail};
ghost use Rattle.call_enacting.specs.Concluding.{Concludes, Numbered, WroteBeside, datagram_bytes};

use call_outcomes::{Deed, Served};
use octets::BLOCK_SIZE;
use paper::{
    ADDRESS_SIZE, BODY_SIZE, Effect, Form, HEAD_SIZE, LineOrder, MAC_SIZE, MESSAGE_SIZE, MOST_TAIL,
    Reply, START_SIZE,
};
use table_image::LentTable;

// Where the M of a pair has its length and data.
const DATA_PLACE: usize = MESSAGE_SIZE + START_SIZE;

// ---- the records

// The stream that an order names.
fn named_by(i: u8, c: u8, o: LineOrder) -> u8
    ensures { result ≡ named_by i c o }
{
    match o {
        LineOrder::Connect(_) => i,
        LineOrder::Accept(_) => c,
        LineOrder::Disconnect(_, _) => i,
        LineOrder::Reset => i,
        LineOrder::ResetAnswer => i,
        LineOrder::Unitdata(_, _) => i,
    }
}

// The block of a message's record.
fn block_in<'a>(r: &'a [u8]) -> &'a [u8]
    ensures { result.now ≡ block_in r.now }
{
    octets::part_at(r, HEAD_SIZE, BLOCK_SIZE)
}

// u and its M: the address is handed on as that part of the message, the data as they were lent.
fn put_datagram(room: &mut [u8], s: u8, at: u8, form: Form, r: &[u8]) -> usize
    requires { unitdata_size + data_size ≤ length room.old }
    ensures { WroteMost (unitdata_size + data_size) (datagram_bytes s at form r.now) 0 result room.old room.new }
{
    let address = wire_messages::address_in(block_in(r), at, form);
    let a = wire_replies::put_unitdata(room, s, at, form, address);
    a + wire_replies::put_data(&mut room[a..], s, octets::part_at(r, DATA_PLACE, BODY_SIZE))
}

// An order to the line. The address of a connect is handed on as that part of the message. (No order reads the stream's
// own slot.)
fn put_named_order(room: &mut [u8], i: u8, c: u8, r: &[u8], o: LineOrder) -> usize
    requires { most_of_order o ≤ length room.old }
    ensures { WroteBeside (most_of_order o) (λ own. all_bytes (orders_in i c own r.now (Some o))) result room.old room.new }
{
    let s = named_by(i, c, o);
    match o {
        LineOrder::Connect(at) => wire_replies::put_connect(
            room,
            s,
            at,
            wire_messages::address_at(block_in(r), at),
        ),
        LineOrder::Unitdata(at, form) => put_datagram(room, s, at, form, r),
        _ => wire_replies::put_order(room, s, o),
    }
}

// What the line is told.
fn put_orders(room: &mut [u8], i: u8, c: u8, r: &[u8], telling: Option<LineOrder>) -> usize
    requires { most_told telling ≤ length room.old }
    ensures { WroteBeside (most_told telling) (λ own. all_bytes (orders_in i c own r.now telling)) result room.old room.new }
{
    match telling {
        None => 0,
        Some(o) => put_named_order(room, i, c, r, o),
    }
}

// The MAC of the PPA that a stream is attached to.
fn mac_at(table: LentTable, i: u8) -> [u8; MAC_SIZE]
    requires { i < stream_total }
    ensures { result ≡ mac_at (table_in table.entry) i }
{
    let p = table.attached_at(i as usize);
    table_lookup::mac_of(table, p)
}

// The stream's own address, where the message up ends in it: behind the fields of INFO_ACK and BIND_ACK.
fn put_own_address(table: LentTable, own: &mut [u8], i: u8, reply: Reply) -> usize
    requires within { i < stream_total }
    requires roomy { most_tail ≤ length own.old }
    ensures { WroteMost most_tail (own_behind (mac_at (table_in table.entry) i) reply) 0 result own.old own.new }
{
    match reply {
        Reply::InfoAck(s) => {
            let mac = mac_at(table, i);
            wire_replies::put_info_tail(own, s, mac)
        }
        Reply::BindAck(sap, _) => {
            let mac = mac_at(table, i);
            wire_replies::put_address(own, mac, sap)
        }
        _ => 0,
    }
}

// What stands behind the fields of a message up: the addresses of the event's record behind those of CONNECT_IND and
// CONNECT_CON, else the stream's own.
fn behind<'a>(own: &'a [u8], r: &'a [u8], reply: Reply) -> &'a [u8]
    ensures { result.now ≡ behind_by own.now r.now reply }
{
    match reply {
        Reply::ConnectInd(_) => octets::part_at(r, 5, MOST_TAIL),
        Reply::ConnectCon => octets::part_at(r, 2, ADDRESS_SIZE),
        _ => own,
    }
}

// A message up.
fn put_reply(table: LentTable, room: &mut [u8], i: u8, r: &[u8], reply: Reply) -> usize
    requires within { i < stream_total }
    requires roomy { message_size ≤ length room.old }
    ensures { WroteMost message_size (bytes_of (up i reply (behind_reply (mac_at (table_in table.entry) i) r.now reply))) 0 result room.old room.new }
{
    let mut own = [0u8; MOST_TAIL];
    let size = put_own_address(table, &mut own, i, reply);
    let tail = behind(&own[0..size], r, reply);
    wire_replies::put_up(room, i, reply, tail)
}

// What the stream's user is told.
fn put_replies(table: LentTable, room: &mut [u8], i: u8, r: &[u8], saying: Option<Reply>) -> usize
    requires within { i < stream_total }
    requires roomy { most_said saying ≤ length room.old }
    ensures { WroteMost (most_said saying) (all_bytes (ups_in i (mac_at (table_in table.entry) i) r.now saying)) 0 result room.old room.new }
{
    match saying {
        None => 0,
        Some(reply) => put_reply(table, room, i, r, reply),
    }
}

// The order first, then F, then the message up, each right behind the one before.
fn put_records(table: LentTable, room: &mut [u8], i: u8, c: u8, r: &[u8], e: Effect) -> usize
    requires within { i < stream_total }
    requires roomy { room_size ≤ length room.old }
    requires fits { Fits e }
    ensures { WroteMost room_size
        (all_bytes (told i c (slot (table_in table.entry) i) (mac_at (table_in table.entry) i) r.now e)) 0 result room.old room.new }
{
    let telling = e.order;
    let saying = e.up;
    let a = put_orders(room, i, c, r, telling);
    let b = a + wire_replies::put_flush_if(&mut room[a..], e.flush, i);
    b + put_replies(table, &mut room[b..], i, r, saying)
}

// ---- the call

// An effect, of a message or an event, whose record r is; how many bytes it wrote.
fn enact(img: &mut [u8], room: &mut [u8], r: &[u8], d: Deed) -> u16
    requires { Concludes {E = Refusal} (Ok d) img.old room.old }
    ensures { left result img.new room.new ≡ leaving img.old room.old (outcome_of (table_of img.old) r.now (Ok d)) }
{
    let i = d.stream;
    let c = d.carrier;
    let change = d.effect.change;
    let carries = d.effect.carries;
    let n = put_records(LentTable { image: img }, room, i, c, r, d.effect);
    call_changes::change_stream(img, i, change);
    call_changes::carry(img, c, carries);
    n as u16
}

// What was decided, of a message or an event, whose record r is. A refusal, however refusals are numbered, leaves all as it stood.
pub fn conclude<E>(
    img: &mut [u8],
    room: &mut [u8],
    r: &[u8],
    d: Result<Deed, E>,
) -> Result<Served, E>
    requires { Concludes {E = E} d img.old room.old }
    ensures { (k : E → ℕ) → Numbered k d → left (number_by k result) img.new room.new ≡ leaving img.old room.old (outcome_by k (table_of img.old) r.now d) }
{
    match d {
        Err(refusal) => Err(refusal),
        Ok(deed) => Ok(Served::Wrote(enact(img, room, r, deed))),
    }
}
