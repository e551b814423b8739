// The records out, each written at the start of a lent room.
#![tactic(auto)]

ghost use Rattle.std.specs.Prelude.{◌≡◌, true, [], ◌∷◌, ◌++◌, ◌+◌, ◌≤◌, length};
ghost use Rattle.ledger.specs.Choice.{pick};
ghost use Rattle.octets.specs.Blocks.{flat, pad, pad_to};
ghost use Rattle.octets.specs.Writing.{Wrote, WroteMost};
ghost use Rattle.paper.specs.Base.{most_address, length_of, number, header_number, is_among, told_states};
ghost use Rattle.paper.specs.RecordsIn.{message_size, data_size, pair_size};
ghost use Rattle.paper.specs.RecordsOut.{order, up, datum, bytes_of, all_bytes, flush_if, message_bytes};
ghost use Rattle.paper.specs.RecordsOut.{start_size, connect_size, accept_size, disconnect_size, unitdata_size};
ghost use Rattle.paper.specs.Replies.{address_of, info_fields, info_tail, most_tail, unitdata_fields};
ghost use Rattle.wire_replies.specs.Rooms.{Calls, Sends, Carries, InBlock, Behind, BehindInfo, Addressed, Indicates, message_under};

use octets::BLOCK_SIZE;
use paper::{
    ACCEPT_SIZE, ADDRESS_SIZE, Correlation, DISCONNECT_SIZE, Form, HEAD_SIZE, LineOrder, MAC_SIZE,
    MESSAGE_SIZE, MOST_ADDRESS, Reply, START_SIZE, Stream, UNITDATA_SIZE,
};

// ---- orders to the line, and the flush

// A letter and a stream: how each of these records starts.
fn put_start(room: &mut [u8], letter: u8, s: u8) -> usize
    requires { start_size ≤ length room.old }
    ensures { Wrote (letter ∷ s ∷ []) 0 result room.old room.new }
{
    octets::put_bytes(room, 0, &[letter, s]);
    START_SIZE
}

// a: carrying stream, correlation.
fn put_accept(room: &mut [u8], s: u8, c: Correlation) -> usize
    requires { accept_size ≤ length room.old }
    ensures { Wrote (bytes_of (order s (LineOrder.Accept c) [])) 0 result room.old room.new }
{
    let at = put_start(room, b'a', s);
    octets::put_number::<u32>(room, at, c.0);
    ACCEPT_SIZE
}

// d: stream, correlation, reason.
fn put_disconnect(room: &mut [u8], s: u8, c: Correlation, reason: u32) -> usize
    requires { disconnect_size ≤ length room.old }
    ensures { Wrote (bytes_of (order s (LineOrder.Disconnect c reason) [])) 0 result room.old room.new }
{
    let at = put_start(room, b'd', s);
    octets::put_number::<u32>(room, at, c.0);
    octets::put_number::<u32>(room, at + 4, reason);
    DISCONNECT_SIZE
}

// u: stream, address length.
fn put_unitdata_start(room: &mut [u8], s: u8, form: Form) -> usize
    requires { start_size + 1 ≤ length room.old }
    ensures { Wrote (117 ∷ s ∷ length_of form ∷ []) 0 result room.old room.new }
{
    let size = form.length();
    octets::put_bytes(room, 0, &[b'u', s, size as u8]);
    START_SIZE + 1
}

// An order without the address that c and u carry.
pub fn put_order(room: &mut [u8], s: u8, o: LineOrder) -> usize
    requires { disconnect_size ≤ length room.old }
    ensures { WroteMost disconnect_size (bytes_of (order s o [])) 0 result room.old room.new }
{
    match o {
        LineOrder::Connect(_) => put_start(room, b'c', s),
        LineOrder::Accept(c) => put_accept(room, s, c),
        LineOrder::Disconnect(c, reason) => put_disconnect(room, s, c, reason),
        LineOrder::Reset => put_start(room, b'r', s),
        LineOrder::ResetAnswer => put_start(room, b's', s),
        LineOrder::Unitdata(_, form) => put_unitdata_start(room, s, form),
    }
}

// c: stream, called address.
pub fn put_connect(room: &mut [u8], s: u8, at: u8, called: &[u8]) -> usize
    requires { Calls called.now room.old }
    ensures { WroteMost connect_size (bytes_of (order s (LineOrder.Connect at) called.now)) 0 result room.old room.new }
{
    let at = put_start(room, b'c', s);
    octets::put_bytes(room, at, called);
    at + called.len()
}

// u: stream, address length, 8 bytes of address, zero past its length.
pub fn put_unitdata(room: &mut [u8], s: u8, at: u8, form: Form, address: &[u8]) -> usize
    requires { Sends form address.now room.old }
    ensures { WroteMost unitdata_size (bytes_of (order s (LineOrder.Unitdata at form) (pad_to most_address address.now)))
        0 result room.old room.new }
{
    let mut field = [0u8; MOST_ADDRESS];
    octets::put_bytes(&mut field, 0, address);
    let at = put_unitdata_start(room, s, form);
    octets::put_bytes(room, at, &field);
    UNITDATA_SIZE
}

// M: stream; length and data as they were lent. (As `put_connect` but for the letter; what both write is short enough to say twice.)
pub fn put_data(room: &mut [u8], s: u8, body: &[u8]) -> usize
    requires { Carries body.now room.old }
    ensures { WroteMost data_size (bytes_of (datum s body.now)) 0 result room.old room.new }
{
    let at = put_start(room, b'M', s);
    octets::put_bytes(room, at, body);
    at + body.len()
}

// F: stream; nothing where no flush is due.
pub fn put_flush_if(room: &mut [u8], on: bool, s: u8) -> usize
    requires { start_size ≤ length room.old }
    ensures { WroteMost start_size (all_bytes (flush_if on s)) 0 result room.old room.new }
{
    if on {
        return put_start(room, b'F', s);
    }
    0
}

// ---- messages up

// P or C: stream, length L, the block of 96 bytes, zero past L.
fn put_message(room: &mut [u8], letter: u8, s: u8, fields: &[u32], tail: &[u8]) -> usize
    requires { InBlock fields.now tail.now room.old }
    ensures { WroteMost message_size (message_under letter s (flat fields.now ++ tail.now)) 0 result room.old room.new }
{
    let size = fields.len() * 4 + tail.len();
    octets::put_bytes(room, 0, &[letter, s, size as u8]);
    octets::put_bytes(room, HEAD_SIZE, &octets::block_with(fields, tail));
    MESSAGE_SIZE
}

// The stream's state is one in which INFO_ACK tells its binding.
fn is_told(q: Stream) -> bool
    ensures { result ≡ is_among told_states q }
{
    q.state.tells_binding()
}

// The stream's state by its number in the public header.
fn shown_state(q: Stream) -> u8
    ensures { result ≡ header_number (number q) }
{
    q.state.header_number()
}

// INFO_ACK with the five fields that differ from stream to stream.
fn put_info_fields(
    room: &mut [u8],
    s: u8,
    state: u8,
    address: u32,
    sap: u32,
    mode: u8,
    offset: u32,
    tail: &[u8],
) -> usize
    requires { BehindInfo address tail.now room.old }
    ensures { WroteMost message_size (message_bytes true s (flat (0x03 ∷ info_fields state address sap mode offset) ++ tail.now)) 0 result room.old room.new }
{
    let q = u32::from(state);
    let m = u32::from(mode);
    let broadcast = 76 + address;
    let fields = [
        0x03, 1497, 0, address, 0, 0, q, sap, m, 0, 0, 0, 0, 0x0501, offset, 2, 6, broadcast, 0,
    ];
    put_message(room, b'C', s, &fields, tail)
}

// Unbound: address length, SAP length and address offset 0, mode 3. Bound: address offset 76, the SAP length is minus 1
// or minus 2 in two's complement, the bound mode.
fn put_info(room: &mut [u8], s: u8, q: Stream, tail: &[u8]) -> usize
    requires { Behind tail.now room.old }
    ensures { WroteMost message_size (bytes_of (up s (Reply.InfoAck q) tail.now)) 0 result room.old room.new }
{
    let state = shown_state(q);
    if !is_told(q) {
        return put_info_fields(room, s, state, 0, 0, 3, 0, tail);
    }
    let size = paper::sap_length(q.sap as u32);
    let minus = 0xffffffff - size + 1;
    put_info_fields(
        room,
        s,
        state,
        MAC_SIZE as u32 + size,
        minus,
        q.mode,
        76,
        tail,
    )
}

// BIND_ACK: SAP, address length and offset, the count granted, no XID or TEST.
fn put_bound(room: &mut [u8], s: u8, sap: u16, granted: u8, tail: &[u8]) -> usize
    requires { Behind tail.now room.old }
    ensures { WroteMost message_size (bytes_of (up s (Reply.BindAck sap granted) tail.now)) 0 result room.old room.new }
{
    let address = MAC_SIZE as u32 + paper::sap_length(sap as u32);
    let most = u32::from(granted);
    put_message(
        room,
        b'C',
        s,
        &[0x04, sap as u32, address, 24, most, 0],
        tail,
    )
}

// Codes 0x03 to 0x06 and 0x12 go up as C, the others as P. The originator is always 0x0701.
pub fn put_up(room: &mut [u8], s: u8, reply: Reply, tail: &[u8]) -> usize
    requires { Behind tail.now room.old }
    ensures { WroteMost message_size (bytes_of (up s reply tail.now)) 0 result room.old room.new }
{
    match reply {
        Reply::InfoAck(q) => put_info(room, s, q, tail),
        Reply::BindAck(sap, granted) => put_bound(room, s, sap, granted, tail),
        Reply::ErrorAck(code, error) => put_message(room, b'C', s, &[0x05, code, error, 0], tail),
        Reply::OkAck(code) => put_message(room, b'C', s, &[0x06, code], tail),
        Reply::ConnectInd(c) => {
            put_message(room, b'P', s, &[0x0e, c.0, 7, 36, 7, 43, 0, 0, 0], tail)
        }
        Reply::ConnectCon => put_message(room, b'P', s, &[0x10, 7, 24, 0, 0, 0], tail),
        Reply::TokenAck(k) => put_message(room, b'C', s, &[0x12, k.0], tail),
        Reply::DisconnectInd(reason, c) => {
            put_message(room, b'P', s, &[0x14, 0x0701, reason, c.0], tail)
        }
        Reply::ResetInd(reason) => put_message(room, b'P', s, &[0x18, 0x0701, reason], tail),
        Reply::ResetCon => put_message(room, b'P', s, &[0x1a], tail),
        Reply::UderrorInd(error) => put_message(room, b'P', s, &[0x09, 0, 0, 0, error], tail),
    }
}

// ---- UNITDATA_IND, which a frame shows to one stream after another

// Called, then calling right behind it.
fn put_addresses(room: &mut [u8], called: &[u8], calling: &[u8]) -> usize
    requires { length called.now + length calling.now ≤ length room.old }
    ensures { Wrote (called.now ++ calling.now) 0 result room.old room.new }
{
    octets::put_bytes(room, 0, called);
    octets::put_bytes(room, called.len(), calling);
    called.len() + calling.len()
}

// Its block: called length, offset 24, calling length, the offset right behind called, group flag 0; then both addresses.
pub fn unitdata_block(form: Form, called: &[u8], calling: &[u8]) -> [u8; BLOCK_SIZE]
    requires { Addressed form called.now calling.now }
    ensures { result ≡ pad (flat (unitdata_fields form) ++ called.now ++ calling.now) }
{
    let size = form.length() as u32;
    let mut both = [0u8; 2 * MOST_ADDRESS];
    let end = put_addresses(&mut both, called, calling);
    octets::block_with(&[0x08, size, 24, size, 24 + size, 0], &both[0..end])
}

// P with that block, and its M right behind it.
pub fn put_indication(room: &mut [u8], s: u8, size: u8, block: &[u8], body: &[u8]) -> usize
    requires { Indicates block.now body.now room.old }
    ensures { WroteMost pair_size ((80 ∷ s ∷ size ∷ []) ++ block.now ++ bytes_of (datum s body.now))
        0 result room.old room.new }
{
    octets::put_bytes(room, 0, &[b'P', s, size]);
    octets::put_bytes(room, HEAD_SIZE, block);
    MESSAGE_SIZE + put_data(&mut room[MESSAGE_SIZE..], s, body)
}

// ---- addresses, which stand behind the fields of a message up

// An address is the MAC, then 1 byte of SAP or 2 of Ethernet type.
pub fn put_address(room: &mut [u8], mac: [u8; MAC_SIZE], sap: u16) -> usize
    requires { most_address ≤ length room.old }
    ensures { WroteMost most_address (address_of mac sap) 0 result room.old room.new }
{
    octets::put_bytes(room, 0, &mac);
    if sap < 256 {
        octets::put_bytes(room, MAC_SIZE, &[sap as u8]);
        return ADDRESS_SIZE;
    }
    octets::put_number::<u16>(room, MAC_SIZE, sap);
    MOST_ADDRESS
}

// The address of a stream, if it is bound.
fn put_bound_address(room: &mut [u8], q: Stream, mac: [u8; MAC_SIZE]) -> usize
    requires { most_address ≤ length room.old }
    ensures { WroteMost most_address (pick (is_among told_states q) (address_of mac q.sap) []) 0 result room.old room.new }
{
    if is_told(q) {
        return put_address(room, mac, q.sap);
    }
    0
}

// What stands behind INFO_ACK's fields: the address if bound, then six bytes of 0xff.
pub fn put_info_tail(room: &mut [u8], q: Stream, mac: [u8; MAC_SIZE]) -> usize
    requires { most_tail ≤ length room.old }
    ensures { WroteMost most_tail (info_tail mac q) 0 result room.old room.new }
{
    let size = put_bound_address(room, q, mac);
    octets::put_bytes(room, size, &[0xff; MAC_SIZE]);
    size + MAC_SIZE
}
