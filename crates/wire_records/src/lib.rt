// Records in, from bytes to values.
#![tactic(auto)]

ghost use Rattle.std.specs.Prelude.{◌≡◌, ◌+◌, ◌≤◌, length, get_or, ltb, eqb};
ghost use Rattle.ledger.specs.Choice.{either};
ghost use Rattle.paper.specs.Base.{address_size, most_address};
ghost use Rattle.paper.specs.RecordsIn.{kind_of, message_size, size_of, wants_data, has_data, is_pair, record_size};
ghost use Rattle.paper.specs.RecordsIn.{has_nonzero_past, pair_as, message_as, frame_as, input_as, input_of};
ghost use Rattle.paper.specs.declared.Kind.TheVariants as kind;

use octets::BLOCK_SIZE;
use paper::{
    ADDRESS_SIZE, Correlation, DATA_SIZE, Form, Frame, HEAD_SIZE, Input, Kind, MAC_SIZE,
    MESSAGE_SIZE, MOST_ADDRESS, MOST_DATA, PAIR_SIZE, PpaNumber,
};

// The body is cut.
fn is_cut(k: Kind, r: &[u8]) -> bool
    ensures { result ≡ ltb (length r.now) (size_of k) }
{
    r.len() < k.size()
}

// Right behind each message of code 0x07 with L 4 to 96 an M stands. (Other messages leave at the code.)
fn wants_data(r: &[u8]) -> bool
    requires { message_size ≤ length r.now }
    ensures { result ≡ wants_data r.now }
{
    if octets::number_inside::<u32>(r, HEAD_SIZE) != 0x07 {
        return false;
    }
    let l = octets::byte_at(r, 2) as usize;
    4 <= l && l <= BLOCK_SIZE
}

// It is there, whole, with the same stream.
fn has_data(r: &[u8]) -> bool
    ensures { result ≡ has_data r.now }
{
    if r.len() < PAIR_SIZE {
        return false;
    }
    if octets::byte_at(r, MESSAGE_SIZE) != b'M' {
        return false;
    }
    octets::byte_at(r, MESSAGE_SIZE + 1) == octets::byte_at(r, 1)
}

// A message with its M.
fn is_pair(r: &[u8]) -> bool
    requires { size_of (kind_of (get_or r.now 0 0)) ≤ length r.now }
    ensures { result ≡ is_pair r.now }
{
    if !paper::is_message(octets::byte_at(r, 0)) {
        return false;
    }
    if !wants_data(r) {
        return false;
    }
    has_data(r)
}

// The size of the record at the start of the bytes, with its M where it has one, or 0 where its kind is unknown or its body
// is cut. (0 and not None, since that is what C is told.)
pub fn record_size(r: &[u8]) -> usize
    ensures { result ≡ record_size r.now }
{
    let k = Kind::from(octets::byte_at(r, 0));
    if is_cut(k, r) {
        return 0;
    }
    if is_pair(r) {
        return PAIR_SIZE;
    }
    k.size()
}

// A byte of a field past its length is not zero. Past a length over the field's size there are none.
fn has_nonzero_past(r: &[u8], at: usize, most: usize, n: u8) -> bool
    requires { at + most ≤ length r.now }
    ensures { result ≡ has_nonzero_past r.now at most n }
{
    let l = n as usize;
    if most < l {
        return false;
    }
    let past = at + l;
    let end = at + most;
    !octets::is_zero(&r[past..end])
}

// A message of code 0x07, unless its M is not there or has nonzero padding.
fn read_pair(r: &[u8]) -> Input
    ensures { result ≡ pair_as r.now }
{
    if !has_data(r) {
        return Input::Malformed;
    }
    let bytes = octets::byte_at(r, MESSAGE_SIZE + 2);
    if has_nonzero_past(r, MESSAGE_SIZE + HEAD_SIZE, MOST_DATA, bytes) {
        return Input::Malformed;
    }
    Input::Message(octets::byte_at(r, 1), octets::byte_at(r, 2), bytes)
}

// A message, unless its block has nonzero padding.
fn read_message(r: &[u8]) -> Input
    requires { message_size ≤ length r.now }
    ensures { result ≡ message_as r.now }
{
    let l = octets::byte_at(r, 2);
    if has_nonzero_past(r, HEAD_SIZE, BLOCK_SIZE, l) {
        return Input::Malformed;
    }
    if wants_data(r) {
        return read_pair(r);
    }
    Input::Message(octets::byte_at(r, 1), l, 0)
}

// 7 or 8.
fn is_address_length(n: u8) -> bool
    ensures { result ≡ either (eqb n address_size) (eqb n most_address) }
{
    let l = n as usize;
    l == ADDRESS_SIZE || l == MOST_ADDRESS
}

// A frame, unless its address length is not 7 or 8, or called, calling or data have nonzero padding.
fn read_frame(r: &[u8]) -> Input
    requires { size_of kind.Frame ≤ length r.now }
    ensures { result ≡ frame_as r.now }
{
    let n = octets::byte_at(r, 5);
    if !is_address_length(n) {
        return Input::Malformed;
    }
    if has_nonzero_past(r, 6, MOST_ADDRESS, n) {
        return Input::Malformed;
    }
    if has_nonzero_past(r, 14, MOST_ADDRESS, n) {
        return Input::Malformed;
    }
    let bytes = octets::byte_at(r, 22);
    if has_nonzero_past(r, 23, MOST_DATA, bytes) {
        return Input::Malformed;
    }
    let form = Form::of_length(u32::from(n));
    let sap = paper::sap_at(r, form, 12);
    let ppa = PpaNumber(octets::number_at::<u32>(r, 1));
    Input::Frame(Frame {
        ppa,
        form,
        sap,
        bytes,
    })
}

// The values of a whole record, by its kind.
fn input_as(k: Kind, r: &[u8]) -> Input
    requires { size_of k ≤ length r.now }
    ensures { result ≡ input_as k r.now }
{
    let stream = octets::byte_at(r, 1);
    match k {
        Kind::AddPpa => Input::AddPpa(PpaNumber(octets::number_at::<u32>(r, 1))),
        Kind::Open => Input::Open,
        Kind::Close => Input::Close(stream),
        Kind::Message => read_message(r),
        Kind::CallArrives => Input::CallArrives(
            PpaNumber(octets::number_at::<u32>(r, 1)),
            octets::byte_at(r, 11),
        ),
        Kind::PeerAccepted => Input::PeerAccepted(stream),
        Kind::PeerGone => Input::PeerGone(stream, octets::number_at::<u32>(r, 2)),
        Kind::CallWithdrawn => Input::CallWithdrawn(
            stream,
            Correlation(octets::number_at::<u32>(r, 2)),
            octets::number_at::<u32>(r, 6),
        ),
        Kind::PeerReset => Input::PeerReset(stream, octets::number_at::<u32>(r, 2)),
        Kind::ResetConfirmed => Input::ResetConfirmed(stream),
        Kind::Data => Input::Malformed,
        Kind::Frame => read_frame(r),
        Kind::Unknown => Input::Unreadable,
    }
}

// A call reads the one record at the start of its lent bytes, a message of code 0x07 with its M.
pub fn input_of(r: &[u8]) -> Input
    ensures { result ≡ input_of r.now }
{
    let k = Kind::from(octets::byte_at(r, 0));
    if is_cut(k, r) {
        return Input::Unreadable;
    }
    input_as(k, r)
}
