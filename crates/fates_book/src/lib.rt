// What the records of a history say of connection indications, line by line. What each means stands in specs/.
#![tactic(auto)]

ghost use Rattle.std.specs.Prelude.{◌≡◌};
ghost use Rattle.fates_book.specs.Lines.{asker, parting, end_line, up_line, line_at};

use paper::{HEAD_SIZE, Input, START_SIZE};

// In the record of a message up: the count that BIND_ACK grants, the number of CONNECT_IND, that of DISCONNECT_IND.
const GRANTED_AT: usize = HEAD_SIZE + 16;

const NUMBER_AT: usize = HEAD_SIZE + 4;

const ENDED_AT: usize = HEAD_SIZE + 12;

// How an indication ends: accepted, denied, withdrawn by the line, dropped at close.
#[derive(Clone, Copy)]
pub enum End {
    Accepted,
    Denied,
    Withdrawn,
    Dropped,
}

#[derive(Clone, Copy)]
pub enum Line {
    // this stream was opened
    Began(u8),
    // to this stream an indication was written, with this number
    Came(u8, u32),
    // this stream's indication with this number ended
    Went(u8, u32, End),
    // this stream's bind was granted this count
    Given(u8, u32),
    Nothing,
}

// The stream that a message came from.
fn asker(q: Input) -> u8
    ensures { result ≡ asker q }
{
    match q {
        Input::Close(i)
        | Input::Message(i, _, _)
        | Input::PeerAccepted(i)
        | Input::PeerGone(i, _)
        | Input::CallWithdrawn(i, _, _)
        | Input::PeerReset(i, _)
        | Input::ResetConfirmed(i) => i,
        _ => 0,
    }
}

// What an order d with a number means.
fn parting(q: Input) -> End
    ensures { result ≡ parting q }
{
    match q {
        Input::Close(_) => End::Dropped,
        _ => End::Denied,
    }
}

// Number 0 is about a connection, not about an indication.
fn end_line(i: u8, n: u32, e: End) -> Line
    ensures { result ≡ end_line i n e }
{
    if n == 0 {
        return Line::Nothing;
    }
    Line::Went(i, n, e)
}

// Of the messages up: BIND_ACK, CONNECT_IND, DISCONNECT_IND.
fn up_line(b: &[u8]) -> Line
    ensures { result ≡ up_line b.now }
{
    let i = octets::byte_at(b, 1);
    match octets::number_at::<u32>(b, HEAD_SIZE) {
        0x04 => Line::Given(i, octets::number_at::<u32>(b, GRANTED_AT)),
        0x0e => Line::Came(i, octets::number_at::<u32>(b, NUMBER_AT)),
        0x14 => end_line(i, octets::number_at::<u32>(b, ENDED_AT), End::Withdrawn),
        _ => Line::Nothing,
    }
}

// The record written at the start of b, in the call that was lent q. An order a names the stream that carries the call; the
// indication is that of the stream that asked.
pub fn line_at(q: Input, b: &[u8]) -> Line
    ensures { result ≡ line_at q b.now }
{
    let kind = octets::byte_at(b, 0);
    let named = octets::byte_at(b, 1);
    let n = octets::number_at::<u32>(b, START_SIZE);
    match kind {
        b'a' => Line::Went(asker(q), n, End::Accepted),
        b'd' => end_line(named, n, parting(q)),
        _ if paper::is_message(kind) => up_line(b),
        _ => Line::Nothing,
    }
}
