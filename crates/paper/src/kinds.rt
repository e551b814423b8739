// Records by the letter of their kind: in, and out as they stand in the room.
ghost use Rattle.std.specs.Prelude.{◌≡◌};
ghost use Rattle.paper.specs.RecordsIn.{kind_of, size_of, is_message};
ghost use Rattle.paper.specs.RecordsOut.{size_out};

use crate::{
    ACCEPT_SIZE, ADDRESS_SIZE, CONNECT_SIZE, DATA_SIZE, DISCONNECT_SIZE, Kind, MAC_SIZE,
    MESSAGE_SIZE, MOST_ADDRESS, MOST_DATA, START_SIZE, UNITDATA_SIZE,
};

impl From<u8> for Kind {
    ghost from_gives = { λ b k. k ≡ kind_of b };

    // The letters.
    fn from(b: u8) -> Kind {
        match b {
            b'G' => Kind::AddPpa,
            b'O' => Kind::Open,
            b'X' => Kind::Close,
            b'P' => Kind::Message,
            b'C' => Kind::Message,
            b'I' => Kind::CallArrives,
            b'A' => Kind::PeerAccepted,
            b'D' => Kind::PeerGone,
            b'W' => Kind::CallWithdrawn,
            b'R' => Kind::PeerReset,
            b'S' => Kind::ResetConfirmed,
            b'M' => Kind::Data,
            b'f' => Kind::Frame,
            _ => Kind::Unknown,
        }
    }
}

impl Kind {
    // The kind's byte and the body.
    pub fn size(self) -> usize
        ensures { result ≡ size_of self }
    {
        match self {
            Kind::AddPpa => 1 + 4 + MAC_SIZE,
            Kind::Open => 1,
            Kind::Close => 1 + 1,
            Kind::Message => MESSAGE_SIZE,
            Kind::CallArrives => 1 + 4 + ADDRESS_SIZE + ADDRESS_SIZE,
            Kind::PeerAccepted => 1 + 1 + ADDRESS_SIZE,
            Kind::PeerGone => 1 + 1 + 4,
            Kind::CallWithdrawn => 1 + 1 + 4 + 4,
            Kind::PeerReset => 1 + 1 + 4,
            Kind::ResetConfirmed => 1 + 1,
            Kind::Data => DATA_SIZE,
            Kind::Frame => 1 + 4 + 1 + MOST_ADDRESS + MOST_ADDRESS + 1 + MOST_DATA,
            Kind::Unknown => 0,
        }
    }
}

// (Bytes, since a record out is looked at where it lies in the room: an enum of its letters would be asked for one size alone.)
pub fn is_message(kind: u8) -> bool
    ensures { result ≡ is_message kind }
{
    matches!(kind, b'P' | b'C')
}

// The size of a record out, by its kind.
pub fn size_out(kind: u8) -> usize
    ensures { result ≡ size_out kind }
{
    match kind {
        b'P' => MESSAGE_SIZE,
        b'C' => MESSAGE_SIZE,
        b'c' => CONNECT_SIZE,
        b'a' => ACCEPT_SIZE,
        b'd' => DISCONNECT_SIZE,
        b'u' => UNITDATA_SIZE,
        b'M' => DATA_SIZE,
        _ => START_SIZE,
    }
}
