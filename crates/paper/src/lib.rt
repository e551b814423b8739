// The rule paper's quantities, states, requests, rules, state rows, effects and records, as values. What each means stands in specs/.
#![tactic(auto)]

mod addresses;
mod codes;
mod kinds;
mod states;

pub use addresses::{sap_at, sap_length};
pub use kinds::{is_message, size_out};

// The sizes that the paper names: a table's streams and PPAs, a MAC, the most open indications of a stream and of a table, the
// room that a call needs, and a frame's.
pub const STREAM_TOTAL: usize = 16;

pub const MOST_PPAS: usize = 8;

pub const MAC_SIZE: usize = 6;

pub const MOST_OPEN: usize = 8;

pub const MOST_NUMBERS: usize = STREAM_TOTAL * MOST_OPEN;

pub const ROOM_SIZE: usize = 128;

pub const FRAME_ROOM_SIZE: usize = 4096;

// The sizes of addresses: called or calling, the longest, and what is at most behind the fields of a reply.
pub const ADDRESS_SIZE: usize = MAC_SIZE + 1;

pub const MOST_ADDRESS: usize = MAC_SIZE + 2;

pub const MOST_TAIL: usize = ADDRESS_SIZE + ADDRESS_SIZE;

// The sizes of records: what stands before a message's block, and the whole of it; of its data, and with that; what starts
// every record out; c, a, d, u.
pub const HEAD_SIZE: usize = 3;

pub const MESSAGE_SIZE: usize = HEAD_SIZE + octets::BLOCK_SIZE;

pub const MOST_DATA: usize = 64;

pub const DATA_SIZE: usize = HEAD_SIZE + MOST_DATA;

pub const BODY_SIZE: usize = 1 + MOST_DATA;

pub const PAIR_SIZE: usize = MESSAGE_SIZE + DATA_SIZE;

pub const START_SIZE: usize = 2;

pub const CONNECT_SIZE: usize = START_SIZE + ADDRESS_SIZE;

pub const ACCEPT_SIZE: usize = START_SIZE + 4;

pub const DISCONNECT_SIZE: usize = START_SIZE + 4 + 4;

pub const UNITDATA_SIZE: usize = START_SIZE + 1 + MOST_ADDRESS;

// What the paper calls unlike quantities: no one can stand for another.
#[derive(Clone, Copy)]
pub struct Token(pub u32);

#[derive(Clone, Copy)]
pub struct Correlation(pub u32);

#[derive(Clone, Copy)]
pub struct PpaNumber(pub u32);

#[derive(Clone, Copy)]
pub struct Ppa {
    pub number: PpaNumber,
    pub mac: [u8; MAC_SIZE],
}

// The states that stand between calls.
#[derive(Clone, Copy)]
pub enum State {
    Unattached,
    Unbound,
    Idle,
    OutconPending,
    InconPending,
    DataXfer,
    UserResetPending,
    ProvResetPending,
}

// On which ground no bind can take a number.
#[derive(Clone, Copy)]
pub enum Ground {
    OddSap,
    ReservedSap,
    BetweenSapsAndTypes,
    AboveTypes,
}

// The manual's places that say so.
#[derive(Clone, Copy)]
pub enum Place {
    Binding,
    ReservedSapsAndTypes,
}

// Which of the numbers from the first to the last.
#[derive(Clone, Copy)]
pub enum Which {
    Odd,
    All,
}

// An exclusion: no bind can take these of the numbers from the first to the last.
#[derive(Clone, Copy)]
pub struct Exclusion {
    pub grounds: Ground,
    pub which: Which,
    pub first: u32,
    pub last: u32,
    pub place: Place,
}

// A stream, but for the numbers of its open indications. What it does not hold is zero.
#[derive(Clone, Copy)]
pub struct Stream {
    pub state: State,
    pub mode: u8,
    pub sap: u16,
    pub ppa: PpaNumber,
    pub granted: u8,
}

// The kinds of record in.
#[derive(Clone, Copy)]
pub enum Kind {
    AddPpa,
    Open,
    Close,
    Message,
    CallArrives,
    PeerAccepted,
    PeerGone,
    CallWithdrawn,
    PeerReset,
    ResetConfirmed,
    Data,
    Frame,
    Unknown,
}

// The two forms of an address: the MAC with 1 byte of SAP, or with 2 of Ethernet type.
#[derive(Clone, Copy)]
pub enum Form {
    WithSap,
    WithType,
}

// A frame: its PPA, the form of its addresses, the called SAP or type, the length of its data.
#[derive(Clone, Copy)]
pub struct Frame {
    pub ppa: PpaNumber,
    pub form: Form,
    pub sap: u16,
    pub bytes: u8,
}

// A record in, read. Addresses and blocks stay where they lie in the record.
#[derive(Clone, Copy)]
pub enum Input {
    // no bytes, unknown kind or cut body: reading ends there
    Unreadable,
    // nonzero padding, 0x07 without its M, an M by itself, an address length not 7 or 8: reading goes on
    Malformed,
    AddPpa(PpaNumber),
    Open,
    Close(u8),
    // the stream, L, and the length of the data in its M: 0 where none belongs to it
    Message(u8, u8, u8),
    // the PPA and the called SAP
    CallArrives(PpaNumber, u8),
    PeerAccepted(u8),
    // the stream and the reason
    PeerGone(u8, u32),
    CallWithdrawn(u8, Correlation, u32),
    PeerReset(u8, u32),
    ResetConfirmed(u8),
    Frame(Frame),
}

// The messages of the paper's table that a user sends, by their code.
#[derive(Clone, Copy)]
pub enum Primitive {
    Info,
    Attach,
    Detach,
    Bind,
    Unbind,
    Connect,
    ConnectRes,
    Token,
    Disconnect,
    Reset,
    ResetRes,
    Unitdata,
    // the codes of step 1's list
    NotSupported,
    // every other code
    NotServed,
}

// `most` is max_conind, `management` conn_mgmt.
#[derive(Clone, Copy)]
pub struct BindRequest {
    pub sap: u32,
    pub most: u32,
    pub mode: u16,
    pub management: u16,
    pub xidtest: u32,
}

// `size` is L; `last` the byte where the address would end.
#[derive(Clone, Copy)]
pub struct ConnectRequest {
    pub length: u32,
    pub offset: u32,
    pub qos: u32,
    pub size: u8,
    pub last: u8,
}

#[derive(Clone, Copy)]
pub struct ConnectResponse {
    pub correlation: Correlation,
    pub token: Token,
    pub qos: u32,
}

#[derive(Clone, Copy)]
pub struct DisconnectRequest {
    pub reason: u32,
    pub correlation: Correlation,
}

// `size` is L; `sap` what the address would be to: the byte or the two bytes where its MAC ends.
#[derive(Clone, Copy)]
pub struct UnitdataRequest {
    pub length: u32,
    pub offset: u32,
    pub size: u8,
    pub sap: u16,
}

// A message that is served as a request and is of full size.
#[derive(Clone, Copy)]
pub enum Request {
    Info,
    Attach(PpaNumber),
    Detach,
    Bind(BindRequest),
    Unbind,
    Connect(ConnectRequest),
    ConnectRes(ConnectResponse),
    Token,
    Disconnect(DisconnectRequest),
    Reset,
    ResetRes,
    Unitdata(UnitdataRequest),
}

// The rules that fail, in the order in which the paper tests them.
#[derive(Clone, Copy)]
pub enum Rule {
    // step 1
    NotSupported,
    NotServed,
    TooShort,
    // step 2
    NoRow,
    // step 3
    UnknownPpa,
    // step 4
    UnknownMode,
    Management,
    AutomaticXid,
    SapNotAllowed,
    TypeInModeOne,
    ListenedFor,
    // step 5
    ConnectQos,
    AddressLength,
    AddressTooEarly,
    AddressTooLate,
    AddressSapOdd,
    // step 6
    AcceptNotOpen,
    AcceptQos,
    OthersOpen,
    TokenOfNone,
    CarrierNotIdle,
    CarrierOfOtherPpa,
    CarrierConnectionless,
    // step 7
    DenialNotOpen,
    NumberNotZero,
    // of a datagram: state, then address
    DatagramNoRow,
    DatagramLength,
    DatagramTooEarly,
    DatagramTooLate,
    DatagramSapNotAllowed,
}

// What the token of an accept names.
#[derive(Clone, Copy)]
pub enum Carrier {
    Itself,
    // another open stream, and how it stands
    Other(u8, Stream),
    None,
}

// What serves a request, with the values that it needs.
#[derive(Clone, Copy)]
pub enum Service {
    Inform,
    Attach(PpaNumber),
    Detach,
    // mode, SAP, count granted
    Bind(u8, u16, u8),
    Unbind,
    // where the address begins in the message
    Connect(u8),
    Accept(Correlation),
    TellToken,
    // the reason
    Deny(Correlation, u32),
    Disconnect(u32),
    Reset,
    ResetRes,
    // where the address begins in the message, and its form
    Unitdata(u8, Form),
}

// A state row: on a stream in this state and mode (0 while it is unbound), what comes (a request's code or an event's
// letter) leads to a state, and to another where the last open indication goes with it.
#[derive(Clone, Copy)]
pub struct StateRow {
    pub from: u8,
    pub mode: u8,
    pub cause: u8,
    pub to: u8,
    pub last: u8,
}

// What the line brings to a stream.
#[derive(Clone, Copy)]
pub enum Event {
    // a call, with the number that its indication takes
    Arrives(Correlation),
    Accepted,
    // the reason
    Gone(u32),
    Withdrawn(Correlation, u32),
    Resets(u32),
    Confirmed,
}

// What becomes of a stream.
#[derive(Clone, Copy)]
pub enum Change {
    Stays,
    // its open indications are kept
    Becomes(Stream),
    // one more, the youngest: the counter then stands one past its number
    Takes(Stream, Correlation),
    // one less, and the state where it was the last
    Loses(Stream, Correlation, State),
}

// Orders to the line. The stream that an order names is not part of it.
#[derive(Clone, Copy)]
pub enum LineOrder {
    // where the called address begins in the message
    Connect(u8),
    Accept(Correlation),
    // the reason
    Disconnect(Correlation, u32),
    Reset,
    ResetAnswer,
    // where the address begins in the message, and its form; its M goes with it
    Unitdata(u8, Form),
}

// Messages up.
#[derive(Clone, Copy)]
pub enum Reply {
    InfoAck(Stream),
    // SAP, count granted
    BindAck(u16, u8),
    // the request's code, the error
    ErrorAck(u32, u32),
    // the request's code
    OkAck(u32),
    ConnectInd(Correlation),
    ConnectCon,
    TokenAck(Token),
    // the reason
    DisconnectInd(u32, Correlation),
    ResetInd(u32),
    ResetCon,
    // the error
    UderrorInd(u32),
}

// What a served call does. It names no stream: `carries` is whether the stream that the token names goes to 11.
#[derive(Clone, Copy)]
pub struct Effect {
    pub change: Change,
    pub carries: bool,
    pub order: Option<LineOrder>,
    pub flush: bool,
    pub up: Option<Reply>,
}
