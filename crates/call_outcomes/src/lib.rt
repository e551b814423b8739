// What is decided of a call, and what the call comes to: see specs/.
#![tactic(auto)]

ghost use Rattle.std.specs.Prelude.{◌≡◌, ltb};
ghost use Rattle.call_outcomes.specs.Leaving.{refusal_in, refusing};
ghost use Rattle.call_outcomes.specs.Answering.{refusal_number, call_number};
ghost use Rattle.call_outcomes.specs.Deciding.{doing};

use paper::Effect;

// The refusals of the rule paper.
#[derive(Clone, Copy)]
pub enum Refusal {
    // room under 128 bytes; of a frame under 4,096
    LittleRoom,
    // stream over 15, or not open
    NotOpen,
    // open, and all 16 are open
    AllOpen,
    // message with L under 4
    NoCode,
    // L over 96; data over 64
    OverLong,
    // A, D, R or S with no row; W whose number is not open on that stream
    Unexpected,
    // I whose PPA is unknown, whose called MAC isn't that PPA's, or for whose PPA and SAP nobody listens; a frame on an unknown PPA
    NobodyThere,
    // I whose listener is in a state other than 6 or 9, or has its granted count open
    Busy,
    // G after any opening, or a ninth PPA, or a number already there
    NoNewPpa,
    // no bytes, unknown kind or cut body, or nonzero padding with L at most 96; 0x07 without its M, an M by itself, an address
    // length not 7 or 8, or nonzero padding of a datagram or frame
    NotARecord,
    // a table that isn't sound
    NotSound,
}

impl Refusal {
    // Its number in the rule paper.
    pub fn number(self) -> u8
        ensures { result ≡ refusal_number self }
    {
        match self {
            Refusal::LittleRoom => 1,
            Refusal::NotOpen => 2,
            Refusal::AllOpen => 3,
            Refusal::NoCode => 4,
            Refusal::OverLong => 5,
            Refusal::Unexpected => 6,
            Refusal::NobodyThere => 7,
            Refusal::Busy => 8,
            Refusal::NoNewPpa => 9,
            Refusal::NotARecord => 10,
            Refusal::NotSound => 16,
        }
    }
}

// What a served call is answered with.
#[derive(Clone, Copy)]
pub enum Served {
    // how many bytes of the room were written
    Wrote(u16),
    // the token of the stream that was opened
    Opened(u8),
}

// The number that C is told of a refused call.
pub fn refusing(n: u8) -> u32
    ensures { result ≡ refusing n }
{
    u32::from(n) * 65536
}

// The number that C is told of a call: the bytes written in bits 0 to 15, the refusal number in 16 to 23, the token of the
// stream just opened in 24 to 31.
pub fn call_number(answer: Result<Served, Refusal>) -> u32
    ensures { result ≡ call_number answer }
{
    match answer {
        Ok(Served::Wrote(bytes)) => u32::from(bytes),
        Ok(Served::Opened(token)) => u32::from(token) * 16777216,
        Err(refusal) => refusing(refusal.number()),
    }
}

// A call was refused, as its number tells.
pub fn is_refused(answer: Result<Served, Refusal>) -> bool
    ensures { result ≡ ltb 0 (refusal_in (call_number answer)) }
{
    answer.is_err()
}

// What is decided of what comes to a stream, before anything is written: an effect on that stream, where the carrier carries.
#[derive(Clone, Copy)]
pub struct Deed {
    pub stream: u8,
    pub carrier: u8,
    pub effect: Effect,
}

impl Deed {
    // An effect on a stream, where no other carries.
    pub fn alone(stream: u8, effect: Effect) -> Deed
        ensures { result ≡ doing stream stream effect }
    {
        Deed {
            stream,
            carrier: stream,
            effect,
        }
    }
}
