// The state rows in code, and a stream's row for what comes. No list is walked, and none is held: what comes leads to its row,
// or, where it has several, the state and the mode lead to the one that can be meant; that row's state and mode are tested.
#![tactic(auto)]

ghost use Rattle.std.specs.Prelude.{◌≡◌, [], ◌∷◌, map, ℕ};
ghost use Rattle.paper.specs.Base.{number};
ghost use Rattle.paper.specs.StateRows.{stays, seats, state_rows, frame_arrives, found_in, found, is_found};
ghost use Rattle.paper.specs.Sight.{request_asks, letter_of};
ghost use Rattle.paper_rows.specs.Courses.{along};

use paper::{Event, Request, StateRow, Stream};

// ---- what comes to a stream

// A request, by its code. (`From` would not say that a code is meant; so with the letter.)
fn code_of(q: Request) -> u8
    ensures { result ≡ (request_asks q).cause }
{
    match q {
        Request::Info => 0x00,
        Request::Token => 0x11,
        Request::Attach(_) => 0x0b,
        Request::Detach => 0x0c,
        Request::Bind(_) => 0x01,
        Request::Unbind => 0x02,
        Request::Connect(_) => 0x0d,
        Request::ConnectRes(_) => 0x0f,
        Request::Disconnect(_) => 0x13,
        Request::Reset => 0x17,
        Request::ResetRes => 0x19,
        Request::Unitdata(_) => 0x07,
    }
}

// An event, by its letter.
fn letter_of(event: Event) -> u8
    ensures { result ≡ letter_of event }
{
    match event {
        Event::Arrives(_) => b'I',
        Event::Accepted => b'A',
        Event::Gone(_) => b'D',
        Event::Withdrawn(_, _) => b'W',
        Event::Resets(_) => b'R',
        Event::Confirmed => b'S',
    }
}

// ---- the rows

// A row but for its cause.
#[derive(Clone, Copy)]
enum Course {
    // in a mode, from a state to another
    Leads(u8, u8, u8),
    // an open indication goes; the last state is for the last one
    Loses(u8, u8, u8, u8),
}

// INFO_REQ and TOKEN_REQ: every state, unchanged.
fn stays(state: u8, mode: u8) -> Course
    ensures { (cause : ℕ) → along result state mode cause ≡ found_in (map (stays cause) seats) state mode cause }
{
    match state {
        0 => Course::Leads(0, 0, 0),
        3 => Course::Leads(0, 3, 3),
        6 => {
            if mode == 1 {
                return Course::Leads(1, 6, 6);
            }
            Course::Leads(2, 6, 6)
        }
        8 => Course::Leads(1, 8, 8),
        9 => Course::Leads(1, 9, 9),
        11 => Course::Leads(1, 11, 11),
        12 => Course::Leads(1, 12, 12),
        _ => Course::Leads(1, 13, 13),
    }
}

// The one row that a request can have in a state and a mode. (The last of several stands for every other state: it is tested.)
fn request_course(state: u8, mode: u8, q: Request) -> Course
    ensures { along result state mode (request_asks q).cause ≡ found_in state_rows state mode (request_asks q).cause }
{
    match q {
        Request::Info => stays(state, mode),
        Request::Token => stays(state, mode),
        // ATTACH 0 to 3, DETACH 3 to 0, BIND 3 to 6, UNBIND 6 to 3
        Request::Attach(_) => Course::Leads(0, 0, 3),
        Request::Detach => Course::Leads(0, 3, 0),
        Request::Bind(_) => Course::Leads(0, 3, 6),
        Request::Unbind => {
            if mode == 1 {
                return Course::Leads(1, 6, 3);
            }
            Course::Leads(2, 6, 3)
        }
        // On a stream bound in mode 1: CONNECT_REQ 6 to 8; CONNECT_RES from 9
        Request::Connect(_) => Course::Leads(1, 6, 8),
        Request::ConnectRes(_) => Course::Loses(1, 9, 9, 6),
        // DISCONNECT_REQ from 8, 9, 11, 12, 13: a denial leads to 6 or 9, and other disconnects to 6
        Request::Disconnect(_) => match state {
            8 => Course::Leads(1, 8, 6),
            9 => Course::Loses(1, 9, 9, 6),
            11 => Course::Leads(1, 11, 6),
            12 => Course::Leads(1, 12, 6),
            _ => Course::Leads(1, 13, 6),
        },
        // RESET_REQ 11 to 12; RESET_RES 13 to 11
        Request::Reset => Course::Leads(1, 11, 12),
        Request::ResetRes => Course::Leads(1, 13, 11),
        // on a stream bound in mode 2 a datagram goes, unchanged
        Request::Unitdata(_) => Course::Leads(2, 6, 6),
    }
}

// The one row that an event can have in a state; all are on streams bound in mode 1.
fn event_course(state: u8, event: Event) -> Course
    ensures { (mode : ℕ) → along result state mode (letter_of event) ≡ found_in state_rows state mode (letter_of event) }
{
    match event {
        // I 6 or 9 to 9
        Event::Arrives(_) => match state {
            6 => Course::Leads(1, 6, 9),
            _ => Course::Leads(1, 9, 9),
        },
        // A 8 to 11
        Event::Accepted => Course::Leads(1, 8, 11),
        // D 8, 11, 12, 13 to 6
        Event::Gone(_) => match state {
            8 => Course::Leads(1, 8, 6),
            11 => Course::Leads(1, 11, 6),
            12 => Course::Leads(1, 12, 6),
            _ => Course::Leads(1, 13, 6),
        },
        // W: a listener that loses an open indication goes to 6 at the last one
        Event::Withdrawn(_, _) => Course::Loses(1, 9, 9, 6),
        // R 11 to 13, S 12 to 11
        Event::Resets(_) => Course::Leads(1, 11, 13),
        Event::Confirmed => Course::Leads(1, 12, 11),
    }
}

// ---- a stream's row for what comes

// A row, if it is that of a state and a mode.
fn row_in(x: StateRow, state: u8, mode: u8) -> Option<StateRow>
    ensures { result ≡ found_in (x ∷ []) state mode x.cause }
{
    if x.from != state {
        return None;
    }
    if x.mode != mode {
        return None;
    }
    Some(x)
}

// A row of this cause, if it is the stream's.
fn row_along(s: Stream, cause: u8, course: Course) -> Option<StateRow>
    ensures { result ≡ along course (number s) s.mode cause }
{
    let state = s.state.number();
    match course {
        Course::Leads(mode, from, to) => {
            let x = StateRow {
                from,
                mode,
                cause,
                to,
                last: to,
            };
            row_in(x, state, s.mode)
        }
        Course::Loses(mode, from, to, last) => {
            let x = StateRow {
                from,
                mode,
                cause,
                to,
                last,
            };
            row_in(x, state, s.mode)
        }
    }
}

// (It differs from `event_row` in each call that it makes: one function of both would take all three.)
pub fn request_row(s: Stream, q: Request) -> Option<StateRow>
    ensures { result ≡ found state_rows s (request_asks q).cause }
{
    let course = request_course(s.state.number(), s.mode, q);
    row_along(s, code_of(q), course)
}

pub fn event_row(s: Stream, event: Event) -> Option<StateRow>
    ensures { result ≡ found state_rows s (letter_of event) }
{
    let course = event_course(s.state.number(), event);
    row_along(s, letter_of(event), course)
}

// A frame comes to a stream bound in mode 2.
pub fn takes_frames(s: Stream) -> bool
    ensures { result ≡ is_found (found state_rows s frame_arrives) }
{
    s.state.number() == 6 && s.mode == 2
}
