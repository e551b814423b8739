// What a service or an event does, by value.
#![tactic(auto)]

ghost use Rattle.std.specs.Prelude.{◌≡◌, Some};
ghost use Rattle.paper.specs.ErrorCodes.{complaint_of, reply_by};
ghost use Rattle.paper.specs.Effects.{next, onward, unchanged, more, less, bound_in, acting, error_effect, ok, no_number, accepting, effect_of, event_effect};
ghost use Rattle.paper.specs.Decide.{effect_by};

use paper::{
    Change, Correlation, Effect, Event, LineOrder, PpaNumber, Reply, Rule, Service, State,
    StateRow, Stream, Token,
};

// ---- what becomes of a stream by row x

fn next(x: StateRow) -> State
    ensures { result ≡ next x }
{
    State::of_number(x.to)
}

// It goes to the row's next state.
fn onward(x: StateRow, s: Stream) -> Change
    ensures { result ≡ onward x s }
{
    Change::Becomes(paper_rules::settled(next(x), s))
}

// Unchanged, where the row leads to its own state.
fn unchanged(x: StateRow, s: Stream) -> Change
    ensures { result ≡ unchanged x s }
{
    if x.to == x.from {
        return Change::Stays;
    }
    onward(x, s)
}

// One open indication more, or less.
fn more(x: StateRow, s: Stream, n: Correlation) -> Change
    ensures { result ≡ more x s n }
{
    Change::Takes(paper_rules::settled(next(x), s), n)
}

fn less(x: StateRow, s: Stream, n: Correlation) -> Change
    ensures { result ≡ less x s n }
{
    Change::Loses(
        paper_rules::settled(next(x), s),
        n,
        State::of_number(x.last),
    )
}

// Bound.
fn bound_in(q: State, p: PpaNumber, mode: u8, sap: u16, granted: u8) -> Stream
    ensures { result ≡ bound_in q p mode sap granted }
{
    Stream {
        state: q,
        mode: mode,
        sap: sap,
        ppa: p,
        granted: granted,
    }
}

// ---- the effects

// Of one stream alone.
fn acting(change: Change, order: Option<LineOrder>, flush: bool, up: Option<Reply>) -> Effect
    ensures { result ≡ acting change order flush up }
{
    Effect {
        change: change,
        carries: false,
        order: order,
        flush: flush,
        up: up,
    }
}

// ERROR_ACK; of a datagram that is wrong, UDERROR_IND.
fn complaint(code: u32, rule: Rule) -> Reply
    ensures { result ≡ reply_by code (complaint_of rule) }
{
    let error = paper_rules::error_of(rule);
    match rule {
        Rule::DatagramNoRow => Reply::UderrorInd(error),
        Rule::DatagramLength => Reply::UderrorInd(error),
        Rule::DatagramTooEarly => Reply::UderrorInd(error),
        Rule::DatagramTooLate => Reply::UderrorInd(error),
        Rule::DatagramSapNotAllowed => Reply::UderrorInd(error),
        _ => Reply::ErrorAck(code, error),
    }
}

// A message that breaks a rule changes nothing.
pub fn error_effect(code: u32, rule: Rule) -> Effect
    ensures { result ≡ error_effect code rule }
{
    let up = Some(complaint(code, rule));
    acting(Change::Stays, None, false, up)
}

fn ok(x: StateRow) -> Option<Reply>
    ensures { result ≡ ok x }
{
    Some(Reply::OkAck(u32::from(x.cause)))
}

fn no_number() -> Correlation
    ensures { result ≡ no_number }
{
    Correlation(0)
}

// a; the carrying stream goes to 11.
fn accepting(x: StateRow, s: Stream, n: Correlation) -> Effect
    ensures { result ≡ accepting x s n }
{
    Effect {
        change: less(x, s, n),
        carries: true,
        order: Some(LineOrder::Accept(n)),
        flush: false,
        up: ok(x),
    }
}

// Row x serves a request of the stream with token k, which stands as s.
fn effect_of(x: StateRow, k: Token, s: Stream, v: Service) -> Effect
    ensures { result ≡ effect_of x k s v }
{
    match v {
        Service::Inform => {
            let up = Some(Reply::InfoAck(s));
            acting(unchanged(x, s), None, false, up)
        }
        Service::TellToken => {
            let up = Some(Reply::TokenAck(k));
            acting(unchanged(x, s), None, false, up)
        }
        Service::Attach(p) => {
            let change = Change::Becomes(paper_rules::attached_in(next(x), p));
            acting(change, None, false, ok(x))
        }
        Service::Detach => acting(onward(x, s), None, false, ok(x)),
        Service::Bind(mode, sap, granted) => {
            let p = s.ppa;
            let change = Change::Becomes(bound_in(next(x), p, mode, sap, granted));
            let up = Some(Reply::BindAck(sap, granted));
            acting(change, None, false, up)
        }
        // with F
        Service::Unbind => acting(onward(x, s), None, true, ok(x)),
        // c, no reply
        Service::Connect(at) => {
            let order = Some(LineOrder::Connect(at));
            acting(onward(x, s), order, false, None)
        }
        Service::Accept(n) => accepting(x, s, n),
        // d, from 9; and from 8, 11, 12, 13, with F from the last three
        Service::Deny(n, reason) => {
            let order = Some(LineOrder::Disconnect(n, reason));
            acting(less(x, s, n), order, false, ok(x))
        }
        Service::Disconnect(reason) => {
            let order = Some(LineOrder::Disconnect(no_number(), reason));
            acting(onward(x, s), order, s.state.is_joined(), ok(x))
        }
        // r, no reply; s
        Service::Reset => {
            let order = Some(LineOrder::Reset);
            acting(onward(x, s), order, false, None)
        }
        Service::ResetRes => {
            let order = Some(LineOrder::ResetAnswer);
            acting(onward(x, s), order, false, ok(x))
        }
        // u and its M, no reply
        Service::Unitdata(at, form) => {
            let order = Some(LineOrder::Unitdata(at, form));
            acting(unchanged(x, s), order, false, None)
        }
    }
}

// What the line brings to a stream that stands as s, by row x.
pub fn event_effect(x: StateRow, s: Stream, event: Event) -> Effect
    ensures { result ≡ event_effect x s event }
{
    match event {
        // I: CONNECT_IND
        Event::Arrives(n) => {
            let up = Some(Reply::ConnectInd(n));
            acting(more(x, s, n), None, false, up)
        }
        // A: CONNECT_CON
        Event::Accepted => {
            let up = Some(Reply::ConnectCon);
            acting(onward(x, s), None, false, up)
        }
        // D: F except from 8, DISCONNECT_IND, correlation 0
        Event::Gone(reason) => {
            let flush = s.state.number() != 8;
            let up = Some(Reply::DisconnectInd(reason, no_number()));
            acting(onward(x, s), None, flush, up)
        }
        // W: DISCONNECT_IND with the number
        Event::Withdrawn(n, reason) => {
            let up = Some(Reply::DisconnectInd(reason, n));
            acting(less(x, s, n), None, false, up)
        }
        // R: F, RESET_IND
        Event::Resets(reason) => {
            let up = Some(Reply::ResetInd(reason));
            acting(onward(x, s), None, true, up)
        }
        // S: F, RESET_CON
        Event::Confirmed => {
            let up = Some(Reply::ResetCon);
            acting(onward(x, s), None, true, up)
        }
    }
}

// The error of a rule that fails, to a message of this code, or what row x does that serves it.
pub fn effect_by(
    x: StateRow,
    k: Token,
    code: u32,
    s: Stream,
    verdict: Result<Service, Rule>,
) -> Effect
    ensures { result ≡ effect_by (Some x) k code s verdict }
{
    match verdict {
        Err(rule) => error_effect(code, rule),
        Ok(v) => effect_of(x, k, s, v),
    }
}
