// Steps 2 to 7 of the order of errors: the first rule that fails, or what serves.
ghost use Rattle.std.specs.Prelude.{◌<◌, ◌≡◌, eqb, ltb};
ghost use Rattle.ledger.specs.Choice.{both, either};
ghost use Rattle.paper.specs.Saps.{is_type};
ghost use Rattle.paper.specs.ErrorOrder.{judge_attach, judge_listening, judge_bind, judge_connect, judge_other, judge_itself, judge_carrier, judge_accept, judge_denial, judge_disconnect, without_row};
ghost use Rattle.paper_rules.specs.Keepable.{Keepable};

use crate::saps::{grant_of, is_sap_or_type, is_type};
use paper::{
    ADDRESS_SIZE, BindRequest, Carrier, ConnectRequest, ConnectResponse, Correlation,
    DisconnectRequest, PpaNumber, Request, Rule, Service, Stream,
};

// 2. No state row. Of a datagram it is a rule of its own.
#[tactic(auto, unfolding(paper::specs::ErrorOrder::without_row))]
pub fn without_row(q: Request) -> Rule
    ensures { result ≡ without_row q }
{
    match q {
        Request::Unitdata(_) => Rule::DatagramNoRow,
        _ => Rule::NoRow,
    }
}

// 3. ATTACH: the PPA is known.
pub fn judge_attach(p: PpaNumber, known: bool) -> Result<Service, Rule>
    ensures { result ≡ judge_attach p known }
{
    if !known {
        return Err(Rule::UnknownPpa);
    }
    Ok(Service::Attach(p))
}

// Mode 1 is connection, mode 2 connectionless.
fn is_mode(mode: u16) -> bool
    ensures { result ≡ either (eqb mode 1) (eqb mode 2) }
{
    mode == 1 || mode == 2
}

fn connects_to_type(b: BindRequest) -> bool
    ensures { result ≡ both (eqb b.mode 1) (is_type b.sap) }
{
    b.mode == 1 && is_type(b.sap)
}

// A second listener for one PPA and SAP.
fn listens_too(b: BindRequest, listened: bool) -> bool
    ensures { result ≡ both (eqb b.mode 1) (both (ltb 0 b.most) listened) }
{
    if b.mode != 1 {
        return false;
    }
    0 < b.most && listened
}

// 4. BIND, where the SAP may be bound.
fn judge_listening(b: BindRequest, listened: bool) -> Result<Service, Rule>
    requires { Keepable b }
    ensures { result ≡ judge_listening b listened }
{
    if connects_to_type(b) {
        return Err(Rule::TypeInModeOne);
    }
    if listens_too(b, listened) {
        return Err(Rule::ListenedFor);
    }
    let granted = grant_of(b.mode, b.most);
    Ok(Service::Bind(b.mode as u8, b.sap as u16, granted))
}

// 4. BIND: the mode, the connection management, the XID and TEST that are asked for, the SAP.
pub fn judge_bind(b: BindRequest, listened: bool) -> Result<Service, Rule>
    ensures { result ≡ judge_bind b listened }
{
    if !is_mode(b.mode) {
        return Err(Rule::UnknownMode);
    }
    if b.management != 0 {
        return Err(Rule::Management);
    }
    if b.xidtest != 0 {
        return Err(Rule::AutomaticXid);
    }
    if !is_sap_or_type(b.sap) {
        return Err(Rule::SapNotAllowed);
    }
    judge_listening(b, listened)
}

// 5. CONNECT_REQ: the address lies behind the fixed fields and within L.
pub fn judge_connect(c: ConnectRequest) -> Result<Service, Rule>
    ensures { result ≡ judge_connect c }
{
    if c.qos != 0 {
        return Err(Rule::ConnectQos);
    }
    if c.length != ADDRESS_SIZE as u32 {
        return Err(Rule::AddressLength);
    }
    let at = c.offset;
    if at < 24 {
        return Err(Rule::AddressTooEarly);
    }
    // the sum does not wrap
    let end = at as u64 + ADDRESS_SIZE as u64;
    if (c.size as u64) < end {
        return Err(Rule::AddressTooLate);
    }
    if c.last % 2 == 1 {
        return Err(Rule::AddressSapOdd);
    }
    Ok(Service::Connect(at as u8))
}

// 6. CONNECT_RES, where another stream x is to carry the call: one in 6, of the same PPA and in mode 1.
fn judge_other(s: Stream, n: Correlation, x: Stream) -> Result<Service, Rule>
    ensures { result ≡ judge_other s n x }
{
    if x.state.number() != 6 {
        return Err(Rule::CarrierNotIdle);
    }
    if x.ppa.0 != s.ppa.0 {
        return Err(Rule::CarrierOfOtherPpa);
    }
    if x.mode == 2 {
        return Err(Rule::CarrierConnectionless);
    }
    Ok(Service::Accept(n))
}

// 6. CONNECT_RES, where this stream is to carry the call: its number is the only one open.
fn judge_itself(n: Correlation, count: u8) -> Result<Service, Rule>
    ensures { result ≡ judge_itself n count }
{
    if 1 < count {
        return Err(Rule::OthersOpen);
    }
    Ok(Service::Accept(n))
}

fn judge_carrier(s: Stream, n: Correlation, count: u8, carrier: Carrier) -> Result<Service, Rule>
    ensures { result ≡ judge_carrier s n count carrier }
{
    match carrier {
        Carrier::Itself => judge_itself(n, count),
        Carrier::None => Err(Rule::TokenOfNone),
        Carrier::Other(_, x) => judge_other(s, n, x),
    }
}

// 6. CONNECT_RES: an open number, and a stream that can carry the call.
pub fn judge_accept(
    s: Stream,
    a: ConnectResponse,
    is_open: bool,
    count: u8,
    carrier: Carrier,
) -> Result<Service, Rule>
    ensures { result ≡ judge_accept s a is_open count carrier }
{
    if !is_open {
        return Err(Rule::AcceptNotOpen);
    }
    if a.qos != 0 {
        return Err(Rule::AcceptQos);
    }
    let n = a.correlation;
    judge_carrier(s, n, count, carrier)
}

// 7. DISCONNECT_REQ in state 9 denies an open indication.
fn judge_denial(d: DisconnectRequest, is_open: bool) -> Result<Service, Rule>
    ensures { result ≡ judge_denial d is_open }
{
    if !is_open {
        return Err(Rule::DenialNotOpen);
    }
    let n = d.correlation;
    Ok(Service::Deny(n, d.reason))
}

// 7. Elsewhere DISCONNECT_REQ has number 0.
pub fn judge_disconnect(s: Stream, d: DisconnectRequest, is_open: bool) -> Result<Service, Rule>
    ensures { result ≡ judge_disconnect s d is_open }
{
    if s.state.number() == 9 {
        return judge_denial(d, is_open);
    }
    if d.correlation.0 != 0 {
        return Err(Rule::NumberNotZero);
    }
    Ok(Service::Disconnect(d.reason))
}
