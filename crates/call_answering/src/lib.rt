// A message: its state row, what the order of errors reads of the table, and what that comes to.
#![tactic(auto)]

ghost use Rattle.std.specs.Prelude.{◌<◌, ◌≡◌, List, ℕ, Ok};
ghost use Rattle.paper.specs.Base.{stream_total};
ghost use Rattle.paper.specs.Messages.{code_in, asked_by};
ghost use Rattle.paper.specs.StateRows.{state_rows};
ghost use Rattle.paper.specs.Sight.{sends, carrier_at};
ghost use Rattle.paper.specs.Step.{comes};
ghost use Rattle.paper.specs.declared.Request.TheVariants as request;
ghost use Rattle.table_image.specs.LentTable.{Loaded, table_in};
ghost use Rattle.call_outcomes.specs.Deciding.{Rightly};
ghost use Rattle.call_answering.specs.Judging.{RightlyJudged};
ghost use Rattle.wire_messages.specs.Whole.{Whole};

use call_outcomes::Deed;
use paper::{
    Carrier, ConnectResponse, DisconnectRequest, Request, Rule, Service, StateRow, Stream, Token,
};
use table_image::LentTable;

// ---- steps 3 to 7 of the order of errors, of stream i, which stands as s

// What a request comes to, and the stream that would carry its call.
#[derive(Clone, Copy)]
struct Judgement {
    verdict: Result<Service, Rule>,
    carrier: u8,
}

// A request that names no token: the stream itself would carry.
fn alone(i: u8, verdict: Result<Service, Rule>) -> Judgement
    ensures { result ≡ record { verdict = verdict; carrier = i } }
{
    Judgement {
        verdict: verdict,
        carrier: i,
    }
}

// The stream that the token names.
fn carrier_at(i: u8, carrier: Carrier) -> u8
    ensures { result ≡ carrier_at i carrier }
{
    match carrier {
        Carrier::Itself => i,
        Carrier::Other(c, _) => c,
        Carrier::None => i,
    }
}

// 6. CONNECT_RES: its number among the open ones, how many these are, and the stream that its token names.
fn judged_accept(table: LentTable, i: u8, s: Stream, a: ConnectResponse) -> Judgement
    requires { Loaded s i (table_in table) }
    ensures { RightlyJudged (table_in table.entry) i (request.ConnectRes a) result }
{
    let at = i as usize;
    let n = a.correlation;
    let k = a.token;
    let waits = table_numbers::is_waiting(table, at, n);
    let count = table.count_at(at);
    let carrier = table_lookup::carrier_of(table, i, k);
    let verdict = paper_rules::judge_accept(s, a, waits, count, carrier);
    let place = carrier_at(i, carrier);
    Judgement {
        verdict: verdict,
        carrier: place,
    }
}

// 7. DISCONNECT_REQ: its number among the open ones.
fn judged_disconnect(table: LentTable, i: u8, s: Stream, d: DisconnectRequest) -> Judgement
    requires { Loaded s i (table_in table) }
    ensures { RightlyJudged (table_in table.entry) i (request.Disconnect d) result }
{
    let n = d.correlation;
    let waits = table_numbers::is_waiting(table, i as usize, n);
    alone(i, paper_rules::judge_disconnect(s, d, waits))
}

// Steps 3 to 7, and the tests of a datagram, by the request.
fn judged_request(table: LentTable, i: u8, s: Stream, q: Request) -> Judgement
    requires { Loaded s i (table_in table) }
    ensures { RightlyJudged (table_in table.entry) i q result }
{
    match q {
        Request::Info => alone(i, Ok(Service::Inform)),
        Request::Token => alone(i, Ok(Service::TellToken)),
        Request::Attach(p) => alone(
            i,
            paper_rules::judge_attach(p, table_lookup::knows(table, p)),
        ),
        Request::Detach => alone(i, Ok(Service::Detach)),
        Request::Bind(b) => {
            let p = s.ppa;
            let sap = b.sap;
            alone(
                i,
                paper_rules::judge_bind(b, table_lookup::is_listened_for(table, p, sap)),
            )
        }
        Request::Unbind => alone(i, Ok(Service::Unbind)),
        Request::Connect(c) => alone(i, paper_rules::judge_connect(c)),
        Request::ConnectRes(a) => judged_accept(table, i, s, a),
        Request::Disconnect(d) => judged_disconnect(table, i, s, d),
        Request::Reset => alone(i, Ok(Service::Reset)),
        Request::ResetRes => alone(i, Ok(Service::ResetRes)),
        Request::Unitdata(u) => alone(i, paper_rules::judge_datagram(s, u)),
    }
}

// ---- a message of stream i

// Step 2 of the order of errors, then the others; a request that they let pass is served by its state row. (Which record it
// came with is not asked.)
fn answer_request(table: LentTable, i: u8, code: u32, q: Request) -> Deed
    requires { i < stream_total }
    ensures { (r : List ℕ) → Rightly (table_in table.entry) r (Ok result) (comes state_rows (table_in table.entry) i r (sends code (Ok q))) }
{
    let s = table.load_stream(i as usize);
    match paper_rows::request_row(s, q) {
        None => {
            let no_row = paper_rules::without_row(q);
            Deed::alone(i, paper_effects::error_effect(code, no_row))
        }
        Some(x) => {
            let judged = judged_request(table, i, s, q);
            let verdict = judged.verdict;
            Deed {
                stream: i,
                carrier: judged.carrier,
                effect: paper_effects::effect_by(x, Token(i as u32 + 1), code, s, verdict),
            }
        }
    }
}

// Step 1 of the order of errors, then the others, of message m, whichever record it came with.
pub fn answer_message(table: LentTable, i: u8, m: &[u8]) -> Deed
    requires within { i < stream_total }
    requires whole { Whole m.now }
    ensures { (r : List ℕ) → Rightly (table_in table.entry) r (Ok result)
        (comes state_rows (table_in table.entry) i r (sends (code_in m.now) (asked_by m.now))) }
{
    let code = wire_messages::code_in(m);
    match wire_messages::asked_by(m) {
        Err(rule) => Deed::alone(i, paper_effects::error_effect(code, rule)),
        Ok(q) => answer_request(table, i, code, q),
    }
}
