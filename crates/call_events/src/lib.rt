// What the line brings.
#![tactic(auto)]

ghost use Rattle.std.specs.Prelude.{◌<◌, ◌≤◌, ◌≡◌, true, List, ℕ, take};
ghost use Rattle.octets.specs.Runs.{same_bytes};
ghost use Rattle.paper.specs.Base.{stream_total, slot, stream, mac_of, mac_size};
ghost use Rattle.paper.specs.RecordsIn.{called_in};
ghost use Rattle.paper.specs.Refusals.{unexpected};
ghost use Rattle.call_outcomes.specs.Answering.{refusal_number};
ghost use Rattle.paper.specs.Saps.{most_open};
ghost use Rattle.paper.specs.StateRows.{state_rows};
ghost use Rattle.paper.specs.Sight.{brings};
ghost use Rattle.paper.specs.Decide.{is_due};
ghost use Rattle.paper.specs.Step.{comes, of_open, arrives, serve_by};
ghost use Rattle.table_image.specs.LentTable.{Loaded, table_in};
ghost use Rattle.call_outcomes.specs.Deciding.{Rightly};
ghost use Rattle.call_events.specs.DueRow.{due_row};
ghost use Rattle.call_events.specs.Bringing.{RightlyBrought, is_of_line};

use call_outcomes::{Deed, Refusal};
use paper::{Correlation, Event, Input, MAC_SIZE, PpaNumber, StateRow, Stream};
use table_image::LentTable;

// ---- the row by which an event may come

// I: the listener has less than its granted count open. W: the number is open on that stream.
fn is_due(table: LentTable, i: u8, s: Stream, event: Event) -> bool
    requires { Loaded s i (table_in table) }
    ensures { result ≡ is_due (slot (table_in table.entry) i) event }
{
    match event {
        Event::Arrives(_) => {
            let count = table.count_at(i as usize);
            count < s.granted
        }
        Event::Accepted => true,
        Event::Gone(_) => true,
        Event::Withdrawn(n, _) => table_numbers::is_waiting(table, i as usize, n),
        Event::Resets(_) => true,
        Event::Confirmed => true,
    }
}

// The stream's row for an event; none where it is not due. Stream i stands as s.
fn row_of(table: LentTable, i: u8, s: Stream, event: Event) -> Option<StateRow>
    requires { Loaded s i (table_in table) }
    ensures { result ≡ due_row (table_in table.entry) i event }
{
    if !is_due(table, i, s, event) {
        return None;
    }
    paper_rows::event_row(s, event)
}

// An event of stream i: what its row says, or the refusal.
fn come(table: LentTable, i: u8, refusal: Refusal, event: Event) -> Result<Deed, Refusal>
    requires within { i < stream_total }
    requires granted { (stream (table_in table) i).granted ≤ most_open }
    ensures { (r : List ℕ) → Rightly (table_in table.entry) r result
        (comes state_rows (table_in table.entry) i r (brings (refusal_number refusal) event)) }
{
    let s = table.load_stream(i as usize);
    let Some(x) = row_of(table, i, s, event) else {
        return Err(refusal);
    };
    Ok(Deed::alone(i, paper_effects::event_effect(x, s, event)))
}

// ---- the stream that it comes to

// What a record of the line brings to a stream: an event, and the refusal where it may not come.
#[derive(Clone, Copy)]
struct Brought {
    stream: u8,
    refusal: Refusal,
    event: Event,
}

// A, D, W, R and S name their stream: 2 unless it is open, then 6 where there is no row.
fn named(table: LentTable, i: u8, event: Event) -> Result<Brought, Refusal>
    ensures { (r : List ℕ) → RightlyBrought (table_in table.entry) r result
        (of_open (table_in table.entry) i (comes state_rows (table_in table.entry) i r (brings unexpected event))) }
{
    if !table.is_open(i as usize) {
        return Err(Refusal::NotOpen);
    }
    Ok(Brought {
        stream: i,
        refusal: Refusal::Unexpected,
        event,
    })
}

// In the record the called address comes first, its MAC before its SAP. (One line, as of a frame, where it lies elsewhere.)
fn is_called(table: LentTable, p: PpaNumber, r: &[u8]) -> bool
    ensures { result ≡ same_bytes (take mac_size (called_in r.now)) (mac_of (table_in table.entry) p) }
{
    table_lookup::has_mac(table, p, octets::part_at(r, 5, MAC_SIZE))
}

// I comes to its listener, with the next number: 7 unless the PPA is known and has the called MAC, and somebody listens for it
// and the SAP; then 8 where the listener is busy.
fn arrives(table: LentTable, p: PpaNumber, sap: u8, r: &[u8]) -> Result<Brought, Refusal>
    ensures { RightlyBrought (table_in table.entry) r.now result (arrives state_rows (table_in table.entry) p sap r.now) }
{
    if !table_lookup::knows(table, p) {
        return Err(Refusal::NobodyThere);
    }
    if !is_called(table, p, r) {
        return Err(Refusal::NobodyThere);
    }
    let Some(i) = table_lookup::listener(table, p, u32::from(sap)) else {
        return Err(Refusal::NobodyThere);
    };
    let n = table_numbers::next_number(table.image);
    Ok(Brought {
        stream: i as u8,
        refusal: Refusal::Busy,
        event: Event::Arrives(Correlation(n)),
    })
}

// By the record's kind. (What could not be read is refusal 10.)
fn bring(table: LentTable, r: &[u8], q: Input) -> Result<Brought, Refusal>
    requires { is_of_line q ≡ true }
    ensures { RightlyBrought (table_in table.entry) r.now result (serve_by state_rows (table_in table.entry) r.now q) }
{
    match q {
        Input::CallArrives(p, sap) => arrives(table, p, sap, r),
        Input::PeerAccepted(i) => named(table, i, Event::Accepted),
        Input::PeerGone(i, reason) => named(table, i, Event::Gone(reason)),
        Input::CallWithdrawn(i, n, reason) => named(table, i, Event::Withdrawn(n, reason)),
        Input::PeerReset(i, reason) => named(table, i, Event::Resets(reason)),
        Input::ResetConfirmed(i) => named(table, i, Event::Confirmed),
        _ => Err(Refusal::NotARecord),
    }
}

// ---- any event

// What is decided of a record of the line.
pub fn occur(table: LentTable, r: &[u8], q: Input) -> Result<Deed, Refusal>
    requires granted { (i : ℕ) → (stream (table_in table) i).granted ≤ most_open }
    requires line { is_of_line q ≡ true }
    ensures { Rightly (table_in table.entry) r.now result (serve_by state_rows (table_in table.entry) r.now q) }
{
    let b = bring(table, r, q)?;
    come(table, b.stream, b.refusal, b.event)
}
