// A stream by value, as it stands after a row.
ghost use Rattle.std.specs.Prelude.{◌≡◌};
ghost use Rattle.paper.specs.Base.{no_stream, attached_in, in_state, settled};

use paper::{PpaNumber, State, Stream};

// A stream that holds nothing.
fn no_stream() -> Stream
    ensures { result ≡ no_stream }
{
    Stream {
        state: State::Unattached,
        mode: 0,
        sap: 0,
        ppa: PpaNumber(0),
        granted: 0,
    }
}

// One that is attached alone.
pub fn attached_in(q: State, p: PpaNumber) -> Stream
    ensures { result ≡ attached_in q p }
{
    Stream {
        state: q,
        mode: 0,
        sap: 0,
        ppa: p,
        granted: 0,
    }
}

// One with all that it held.
fn in_state(q: State, s: Stream) -> Stream
    ensures { result ≡ in_state q s }
{
    let p = s.ppa;
    Stream {
        state: q,
        mode: s.mode,
        sap: s.sap,
        ppa: p,
        granted: s.granted,
    }
}

// A stream that goes to a state holds what that state holds.
pub fn settled(q: State, s: Stream) -> Stream
    ensures { result ≡ settled q s }
{
    if q.number() == 0 {
        return no_stream();
    }
    if q.holds_binding() {
        return in_state(q, s);
    }
    let p = s.ppa;
    attached_in(q, p)
}
