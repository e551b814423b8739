// What an effect leaves of the table: what becomes of its stream, and of the one that carries.
#![tactic(auto)]

ghost use Rattle.std.specs.Prelude.{◌≡◌};
ghost use Rattle.paper.specs.Effects.{changed, carried};
ghost use Rattle.table_image.specs.Layout.{table_of, image_of};
ghost use Rattle.table_image.specs.Lent.{Lent, LentAt, NumberPlace};
ghost use Rattle.call_changes.specs.Changing.{Changes};

use paper::{Change, Correlation, STREAM_TOTAL, State, Stream};
use table_image::LentTable;

// A stream takes one more open indication, and the counter stands one past its number.
fn take_indication(img: &mut [u8], i: u8, s: Stream, n: Correlation)
    requires { NumberPlace i img.old }
    ensures { img.new ≡ image_of (changed (table_of img.old) i (Change.Takes s n)) }
{
    table_image::store_counter(img, std::num::wrapping_add_u32(n.0, 1));
    table_numbers::add_number(img, i as usize, s, n);
}

// A stream loses an open indication, and goes to another state where it was the last.
fn lose_indication(img: &mut [u8], i: u8, s: Stream, n: Correlation, last: State)
    requires { LentAt i img.old }
    ensures { img.new ≡ image_of (changed (table_of img.old) i (Change.Loses s n last)) }
{
    let at = i as usize;
    if table_numbers::remaining(LentTable { image: img }, at, n) == 0 {
        table_numbers::remove_number(img, at, paper_rules::settled(last, s), n);
        return;
    }
    table_numbers::remove_number(img, at, s, n);
}

// What becomes of a stream.
pub fn change_stream(img: &mut [u8], i: u8, change: Change)
    requires { Changes change i img.old }
    ensures { img.new ≡ image_of (changed (table_of img.old) i change) }
{
    match change {
        Change::Stays => {}
        Change::Becomes(s) => table_image::store_stream(img, i as usize, s),
        Change::Takes(s, n) => take_indication(img, i, s, n),
        Change::Loses(s, n, last) => lose_indication(img, i, s, n, last),
    }
}

// The carrying stream goes to 11. Past the table's end there is none.
pub fn carry(img: &mut [u8], c: u8, carries: bool)
    requires { Lent img.old }
    ensures { img.new ≡ image_of (carried (table_of img.old) c carries) }
{
    if carries && (c as usize) < STREAM_TOTAL {
        let at = c as usize;
        let s = LentTable { image: img }.load_stream(at);
        table_image::store_stream(img, at, paper_rules::settled(State::DataXfer, s));
    }
}
