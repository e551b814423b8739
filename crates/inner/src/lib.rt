// Calls without the test of soundness, for measuring them beside the others: a run over a whole capture, from a fresh table.
// No part of the library for C.
#![tactic(auto)]

ghost use Rattle.std.specs.Prelude.{◌≡◌, ◌<◌, length};
ghost use Rattle.inner.specs.Run.{ran, CallRoom, Called, Passed, run_from, run_of};

const NO_TABLE: u64 = 0xffffffffffffffff;

// One call, and whether it was refused.
fn one_call(table: &mut [u8], bytes: &[u8], room: &mut [u8]) -> bool
    requires { CallRoom table.old room.old }
    ensures { Called table.old bytes.now table.new result }
{
    call_outcomes::is_refused(call_engine::call_sound(table, bytes, room))
}

// Reading goes on behind the record; where its size is 0, it ends.
fn passed(bytes: &[u8]) -> usize
    requires { 0 < length bytes.now }
    ensures { Passed bytes.now result }
{
    let size = wire_records::record_size(bytes);
    if size == 0 {
        return bytes.len();
    }
    size
}

// Call after call, until no byte is left.
fn run(table: &mut [u8], capture: &[u8], room: &mut [u8]) -> u64
    requires { CallRoom table.old room.old }
    ensures { ran result table.new ≡ run_from (length capture.now) table.old 0 capture.now }
{
    let mut refused = 0;
    let mut rest = capture;
    while !rest.is_empty() {
        refused += u64::from(one_call(table, rest, room));
        rest = &rest[passed(rest)..];
    }
    refused
}

// How many calls of the run over a capture were refused, or that the lent table has not the size of one.
#[unsafe(no_mangle)]
pub extern "C" fn inner_run(table: &mut [u8], capture: &[u8]) -> u64
    ensures { ran result table.new ≡ run_of table.old capture.now }
{
    if table.len() != table_image::IMAGE_SIZE {
        return NO_TABLE;
    }
    table_image::make_fresh(table);
    let mut room = [0u8; paper::FRAME_ROOM_SIZE];
    run(table, capture, &mut room)
}
