// Reads records on standard input and prints what the rule paper says of each call: see crates/replay_transcript.
#![tactic(auto)]

ghost use Rattle.std.specs.Prelude.{◌≡◌, ◌≤◌, length};
ghost use Rattle.text.specs.Page.{Put};
ghost use Rattle.turns.specs.Turns.{buffer_size, most_text};
ghost use Rattle.turns.specs.Programs.{CallRoom, Tells};
ghost use Rattle.replay.specs.Printed.{replay_tells};

use std::io::Write;
use text::Page;
use turns::LentProgram;

// It keeps nothing beside the table.
#[derive(Drop)]
struct Replay;

impl LentProgram for Replay {
    ghost tells = { replay_tells };

    fn put_title(page: &mut Page) {
        replay_transcript::put_title(page);
    }

    fn call(
        &mut self,
        table: &mut [u8],
        bytes: &[u8],
        room: &mut [u8],
        page: &mut Page,
        n: u64,
    ) -> bool {
        let answer = call_engine::call_sound(table, bytes, room);
        let number = call_outcomes::call_number(answer);
        replay_transcript::put_call(page, n, number, room);
        call_outcomes::is_refused(answer)
    }

    fn put_closing(&self, page: &mut Page, calls: u64, refused: u64) {
        replay_transcript::put_totals(page, calls, refused);
    }
}

fn main(rt: HostRuntime) {
    let mut reader = rt.stdin();
    let mut writer = rt.stdout();
    if turns::tell_lent(&mut Replay, &mut reader, &mut writer).is_err() {
        let _ = rt
            .stderr()
            .write_all(b"replay: reading or writing failed\n");
    }
}
