// Reads records on standard input and prints a mark for each call, - for a refused one and + for any other, and then how many were
// made and how many refused.
#![tactic(auto)]

ghost use Rattle.std.specs.Prelude.{◌≡◌, ◌≤◌, length};
ghost use Rattle.text.specs.Page.{shown, Added};
ghost use Rattle.turns.specs.Turns.{buffer_size, most_text};
ghost use Rattle.turns.specs.Programs.{CallRoom};
ghost use Rattle.turns.specs.AnyPage.{TellsShown};
ghost use Rattle.totals.specs.Counted.{totals_tells};

use std::io::Write;
use text::Page;
use turns::Program;

// It keeps nothing beside the table.
#[derive(Drop)]
struct Totals;

impl Program for Totals {
    ghost tells = { totals_tells };

    fn put_title(page: &mut Page) {
        page.put_word(b"dlpi totals\n");
    }

    // A call's mark.
    fn call(
        &mut self,
        table: &mut [u8],
        bytes: &[u8],
        room: &mut [u8],
        page: &mut Page,
        _n: u64,
    ) -> bool {
        let refused = call_outcomes::is_refused(call_engine::call_sound(table, bytes, room));
        page.put_word(&[43 + 2 * u8::from(refused)]);
        refused
    }

    fn put_closing(&self, page: &mut Page, calls: u64, refused: u64) {
        page.put_word(b"\n");
        replay_transcript::put_totals(page, calls, refused);
    }
}

fn main(rt: HostRuntime) {
    let mut reader = rt.stdin();
    let mut writer = rt.stdout();
    if turns::tell(&mut Totals, &mut reader, &mut writer).is_err() {
        let _ = rt
            .stderr()
            .write_all(b"totals: reading or writing failed\n");
    }
}
