// Reads records on standard input and prints what became of each call that rang in: see docs/FATES.md.
#![tactic(auto)]

ghost use Rattle.std.specs.Prelude.{◌≡◌, ◌≤◌, length};
ghost use Rattle.text.specs.Page.{Put};
ghost use Rattle.turns.specs.Turns.{buffer_size, most_text};
ghost use Rattle.turns.specs.Programs.{CallRoom, Tells};
ghost use Rattle.fates.specs.Turns.{fates_tell};

use std::io::Write;
use text::Page;
use turns::LentProgram;

// Beside the table it keeps the register of what it heard.
#[derive(Drop)]
struct Fates {
    register: [u64; fates_register::REGISTER_SIZE],
}

impl LentProgram for Fates {
    ghost tells = { fates_tell };

    fn put_title(page: &mut Page) {
        fates_report::put_heading(page);
    }

    // The lines of the call are entered in the register. Refused calls are not counted.
    fn call(
        &mut self,
        table: &mut [u8],
        bytes: &[u8],
        room: &mut [u8],
        page: &mut Page,
        _n: u64,
    ) -> bool {
        let answer = call_outcomes::call_number(call_engine::call_sound(table, bytes, room));
        fates_report::tell_call(&mut self.register, page, bytes, answer, room);
        false
    }

    fn put_closing(&self, page: &mut Page, _calls: u64, _refused: u64) {
        fates_report::put_closing(page, &self.register);
    }
}

// Starts from a blank register.
fn main(rt: HostRuntime) {
    let mut reader = rt.stdin();
    let mut writer = rt.stdout();
    let mut fates = Fates {
        register: [0u64; fates_register::REGISTER_SIZE],
    };
    if turns::tell_lent(&mut fates, &mut reader, &mut writer).is_err() {
        let _ = rt.stderr().write_all(b"fates: reading or writing failed\n");
    }
}
