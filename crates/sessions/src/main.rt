// Runs a session script from standard input, and writes what each line prints (reference/README.md, Session scripts).
// Its file `stdin` has every script of reference/scripts: `blank` first, and before each other one a line that sets the lengths of what is lent as they
// are at first. Its file `stdout` is what the reference writes for that.
#![tactic(auto)]

mod book;
mod changing;
mod command;
mod session;
mod showing;

ghost use Rattle.sessions.specs.Kept.{Running};

use console::input::{Lines, StandardInput};
use console::output::StandardOutput;
use session::Session;
use std::io;

// Room for the longest line that is not cut: a snapshot of 33,319 bytes takes 66,638 digits.
const WINDOW: usize = 131072;

// Line by line to the end of the input, or to a write that fails. A proved loop has to end, and nothing says that the input does: no run uses up the turns.
fn run(lines: &mut Lines<WINDOW>, out: &mut StandardOutput, session: &mut Session)
    requires { Running session.old }
{
    for _turn in 0..u64::MAX {
        let Some(line) = lines.next_line() else {
            return;
        };
        if out.has_failed() {
            return;
        }
        session.step(out, &mut lines.window[line]);
    }
}

fn main(rt: HostRuntime) -> io::Result<()> {
    let mut lines: Lines<WINDOW> = Lines::new(StandardInput::new(rt.stdin()));
    let mut out = StandardOutput::new(rt.stdout());
    let mut session = Session::new();
    run(&mut lines, &mut out, &mut session);
    let read = lines.all_read();
    let written = out.all_written();
    read?;
    written
}
