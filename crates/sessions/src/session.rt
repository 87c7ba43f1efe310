// A session: the node's state, what its calls are lent, and the last accepted save.
ghost use Rattle.sessions.specs.Kept.{Running};

use crate::book::totals;
use crate::changing::change;
use crate::command::Command;
use crate::showing::{save, tell};
use console::input::filled;
use console::output::StandardOutput;
use ledger::blank::pingvratha_blank;
use listing::states::state;
use model::figures::{MOST_BYTES, SNAPSHOT_BYTES, TABLE_BYTES};
use node::State;
use text::words::decode_last;

// Calls are lent the first `table` bytes of the memory, and rooms of `reply` and `snapshot` bytes. The first `kept` bytes of `saved` are those of the last
// accepted save. A script sets these lengths, beside memory of one size.
#[derive(Clone, Copy)]
pub struct Session {
    pub state: State,
    pub memory: [u8; 65536],
    pub table: usize,
    pub reply: usize,
    pub snapshot: usize,
    pub saved: [u8; 65536],
    pub kept: usize,
}

impl Session {
    // Before the first line.
    pub fn new() -> Session
        ensures { Running result }
    {
        Session {
            state: pingvratha_blank(),
            memory: filled(0),
            table: TABLE_BYTES,
            reply: MOST_BYTES,
            snapshot: SNAPSHOT_BYTES,
            saved: filled(0),
            kept: 0,
        }
    }

    // One line.
    pub fn step(&mut self, out: &mut StandardOutput, line: &mut [u8])
        requires { Running self.old }
        ensures { Running self.new }
    {
        match Command::read(line) {
            Some(command) => self.run(out, command, decode_last(line)),
            None => out.write(b"bad line\n"),
        }
    }

    // What the line says.
    fn run(&mut self, out: &mut StandardOutput, command: Command, bytes: &[u8])
        requires { Running self.old }
        ensures { Running self.new }
    {
        match command {
            Command::Change(call) => {
                let (s, table, reply) = (self.state, self.table, self.reply);
                let saved = &self.saved[..self.kept];
                let memory = &mut self.memory;
                self.state = change(out, call, s, memory, table, reply, saved, bytes);
            }
            Command::Save { clock } => self.save(out, clock),
            Command::Rooms {
                table,
                reply,
                snapshot,
            } => self.rooms(out, table, reply, snapshot),
            Command::Show(call) => tell(out, call, self.state, &self.memory[..self.table]),
            Command::State => state(out, &self.state, &self.memory),
            Command::Totals => totals(out, bytes),
        }
    }

    // The lengths of what is lent: at most 40000, 5000 and 40000.
    fn rooms(&mut self, out: &mut StandardOutput, table: u64, reply: u64, snapshot: u64)
        requires { Running self.old }
        ensures { Running self.new }
    {
        if table <= 40000 && reply <= 5000 && snapshot <= 40000 {
            self.table = table as usize;
            self.reply = reply as usize;
            self.snapshot = snapshot as usize;
        } else {
            out.write(b"bad line\n");
        }
    }

    // An accepted save is kept.
    fn save(&mut self, out: &mut StandardOutput, clock: u64)
        requires { Running self.old }
        ensures { Running self.new }
    {
        let mut room: [u8; 65536] = filled(0);
        let a = save(
            out,
            self.state,
            &self.memory[..self.table],
            &mut room[..self.snapshot],
            clock,
        );
        if a.number == 0 {
            let n = a.length;
            self.saved[..n].copy_from_slice(&room[..n]);
            self.kept = n;
        }
    }
}
