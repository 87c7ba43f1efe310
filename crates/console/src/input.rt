// Standard input, line by line, through a window on it.
ghost use Rattle.std.specs.Prelude.{◌≡◌, ◌+◌, ◌<◌, ◌≤◌, length, None, OnOk, IfSome};

use crate::ended;
use std::io::{Error, Read, Result, Stdin};
use std::ops::Range;

// Standard input, and the first read that failed: after that one, it is at its end. It can't be let go, so no failure is lost: `all_read` ends it.
pub struct StandardInput {
    from: Stdin,
    failure: Option<Error>,
}

impl StandardInput {
    // No read has failed yet.
    pub fn new(from: Stdin) -> StandardInput {
        StandardInput {
            from,
            failure: None,
        }
    }

    // The error of the read that failed, where one did.
    pub fn all_read(self) -> Result<()>
        ensures { OnOk result (self.failure ≡ None) }
    {
        let StandardInput { from: _, failure } = self;
        ended(failure)
    }

    // Reads once, and answers how many bytes stand at the front now: none at the end of the input.
    fn read_some(&mut self, room: &mut [u8]) -> usize
        ensures { result ≤ length room.old }
    {
        if self.failure.is_some() {
            return 0;
        }
        match self.from.read(room) {
            Ok(n) => n,
            Err(e) => {
                self.failure = Some(e);
                0
            }
        }
    }

    // Reads until the room is full or the input ends, and answers how many bytes stand at its front now.
    pub fn read_full(&mut self, room: &mut [u8]) -> usize
        ensures { result ≤ length room.old }
    {
        // How far a turn goes, the read says.
        let mut done = 0;
        while done < room.len() {
            let n = self.read_some(&mut room[done..]);
            if n == 0 {
                break;
            }
            done += n;
        }
        done
    }
}

// The lines of standard input: what is read and not yet taken are the window's bytes from `from` to `end`.
pub struct Lines<const N: usize> {
    input: StandardInput,
    pub window: [u8; N],
    from: usize,
    end: usize,
    ghost in_order: { from ≤ end },
    ghost within: { end ≤ N },
}

impl<const N: usize> Lines<N> {
    // From the first on.
    pub fn new(input: StandardInput) -> Lines<N> {
        Lines {
            input,
            window: filled(0),
            from: 0,
            end: 0,
        }
    }

    // The error of the read that failed, where one did.
    pub fn all_read(self) -> Result<()>
        ensures { OnOk result (self.entry.input.failure ≡ None) }
    {
        let Lines {
            input,
            window: _,
            from: _,
            end: _,
        } = self;
        input.all_read()
    }

    // How long the first line is, where its end stands in the window.
    fn line_length(&self) -> Option<usize>
        ensures { IfSome result (λ n. self.now.from + n < self.now.end) }
    {
        let (from, end) = (self.from, self.end);
        let window = &self.window[..];
        window[from..end].iter().position(|b| *b == b'\n')
    }

    // What is not yet taken goes to the front, and more is read behind it.
    fn refill(&mut self) {
        let (from, end) = (self.from, self.end);
        let window = &mut self.window[..];
        window.copy_within(from..end, 0);
        let rest = end - from;
        let got = self.input.read_full(&mut window[rest..]);
        self.from = 0;
        self.end = rest + got;
    }

    // Where the next line stands in the window: a part of it that is lent on from here has no rule yet beside a ghost field. The last line may have no line
    // end; one that is longer than the window is cut.
    pub fn next_line(&mut self) -> Option<Range<usize>>
        ensures { IfSome result (λ line. (line.start ≤ line.end) × (line.end ≤ N)) }
    {
        let mut length = self.line_length();
        if length.is_none() {
            self.refill();
            length = self.line_length();
        }
        let start = self.from;
        let stop = match length {
            Some(n) => start + n,
            None => self.end,
        };
        if length.is_none() && start == stop {
            return None;
        }
        self.from = (stop + 1).min(self.end);
        Some(start..stop)
    }
}

// An array of one value: room for what is read, or is lent to a call. That it is long stays out of its callers' proofs.
pub fn filled<T: Copy, const N: usize>(value: T) -> [T; N]
    ensures { N ≡ length result }
{
    [value; N]
}
