// What a line prints, by std's formats.
ghost use Rattle.std.specs.Prelude.{◌≡◌, ◌≤◌, length, None, OnOk};

use crate::ended;
use std::fmt;
use std::io::{Error, Result, Stdout, Write};
use text::hexadecimal::put_hex;

// Standard output, and the first write that failed: after that one, nothing more is written. It can't be let go, so no failure is lost: `all_written`
// ends it.
pub struct StandardOutput {
    to: Stdout,
    failure: Option<Error>,
}

impl StandardOutput {
    // No write has failed yet.
    pub fn new(to: Stdout) -> StandardOutput {
        StandardOutput { to, failure: None }
    }

    // The error of the write that failed, where one did.
    pub fn all_written(self) -> Result<()>
        ensures { OnOk result (self.failure ≡ None) }
    {
        let StandardOutput { to: _, failure } = self;
        ended(failure)
    }

    // Whether a write has failed.
    pub fn has_failed(&self) -> bool {
        self.failure.is_some()
    }

    // Bytes as they are.
    pub fn write(&mut self, b: &[u8]) {
        if self.failure.is_none() {
            self.failure = self.to.write_all(b).err();
        }
    }

    // A format: what `write!` and `writeln!` call.
    pub fn write_fmt<D: fmt::Display + Drop>(&mut self, text: D) {
        if self.failure.is_none() {
            self.failure = self.to.write_fmt(text).err();
        }
    }
}

// Bytes as text in hexadecimal, `-` for none.
#[derive(Clone, Copy, Drop)]
pub struct Hexadecimal<'a>(pub &'a [u8]);

impl fmt::Display for Hexadecimal<'_> {
    // Piece by piece, since each is a write of its own.
    fn fmt<W: fmt::Write>(&self, f: &mut fmt::Formatter<W>) -> fmt::Result {
        if self.0.is_empty() {
            return f.write_str("-");
        }
        for piece in self.0.chunks(512) {
            write_piece(f, piece)?;
        }
        Ok(())
    }
}

// Some bytes in hexadecimal, written at once.
#[tactic(auto, using(text::proofs::Pairs::hex_short))]
fn write_piece<W: fmt::Write>(f: &mut fmt::Formatter<W>, piece: &[u8]) -> fmt::Result
    requires { length piece.now ≤ 512 }
{
    let mut room = [0u8; 1025];
    let k = put_hex(&mut room, 0, piece);
    f.write_str(str::from_utf8(&room[..k]).unwrap())
}
