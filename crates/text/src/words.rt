// The words of a line, each read as what the line is to say: exactly one space stands between two.
ghost use Rattle.std.specs.Prelude.{◌≡◌, ◌+◌, ◌≤◌, ◌<◌, length, IfSome, Some, is_some, is_none, MatchOption, slice_index_or, ◌≢◌};
ghost use Rattle.std.specs.List.{AllWithin};
ghost use Rattle.std.specs.Iterator.{at_most};
ghost use Rattle.text.specs.Hexadecimal.{is_hex, bytes};
ghost use Rattle.text.specs.Reading.{read_amount};
ghost use Rattle.text.specs.Words.{space, left, word, on, size, Takes, Reads, long, small, numbers, behind_numbers, unicast, last, any_word, last_word};

use crate::hexadecimal::{decode, is_hex};
use crate::numbers::{amount, number};

// Where the first space stands.
fn space(s: &[u8]) -> Option<usize>
    ensures { (result ≡ space s.now) × IfSome result (λ i. i < length s.now) }
{
    s.iter().position(|b| *b == b' ')
}

// The words that are left: none after the last.
#[derive(Clone, Copy, Drop)]
pub struct Words<'a> {
    rest: Option<&'a [u8]>,
}

impl<'a> Iterator for Words<'a> {
    type Item = &'a [u8];

    ghost next_gives = { Takes };

    ghost remaining = { λ s. at_most (size (left s)) };

    fn next(&mut self) -> Option<&'a [u8]> {
        let line = self.rest?;
        match space(line) {
            Some(end) => {
                self.rest = Some(&line[end + 1..]);
                Some(&line[..end])
            }
            None => {
                self.rest = None;
                Some(line)
            }
        }
    }
}

impl<'a> Words<'a> {
    // All words of the line.
    pub fn of(line: &'a [u8]) -> Words<'a>
        ensures { left result ≡ Some line.now }
    {
        Words { rest: Some(line) }
    }

    // A number of 64 bits.
    pub fn long(&mut self) -> Option<u64>
        ensures { Reads long self.old result self.new }
    {
        number(self.next()?, u64::MAX)
    }

    // A number of 32 bits.
    pub fn small(&mut self) -> Option<u32>
        ensures { Reads small self.old result self.new }
    {
        let n = number(self.next()?, u64::from(u32::MAX))?;
        Some(n as u32)
    }

    // Four numbers of 32 bits.
    pub fn four(&mut self) -> Option<[u32; 4]>
        ensures { (result ≡ numbers 4 (left self.old)) × (left self.new ≡ behind_numbers 4 (left self.old)) }
    {
        Some([self.small()?, self.small()?, self.small()?, self.small()?])
    }

    // An amount, folded.
    pub fn amount(&mut self) -> Option<u32>
        ensures { Reads read_amount self.old result self.new }
    {
        amount(self.next()?)
    }

    // Whether it is `u` for unicast, and not `m` for multicast. A `match` on byte strings tells a proof their lengths alone.
    #[tactic(auto, using(base::proofs::Library::same_equal), unfolding(crate::specs::Words::unicast))]
    pub fn is_unicast(&mut self) -> Option<bool>
        ensures { Reads unicast self.old result self.new }
    {
        let word = self.next()?;
        if word == b"u".as_slice() {
            Some(true)
        } else {
            (word == b"m".as_slice()).then_some(false)
        }
    }

    // Bytes: they are decoded where they stand, with `decode_last`.
    pub fn bytes(&mut self) -> Option<()>
        ensures { (is_some result ≡ any_word is_hex (left self.old)) × (left self.new ≡ on (left self.old)) }
    {
        is_hex(self.next()?).then_some(())
    }

    // Whether it is `last`, for the last accepted save, and not bytes.
    #[tactic(auto, using(base::proofs::Library::same_equal), unfolding(crate::specs::Words::last))]
    pub fn is_last(&mut self) -> Option<bool>
        ensures { Reads last self.old result self.new }
    {
        let word = self.next()?;
        if word == b"last".as_slice() {
            Some(true)
        } else {
            is_hex(word).then_some(false)
        }
    }

    // No more words.
    pub fn end(&mut self) -> Option<()>
        ensures { (is_some result ≡ is_none (left self.old)) × (left self.new ≡ on (left self.old)) }
    {
        self.next().is_none().then_some(())
    }
}

// Where the last space stands.
fn last_space(s: &[u8]) -> Option<usize>
    ensures { MatchOption result (AllWithin (λ b. b ≢ 32) s.now 0 (length s.now)) (λ i. (i < length s.now) × (slice_index_or s.now i 0 ≡ 32) × AllWithin (λ b. b ≢ 32) s.now (i + 1) (length s.now)) }
{
    s.iter().rposition(|b| *b == b' ')
}

// The bytes that the last word of the line stands for, put over its front.
pub fn decode_last(line: &mut [u8]) -> &[u8]
    ensures { (result.now ≡ bytes (last_word line.old)) × (length result.now ≤ length line.old) }
{
    let start = match last_space(line) {
        Some(at) => at + 1,
        None => 0,
    };
    let word = &mut line[start..];
    let n = decode(word);
    &word[..n]
}
