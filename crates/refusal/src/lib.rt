// The seventeen refusals: what an entry answers where it refuses, with what it hands back.
#![tactic(auto)]

ghost use Rattle.std.specs.Prelude.{◌≡◌, Some};
ghost use Rattle.refusal.specs.Refusal.{number_of, place_of, refusal_text};
ghost use Rattle.refusal.specs.Verdict.{verdict_number, verdict_place, handed_back};

use std::error::Error;
use std::fmt;

// One variant for each number, in the table's order; with the place where the table has one.
#[derive(Clone, Copy, Debug, PartialEq, Eq, Hash)]
pub enum Refusal {
    // 1: a lent slice has the wrong length.
    Length,
    // 2: the discrepancy is outside -4..4.
    Discrepancy,
    // 3: the sync pair is above 3.
    SyncPair,
    // 4: a field, polarity, line state, TERC4 number, command count or joined symbol isn't one of the listed numbers.
    Unlisted,
    // 5: the audio frame count is outside 0..191.
    FrameCount,
    // 6: CTS or N has more than 20 bits.
    ClockValue,
    // 7: the timing is outside its ranges.
    TimingRange,
    // 8: the line counter isn't below the total of lines.
    LineCounter,
    // 9: counter and offset together don't fit 32 bits.
    LineOffset,
    // 10: a pair that must balance ends off zero.
    Unbalanced,
    // 11: not a data symbol, at this index.
    NotData(usize),
    // 12: an island word has bit 30 or 31 set, at this index.
    HighBits(usize),
    // 13: a guard word is wrong, at this index.
    GuardWord(usize),
    // 14: a lane isn't TERC4, at this index.
    NotTerc4(usize),
    // 15: lane 0's marker or sync bits are wrong, at this index.
    SyncBits(usize),
    // 16: the header's parity is wrong.
    HeaderParity,
    // 17: this subpacket's parity is wrong.
    SubpacketParity(usize),
}

impl Refusal {
    // The table's number, 1..17.
    pub fn number(self) -> u8
        ensures { result ≡ number_of self }
    {
        match self {
            Refusal::Length => 1,
            Refusal::Discrepancy => 2,
            Refusal::SyncPair => 3,
            Refusal::Unlisted => 4,
            Refusal::FrameCount => 5,
            Refusal::ClockValue => 6,
            Refusal::TimingRange => 7,
            Refusal::LineCounter => 8,
            Refusal::LineOffset => 9,
            Refusal::Unbalanced => 10,
            Refusal::NotData(_) => 11,
            Refusal::HighBits(_) => 12,
            Refusal::GuardWord(_) => 13,
            Refusal::NotTerc4(_) => 14,
            Refusal::SyncBits(_) => 15,
            Refusal::HeaderParity => 16,
            Refusal::SubpacketParity(_) => 17,
        }
    }

    // With what is handed back.
    pub fn handing_back<T>(self, back: T) -> Refused<T>
        ensures { result ≡ handed_back back self }
    {
        Refused {
            refusal: self,
            back,
        }
    }

    // Where it was met: an index or a subpacket, and 0 where the table has no place; 0 and no None, since C's answer has a place in any case.
    pub fn place(self) -> usize
        ensures { result ≡ place_of self }
    {
        match self {
            Refusal::NotData(at) => at,
            Refusal::HighBits(at) => at,
            Refusal::GuardWord(at) => at,
            Refusal::NotTerc4(at) => at,
            Refusal::SyncBits(at) => at,
            Refusal::SubpacketParity(subpacket) => subpacket,
            Refusal::Length
            | Refusal::Discrepancy
            | Refusal::SyncPair
            | Refusal::Unlisted
            | Refusal::FrameCount
            | Refusal::ClockValue
            | Refusal::TimingRange
            | Refusal::LineCounter
            | Refusal::LineOffset
            | Refusal::Unbalanced
            | Refusal::HeaderParity => 0,
        }
    }
}

// The table's number and place of what an entry answers: 0 and 0 where nothing is refused, as C has them.
pub fn verdict_number(verdict: Result<(), Refusal>) -> u8
    ensures { result ≡ verdict_number verdict }
{
    match verdict {
        Ok(()) => 0,
        Err(refusal) => refusal.number(),
    }
}

pub fn verdict_place(verdict: Result<(), Refusal>) -> usize
    ensures { result ≡ verdict_place verdict }
{
    match verdict {
        Ok(()) => 0,
        Err(refusal) => refusal.place(),
    }
}

// A refusal, and what the caller lent by value: a discrepancy, a frame count or a line counter, handed back as it came.
#[derive(Clone, Copy, Debug, PartialEq, Eq, Hash)]
pub struct Refused<T> {
    pub refusal: Refusal,
    pub back: T,
}

impl<T: Drop> From<Refused<T>> for Refusal {
    ghost from_gives = { λ r e. e ≡ r.refusal };

    fn from(r: Refused<T>) -> Refusal {
        r.refusal
    }
}

impl fmt::Display for Refusal {
    ghost output = { λ r. Some (refusal_text r) };

    fn fmt<W: fmt::Write>(&self, f: &mut fmt::Formatter<W>) -> fmt::Result {
        write!(f, "refusal {} at {}", self.number(), self.place())
    }
}

impl Error for Refusal {}
