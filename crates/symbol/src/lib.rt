// The TMDS symbol of DVI 1.0, two symbols in a word, and three lanes in a word. After tmds.rs, with a reader that it lacks.
#![tactic(auto)]

ghost use Rattle.std.specs.Prelude.{◌≡◌, ◌*◌, ◌%◌, ◌<◌, cond, false, T, pos, ◌*ℤ◌, MatchOption};
ghost use Rattle.std.specs.Int.Bits.{bit_xor};
ghost use Rattle.dvi.specs.Encoder.{qm_of, complemented};
ghost use Rattle.dvi.specs.Symbol.{in_range, symbol_of, next_of};
ghost use Rattle.dvi.specs.Decoder.{byte_of, is_data};
ghost use Rattle.dvi.specs.Control.{control, pair_of};
ghost use Rattle.symbol.specs.Encode.{sent_for, encode_of};
ghost use Rattle.symbol.specs.Read.{Reads};
ghost use Rattle.symbol.specs.Pair.{pair_word, join_of, word_of, end_of, balanced_of};

use refusal::{Refusal, Refused};

// The ten bits that one lane carries in a pixel clock. Any sixteen bits may stand here: who takes one apart says what it refuses.
#[derive(Clone, Copy, Debug, PartialEq, Eq)]
pub struct TmdsSymbol(pub u16);

// Two symbols packed for serialization, the first in bits 0..9, the second in 10..19.
#[derive(Clone, Copy, Debug, PartialEq, Eq)]
pub struct TmdsPair(pub u32);

// One symbol on each of the three lanes: lane 0 in bits 0..9, lane 1 in 10..19, lane 2 in 20..29.
#[derive(Clone, Copy, Debug, PartialEq, Eq)]
pub struct Tmds3(pub u32);

impl Tmds3 {
    // By the name that tmds.rs has for it, as `TmdsPair::raw`.
    pub fn raw(self) -> u32
        ensures { result ≡ self.0 }
    {
        self.0
    }
}

// Whether a lane can stand at this discrepancy.
pub fn in_range(discrepancy: i32) -> bool
    ensures { result ≡ in_range discrepancy }
{
    (-4..=4).contains(&discrepancy)
}

// The intermediate of nine bits: each bit the previous one XOR the byte's, as a carry-less product with 255 = 3 * 5 * 17; XNOR toggles every other bit.
fn minimized(byte: u8) -> u32
    ensures { result ≡ qm_of byte }
{
    let byte_ones = byte.count_ones();
    let d = byte as u32;
    let by_3 = (d << 1) ^ d;
    let by_15 = (by_3 << 2) ^ by_3;
    let by_255 = (by_15 << 4) ^ by_15;
    let low = by_255 & 0xff;
    if byte_ones > 4 || (byte_ones == 4 && (low & 1) == 0) {
        low ^ 0xaa
    } else {
        low ^ 0x100
    }
}

// What goes out on a lane, a symbol or a pair, and the discrepancy that it leaves the lane at.
#[derive(Clone, Copy, Debug, PartialEq, Eq)]
pub struct Encoded<T> {
    pub sent: T,
    pub discrepancy: i32,
}

// A lane, by the discrepancy at which it stands.
#[derive(Clone, Copy, Debug, PartialEq, Eq)]
pub struct Lane {
    pub discrepancy: i32,
    ghost in_range: { T (in_range discrepancy) },
}

impl Lane {
    // None where no lane stands at it.
    pub fn at(discrepancy: i32) -> Option<Lane>
        ensures { MatchOption result (in_range discrepancy ≡ false) (λ lane. lane.discrepancy ≡ discrepancy) }
    {
        if in_range(discrepancy) {
            Some(Lane { discrepancy })
        } else {
            None
        }
    }

    // Whether the intermediate's low eight bits go out complemented.
    fn inverts(self, word: u32) -> bool
        requires { word < 512 }
        ensures { result ≡ complemented (pos 2 *ℤ self.discrepancy) word }
    {
        let ones = (word & 0xff).count_ones();
        if self.discrepancy == 0 || ones == 4 {
            (word >> 8) == 0
        } else {
            (self.discrepancy > 0) == (ones > 4)
        }
    }

    // The intermediate as it goes out: as it stands, or complemented with bit 9 set.
    fn outgoing(self, word: u32) -> u32
        requires { word < 512 }
        ensures { result ≡ cond (complemented (pos 2 *ℤ self.discrepancy) word) (bit_xor word 0x2ff) word }
    {
        if self.inverts(word) {
            word ^ 0x2ff
        } else {
            word
        }
    }

    // One step of the lane.
    fn step(self, byte: u8) -> Encoded<TmdsSymbol>
        ensures { result ≡ sent_for self.discrepancy byte }
    {
        let symbol = self.outgoing(minimized(byte));
        let ones = symbol.count_ones();
        Encoded {
            sent: TmdsSymbol(symbol as u16),
            discrepancy: self.discrepancy + (ones as i32 - 5),
        }
    }
}

// The byte that the decoder's chart gives for a number's low ten bits, data symbol or not: each bit with the one below it, and by bits 8 and 9 those
// flipped back that the encoder flipped. A number and no TmdsSymbol, since two symbols of one load go in unparted (crates/row_reader).
pub fn byte_of(symbol: u32) -> u8
    ensures { result ≡ byte_of (symbol % 1024) }
{
    ((symbol ^ (symbol << 1) ^ (0x01ff00fe >> (symbol / 256 % 4 * 8))) % 256) as u8
}

// Whether the encoder ever sends these ten bits: the intermediate is the byte's own, and with four ones in it bit 9 differs from bit 8.
fn is_data(symbol: u32) -> bool
    requires { symbol < 1024 }
    ensures { result ≡ is_data symbol }
{
    let bit_9 = symbol >> 9;
    let bit_8 = (symbol >> 8) % 2;
    let low = (symbol % 256) ^ (bit_9 * 0xff);
    let word = minimized(byte_of(symbol));
    (word == low ^ (bit_8 * 0x100)) & ((low.count_ones() != 4) | (bit_9 != bit_8))
}

impl TmdsSymbol {
    // The control symbols, by C0 + 2 * C1.
    pub const C0: TmdsSymbol = TmdsSymbol(0x354);

    pub const C1: TmdsSymbol = TmdsSymbol(0x0ab);

    pub const C2: TmdsSymbol = TmdsSymbol(0x154);

    pub const C3: TmdsSymbol = TmdsSymbol(0x2ab);

    // The control symbol for the levels of the lines C0 and C1.
    pub fn control(c0: bool, c1: bool) -> TmdsSymbol
        ensures { result ≡ record { 0 = control (pair_of c0 c1) } }
    {
        if c1 {
            if c0 { TmdsSymbol::C3 } else { TmdsSymbol::C2 }
        } else {
            if c0 { TmdsSymbol::C1 } else { TmdsSymbol::C0 }
        }
    }

    // The symbol of a byte on a lane that stands at this discrepancy.
    pub fn encode(discrepancy: i32, byte: u8) -> Result<Encoded<TmdsSymbol>, Refused<i32>>
        ensures { result ≡ encode_of discrepancy byte }
    {
        let Some(lane) = Lane::at(discrepancy) else {
            return Err(Refusal::Discrepancy.handing_back(discrepancy));
        };
        Ok(lane.step(byte))
    }

    // The byte of a data symbol: the one byte that some discrepancy encodes to it.
    pub fn read(self) -> Result<u8, Refusal>
        ensures { Reads self.0 result }
    {
        let symbol = self.0 as u32;
        if symbol < 1024 && is_data(symbol) {
            Ok(byte_of(symbol))
        } else {
            Err(Refusal::NotData(0))
        }
    }
}

// Two numbers of ten bits in a word.
fn packed(first: TmdsSymbol, second: TmdsSymbol) -> TmdsPair
    requires { (first.0 < 1024) × (second.0 < 1024) }
    ensures { result.0 ≡ pair_word first.0 second.0 }
{
    TmdsPair((first.0 as u32) + (second.0 as u32) * 0x400)
}

impl TmdsPair {
    pub fn new(first: TmdsSymbol, second: TmdsSymbol) -> Result<TmdsPair, Refusal>
        ensures { result ≡ join_of first.0 second.0 }
    {
        if (first.0 < 1024) & (second.0 < 1024) {
            Ok(packed(first, second))
        } else {
            Err(Refusal::Unlisted)
        }
    }

    pub fn double(symbol: TmdsSymbol) -> Result<TmdsPair, Refusal>
        ensures { result ≡ join_of symbol.0 symbol.0 }
    {
        TmdsPair::new(symbol, symbol)
    }

    // Two bytes, and where they leave the lane: not balanced unless the bytes are chosen for it.
    pub fn encode_pair_discrepancy(b0: u8, b1: u8) -> Encoded<TmdsPair>
        ensures { result ≡ record { sent = record { 0 = word_of b0 b1 }; discrepancy = end_of b0 b1 } }
    {
        let s0 = Lane { discrepancy: 0 }.step(b0);
        let lane = Lane {
            discrepancy: s0.discrepancy,
        };
        let s1 = lane.step(b1);
        Encoded {
            sent: packed(s0.sent, s1.sent),
            discrepancy: s1.discrepancy,
        }
    }

    // Two bytes that leave the lane where it stood.
    pub fn encode_pair(b0: u8, b1: u8) -> Result<TmdsPair, Refusal>
        ensures { result ≡ balanced_of b0 b1 }
    {
        let end = TmdsPair::encode_pair_discrepancy(b0, b1);
        if end.discrepancy == 0 {
            Ok(end.sent)
        } else {
            Err(Refusal::Unbalanced)
        }
    }

    // Nearly the same byte twice: two that differ in their lowest bit alone cancel.
    pub fn encode_balanced_approx(byte: u8) -> Result<TmdsPair, Refusal>
        ensures { result ≡ balanced_of byte (bit_xor byte 1) }
    {
        TmdsPair::encode_pair(byte, byte ^ 1)
    }

    pub fn raw(self) -> u32
        ensures { result ≡ self.0 }
    {
        self.0
    }
}
