// A row of symbols of one lane as bytes, in pieces of at most 4,096.
#![tactic(auto)]

mod tables;

ghost use Rattle.std.specs.Prelude.{◌≡◌, ℕ, ◌/◌, ◌%◌, ◌<◌, ◌≤◌, List, length, get_or};
ghost use Rattle.std.specs.Int.{from_le_bytes, w32};
ghost use Rattle.dvi.specs.Decoder.{byte_of, is_data};
ghost use Rattle.dvi.specs.Plain.{flag};
ghost use Rattle.dvi.specs.Row.{row_bytes};
ghost use Rattle.refusal.specs.Verdict.{verdict};
ghost use Rattle.row_reader.specs.Along.{DataTo, Unpacked};
ghost use Rattle.row_reader.specs.Answer.{data_asks, read_row_asks, read_row_out};
ghost use Rattle.row_reader.specs.Wire.{symbols_in, read_bytes_asks, read_bytes_out};

use refusal::Refusal;
use symbol::byte_of;
use tables::DATA;

// In its lowest bit, whether the symbol's low ten bits are a data symbol.
fn data_bit(symbol: u32) -> u32
    ensures { result % 2 ≡ flag (is_data (symbol % 1024)) }
{
    DATA[(symbol / 32 % 32) as usize] >> (symbol % 32)
}

// By the map, where symbol's function of this name computes it: a row asks it of each symbol.
fn is_data(symbol: u32) -> bool
    ensures { result ≡ is_data symbol }
{
    (symbol < 1024) & (data_bit(symbol) % 2 == 1)
}

// What a row's symbols stand in: words, or bytes, two for each symbol and the low one first. The trait of this name in crates/row puts symbols, this one
// gives them: they share no method.
trait Store: Copy {
    ghost symbols: { List Self → List ℕ };

    fn count(lent: &[Self]) -> usize
        ensures { result ≡ length (symbols lent.now) };

    // Symbol i.
    fn get(lent: &[Self], i: usize) -> u32
        requires { i < length (symbols lent.now) }
        ensures { result ≡ get_or (symbols lent.now) i 0 };

    // How many symbols from the first on are data symbols, as far as can be told without stopping at one.
    fn settled(lent: &[Self]) -> usize
        ensures within { result ≤ length (symbols lent.now) }
        ensures data { DataTo (symbols lent.now) result };

    // Unpacks as many symbols from the first on as go faster than one at a time, and says how many.
    fn unpack_front(lent: &[Self], out: &mut [u8]) -> usize
        requires room { length out.old ≡ length (symbols lent.now) }
        requires data { DataTo (symbols lent.now) (length (symbols lent.now)) }
        ensures within { result ≤ length (symbols lent.now) }
        ensures unpacked { Unpacked (symbols lent.now) out.new result };
}

impl Store for u16 {
    ghost symbols = { λ ss. ss };

    fn count(lent: &[u16]) -> usize {
        lent.len()
    }

    fn get(lent: &[u16], i: usize) -> u32 {
        u32::from(lent[i])
    }

    fn settled(_lent: &[u16]) -> usize {
        0
    }

    fn unpack_front(_lent: &[u16], _out: &mut [u8]) -> usize {
        0
    }
}

// Symbols go in pairs, a pair in one load, and a row has at most 2,048. They are counted in 32 bits: by `for pair in pairs` an M33 takes 14.0 instructions
// a symbol, and so 12.8.
impl Store for u8 {
    ghost symbols = { symbols_in };

    #[tactic(auto, using(crate::proofs::Symbols::count_in))]
    fn count(lent: &[u8]) -> usize {
        lent.len() / 2
    }

    #[tactic(auto, using(crate::proofs::Symbols::count_in))]
    fn get(lent: &[u8], i: usize) -> u32 {
        u32::from(u16::from_le_bytes([lent[2 * i], lent[2 * i + 1]]))
    }

    #[tactic(auto, using(crate::proofs::Symbols::count_in))]
    fn settled(lent: &[u8]) -> usize {
        let (pairs, _) = lent.as_chunks::<4>();
        let n = pairs.len().min(2048) as u32;
        let mut above: u32 = 0;
        let mut all: u32 = 1;
        for k in 0..n {
            let pair = joined(&pairs[k as usize]);
            above |= pair;
            all &= data_bit(pair) & data_bit(pair / 65536);
        }
        if (above / 1024 % 64 == 0) & (above / 67108864 == 0) & (all % 2 == 1) {
            2 * (n as usize)
        } else {
            0
        }
    }

    #[tactic(auto, using(crate::proofs::Symbols::count_in))]
    fn unpack_front(lent: &[u8], out: &mut [u8]) -> usize {
        let (pairs, _) = lent.as_chunks::<4>();
        let n = pairs.len().min(2048) as u32;
        for k in 0..n {
            let pair = joined(&pairs[k as usize]);
            let at = 2 * (k as usize);
            out[at] = byte_of(pair);
            out[at + 1] = second_byte_of(pair);
        }
        2 * (n as usize)
    }
}

// Two symbols in a word, the first in its low half. By a sum: with `u32::from_le_bytes` a pair to unpack takes RISC-V three instructions more.
fn joined(bytes: &[u8; 4]) -> u32
    ensures { result ≡ from_le_bytes w32 bytes.now }
{
    let [a, b, c, d] = bytes;
    u32::from(*a) + 256 * u32::from(*b) + 65536 * u32::from(*c) + 16777216 * u32::from(*d)
}

// The byte of a pair's second symbol, where it stands: its bits and those below them are joined with the first one's.
fn second_byte_of(pair: u32) -> u8
    requires { (pair % 65536 < 1024) × (pair / 65536 < 1024) }
    ensures { result ≡ byte_of (pair / 65536) }
{
    ((((pair ^ (pair << 1)) / 65536) ^ (0x01ff00fe >> (pair / 16777216 % 4 * 8))) % 256) as u8
}

// Refuses the first symbol that is no data symbol.
fn scan<S: Store>(lent: &[S]) -> Result<(), Refusal>
    ensures { result ≡ verdict (data_asks (S.symbols lent.now)) }
{
    for i in S::settled(lent)..S::count(lent) {
        if !is_data(S::get(lent, i)) {
            return Err(Refusal::NotData(i));
        }
    }
    Ok(())
}

// The bytes of a row that was scanned.
fn unpack<S: Store>(lent: &[S], out: &mut [u8])
    requires room { length out.old ≡ length (S.symbols lent.now) }
    requires data { DataTo (S.symbols lent.now) (length (S.symbols lent.now)) }
    ensures { out.new ≡ row_bytes (S.symbols lent.now) }
{
    let front = S::unpack_front(lent, out);
    for i in front..S::count(lent) {
        out[i] = byte_of(S::get(lent, i));
    }
}

// Nothing is written before every symbol was looked at.
fn read<S: Store>(lent: &[S], out: &mut [u8]) -> Result<(), Refusal>
    ensures answer { result ≡ verdict (read_row_asks (S.symbols lent.now) (length out.old)) }
    ensures bytes { out.new ≡ read_row_out (S.symbols lent.now) out.old }
{
    if !row::lengths_fit(S::count(lent), out.len()) {
        return Err(Refusal::Length);
    }
    scan(lent)?;
    unpack(lent, out);
    Ok(())
}

// The bytes of a row of symbols, or of a piece of one.
pub fn read_row(symbols: &[u16], out: &mut [u8]) -> Result<(), Refusal>
    ensures answer { result ≡ verdict (read_row_asks symbols.now (length out.old)) }
    ensures bytes { out.new ≡ read_row_out symbols.now out.old }
{
    read(symbols, out)
}

// The same of symbols of two bytes each, with no second buffer.
pub fn read_row_bytes(lent: &[u8], out: &mut [u8]) -> Result<(), Refusal>
    ensures answer { result ≡ verdict (read_bytes_asks lent.now (length out.old)) }
    ensures bytes { out.new ≡ read_bytes_out lent.now out.old }
{
    if lent.len() % 2 != 0 {
        return Err(Refusal::Length);
    }
    read(lent, out)
}
