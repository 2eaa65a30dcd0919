// A row of bytes on one lane as symbols, in pieces of at most 4,096.
#![tactic(auto)]

mod tables;

ghost use Rattle.std.specs.Prelude.{◌≡◌, ℕ, ◌+◌, ◌*◌, ◌≤◌, List, [], ◌∷◌, ◌++◌, T, length, take};
ghost use Rattle.laws.specs.Bytes.{bytes_of};
ghost use Rattle.dvi.specs.Symbol.{in_range};
ghost use Rattle.dvi.specs.Row.{row_symbols, row_end};
ghost use Rattle.charts.specs.Word.{unbiased, held, Field, Step, half, word_of};
ghost use Rattle.row.specs.Answer.{lengths_fit, row_accepted, encode_row_of, encode_row_out};
ghost use Rattle.row.specs.Store.{StoreLaws, words_laws, bytes_laws};
ghost use Rattle.row.specs.Wire.{encode_bytes_of, encode_bytes_out};

use refusal::{Refusal, Refused};
use tables::WORDS;

fn word_of(byte: u8) -> u32
    ensures { result ≡ word_of byte }
{
    WORDS[byte as usize]
}

// A lane where it stands: its discrepancy counted from -15, in the low five bits. `symbol::Lane` computes each step; this one goes by the table.
#[derive(Clone, Copy)]
struct Lane {
    state: u32,
    ghost field: { Field state },
}

impl Lane {
    fn at(discrepancy: i32) -> Lane
        requires { T (in_range discrepancy) }
        ensures { unbiased (held result.state) ≡ discrepancy }
    {
        Lane {
            state: (discrepancy + 15) as u32,
        }
    }

    fn discrepancy(self) -> i32
        ensures { result ≡ unbiased (held self.state) }
    {
        ((self.state % 32) as i32) - 15
    }

    // The word's half for the side of 0 on which the lane stands: no jump, which would be missed half the time.
    fn half_of(self, word: u32) -> u32
        ensures { result ≡ half self.state word }
    {
        word >> (self.state.wrapping_add(word / 0x80000000) / 16 % 2 * 16)
    }

    // One step along a row: the symbol that goes out.
    fn send(&mut self, byte: u8) -> u16
        ensures { Step (unbiased (held self.old.state)) byte result self.new.state }
    {
        let half = self.half_of(word_of(byte));
        let symbol = (half % 1024) as u16;
        self.state = self.state.wrapping_add(half / 1024);
        symbol
    }
}

// What a row's symbols stand in: words, or bytes, two for each symbol and the low one first.
trait Store: Copy {
    ghost width: { ℕ };

    ghost stored: { List ℕ → List Self };

    ghost laws: { StoreLaws stored };

    // Symbol i, after those before it.
    fn put(out: &mut [Self], i: u32, symbol: u16)
        requires { width * (i + 1) ≤ length out.old }
        ensures { take (width * (i + 1)) out.new ≡ take (width * i) out.old ++ stored (symbol ∷ []) };
}

impl Store for u16 {
    ghost width = { 1 };

    ghost stored = { λ ss. ss };

    ghost laws = { words_laws };

    fn put(out: &mut [u16], i: u32, symbol: u16) {
        out[i as usize] = symbol;
    }
}

impl Store for u8 {
    ghost width = { 2 };

    ghost stored = { bytes_of 2 };

    ghost laws = { bytes_laws };

    // Not by `copy_from_slice`, which asks whether the two overlap: an M33 takes 21.8 instructions a byte of a row then, and so 10.3.
    fn put(out: &mut [u8], i: u32, symbol: u16) {
        let at = 2 * (i as usize);
        let [low, high] = symbol.to_le_bytes();
        out[at] = low;
        out[at + 1] = high;
    }
}

// The whole row. It counts in 32 bits: a board's registers have no more.
fn fill<S: Store>(mut lane: Lane, bytes: &[u8], out: &mut [S]) -> Lane
    requires short { length bytes.now ≤ 4096 }
    requires room { length out.old ≡ S.width * length bytes.now }
    ensures end { unbiased (held result.state) ≡ row_end (unbiased (held lane.state)) bytes.now }
    ensures out_after { out.new ≡ S.stored (row_symbols (unbiased (held lane.state)) bytes.now) }
{
    for i in 0..bytes.len() as u32 {
        let symbol = lane.send(bytes[i as usize]);
        S::put(out, i, symbol);
    }
    lane
}

// A row is at most 4,096 long, and the buffer as long as the row.
pub fn lengths_fit(row: usize, room: usize) -> bool
    ensures { result ≡ lengths_fit row room }
{
    (row <= 4096) & (room == row)
}

fn accept(discrepancy: i32, row: usize, room: usize) -> Result<(), Refused<i32>>
    ensures { result ≡ row_accepted discrepancy row room }
{
    if !lengths_fit(row, room) {
        return Err(Refusal::Length.handing_back(discrepancy));
    }
    if !symbol::in_range(discrepancy) {
        return Err(Refusal::Discrepancy.handing_back(discrepancy));
    }
    Ok(())
}

// The symbols of a row of bytes, or of a piece of one, on a lane that stands at this discrepancy.
pub fn encode_row(discrepancy: i32, bytes: &[u8], out: &mut [u16]) -> Result<i32, Refused<i32>>
    ensures answer { result ≡ encode_row_of discrepancy bytes.now (length out.old) }
    ensures symbols { out.new ≡ encode_row_out discrepancy bytes.now out.old }
{
    accept(discrepancy, bytes.len(), out.len())?;
    Ok(fill(Lane::at(discrepancy), bytes, out).discrepancy())
}

// The same in bytes alone, stored as they come, with no second buffer.
pub fn encode_row_bytes(discrepancy: i32, bytes: &[u8], out: &mut [u8]) -> Result<i32, Refused<i32>>
    ensures answer { result ≡ encode_bytes_of discrepancy bytes.now (length out.old) }
    ensures symbols { out.new ≡ encode_bytes_out discrepancy bytes.now out.old }
{
    if out.len() % 2 != 0 {
        return Err(Refusal::Length.handing_back(discrepancy));
    }
    accept(discrepancy, bytes.len(), out.len() / 2)?;
    Ok(fill(Lane::at(discrepancy), bytes, out).discrepancy())
}
