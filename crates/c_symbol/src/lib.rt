// Symbols and pairs on numbers.
#![tactic(auto)]

ghost use Rattle.std.specs.Prelude.{◌≡◌, ℕ, pos, Result};
ghost use Rattle.std.specs.Int.Bits.{bit_xor};
ghost use Rattle.dvi.specs.Control.{control, pair_of};
ghost use Rattle.refusal.specs.declared.Refusal.{Refusal};
ghost use Rattle.symbol.specs.Encode.{encode_of};
ghost use Rattle.symbol.specs.Pair.{join_of, word_of, end_of, balanced_of};
ghost use Rattle.symbol.specs.Read.{Reads};
ghost use Rattle.crossing.specs.Crossing.{given};
ghost use Rattle.crossing.specs.Timing.{is_on};
ghost use Rattle.c_symbol.specs.Crossing.{encoded, read, joined};

use crossing::{Answer, Carried, is_on};
use symbol::{TmdsPair, TmdsSymbol};

pub fn encode_symbol(discrepancy: i32, byte: u8) -> Answer
    ensures { result ≡ encoded (encode_of discrepancy byte) }
{
    TmdsSymbol::encode(discrepancy, byte)
        .map(|e| Carried {
            value: u32::from(e.sent.0),
            carry: e.discrepancy,
        })
        .into()
}

pub fn read_symbol(symbol: u16) -> Answer
    ensures { (a : Result ℕ Refusal) × (Reads symbol a × (result ≡ read a)) }
{
    TmdsSymbol(symbol).read().map(u32::from).into()
}

// The control symbol of two levels.
pub fn control_symbol(c0: u8, c1: u8) -> Answer
    ensures { result ≡ given (control (pair_of (is_on c0) (is_on c1))) (pos 0) }
{
    let s = TmdsSymbol::control(is_on(c0), is_on(c1));
    Answer::given(u32::from(s.0), 0)
}

pub fn join_symbols(first: u16, second: u16) -> Answer
    ensures { result ≡ joined (join_of first second) }
{
    TmdsPair::new(TmdsSymbol(first), TmdsSymbol(second))
        .map(TmdsPair::raw)
        .into()
}

pub fn encode_pair(b0: u8, b1: u8) -> Answer
    ensures { result ≡ joined (balanced_of b0 b1) }
{
    TmdsPair::encode_pair(b0, b1).map(TmdsPair::raw).into()
}

pub fn encode_balanced_approx(byte: u8) -> Answer
    ensures { result ≡ joined (balanced_of byte (bit_xor byte 1)) }
{
    TmdsPair::encode_balanced_approx(byte)
        .map(TmdsPair::raw)
        .into()
}

pub fn encode_pair_discrepancy(b0: u8, b1: u8) -> Answer
    ensures { result ≡ given (word_of b0 b1) (end_of b0 b1) }
{
    let e = TmdsPair::encode_pair_discrepancy(b0, b1);
    Answer::given(e.sent.raw(), e.discrepancy)
}
