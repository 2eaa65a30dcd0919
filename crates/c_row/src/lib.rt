// Rows of one lane on bytes: a symbol is two, the low byte first.
#![tactic(auto)]

ghost use Rattle.std.specs.Prelude.{◌≡◌, length};
ghost use Rattle.refusal.specs.Verdict.{verdict};
ghost use Rattle.row.specs.Wire.{encode_bytes_of, encode_bytes_out};
ghost use Rattle.row_reader.specs.Wire.{read_bytes_asks, read_bytes_out};
ghost use Rattle.crossing.specs.Crossing.{told};
ghost use Rattle.c_row.specs.Crossing.{row_ended};

use crossing::Answer;

pub fn encode_row(discrepancy: i32, bytes: &[u8], symbols: &mut [u8]) -> Answer
    ensures answer { result ≡ row_ended (encode_bytes_of discrepancy bytes.now (length symbols.old)) }
    ensures symbols { symbols.new ≡ encode_bytes_out discrepancy bytes.now symbols.old }
{
    Answer::from(row::encode_row_bytes(discrepancy, bytes, symbols))
}

pub fn read_row(symbols: &[u8], bytes: &mut [u8]) -> Answer
    ensures answer { result ≡ told (verdict (read_bytes_asks symbols.now (length bytes.old))) }
    ensures bytes { bytes.new ≡ read_bytes_out symbols.now bytes.old }
{
    Answer::from(row_reader::read_row_bytes(symbols, bytes))
}
