// TERC4 and islands on numbers and bytes: each of an island's 36 words is four bytes, the low byte first. They go through scratch words: there is no heap.
#![tactic(auto)]

ghost use Rattle.std.specs.Prelude.{◌≡◌};
ghost use Rattle.laws.specs.Bytes.{bytes_of};
ghost use Rattle.hdmi.specs.Island.{island};
ghost use Rattle.refusal.specs.Verdict.{verdict, kept};
ghost use Rattle.terc4.specs.Terc4.{symbol_answer, read_answer};
ghost use Rattle.crossing.specs.Crossing.{told};
ghost use Rattle.c_island.specs.Asks.{encode_island_asks, read_island_of, read_island_out};
ghost use Rattle.c_island.specs.Crossing.{terc4_symbol, terc4_read, island_read};

use crossing::Answer;
use refusal::Refusal;
use symbol::TmdsSymbol;
use word_bytes::{words_lent, words_told};

pub fn terc4_symbol(number: u8) -> Answer
    ensures { result ≡ terc4_symbol (symbol_answer number) }
{
    terc4::symbol(number).map(|s| u32::from(s.0)).into()
}

pub fn read_terc4(symbol: u16) -> Answer
    ensures { result ≡ terc4_read (read_answer symbol) }
{
    terc4::read(TmdsSymbol(symbol)).map(u32::from).into()
}

pub fn encode_island(hv: u8, packet: &[u8], words: &mut [u8]) -> Answer
    ensures answer { result ≡ told (verdict (encode_island_asks hv packet.now words.old)) }
    ensures written { words.new ≡ kept (verdict (encode_island_asks hv packet.now words.old)) (bytes_of 4 (island hv packet.now)) words.old }
{
    let mut scratch = [0u32; 36];
    let v = island::encode(hv, packet, &mut scratch);
    words_told(v, &scratch, words)
}

// The words that the bytes are, read.
fn read(words: &[u8], packet: &mut [u8]) -> Result<u8, Refusal>
    ensures answer { result ≡ read_island_of words.now packet.old }
    ensures written { packet.new ≡ read_island_out words.now packet.old }
{
    let mut scratch = [0u32; 36];
    words_lent(words, &mut scratch)?;
    quick_reader::read(&scratch, packet)
}

pub fn read_island(words: &[u8], packet: &mut [u8]) -> Answer
    ensures answer { result ≡ island_read (read_island_of words.now packet.old) }
    ensures written { packet.new ≡ read_island_out words.now packet.old }
{
    read(words, packet).map(u32::from).into()
}
