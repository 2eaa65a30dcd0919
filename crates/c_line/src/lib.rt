// The lines on numbers and bytes: each word of a line is four bytes, the low byte first. They go through scratch words of a fixed size: there is no heap.
#![tactic(auto)]

ghost use Rattle.std.specs.Prelude.{◌≡◌, length, replicate};
ghost use Rattle.laws.specs.Bytes.{bytes_of, numbers_of};
ghost use Rattle.refusal.specs.Verdict.{verdict, kept};
ghost use Rattle.line.specs.Line.{pulse_words, only_words, init_line, encode_line};
ghost use Rattle.crossing.specs.Crossing.{told};
ghost use Rattle.crossing.specs.Timing.{timing_of, is_on};
ghost use Rattle.c_line.specs.Asks.{line_bytes_asks, island_bytes_asks};

use crossing::{Answer, Timing, is_on};
use word_bytes::{words_lent, words_told};

// Each entry has a scratch of its own and writes its calls out. One function that is passed what writes there, as a closure, was tried and proved: on the
// M33 a sync pulse takes 159 instructions with it in place of 123, a sync-only line 139 in place of 113, an island line begun 618 in place of 588, and one
// without a packet 237 in place of 210.

pub fn make_sync_pulse(timing: Timing, v_sync: u8, line: &mut [u8]) -> Answer
    ensures answer { result ≡ told (verdict (line_bytes_asks 15 (timing_of timing) line.old)) }
    ensures words { line.new ≡ kept (verdict (line_bytes_asks 15 (timing_of timing) line.old)) (bytes_of 4 (pulse_words (timing_of timing) (is_on v_sync))) line.old }
{
    let mut pulse = [0u32; 15];
    let v = line::make_sync_pulse(timing.into(), is_on(v_sync), &mut pulse);
    words_told(v, &pulse, line)
}

pub fn make_sync_line_only(timing: Timing, v_sync: u8, line: &mut [u8]) -> Answer
    ensures answer { result ≡ told (verdict (line_bytes_asks 11 (timing_of timing) line.old)) }
    ensures words { line.new ≡ kept (verdict (line_bytes_asks 11 (timing_of timing) line.old)) (bytes_of 4 (only_words (timing_of timing) (is_on v_sync))) line.old }
{
    let mut only = [0u32; 11];
    let v = line::make_sync_line_only(timing.into(), is_on(v_sync), &mut only);
    words_told(v, &only, line)
}

pub fn init_data_island(timing: Timing, line: &mut [u8]) -> Answer
    ensures answer { result ≡ told (verdict (line_bytes_asks 56 (timing_of timing) line.old)) }
    ensures words { line.new ≡ kept (verdict (line_bytes_asks 56 (timing_of timing) line.old)) (bytes_of 4 (init_line (timing_of timing) (numbers_of 4 56 line.old))) line.old }
{
    let mut commands = [0u32; 56];
    // Where the length is wrong nothing is read, and `words_told` says so; so too below.
    let _ = words_lent(line, &mut commands);
    let v = line::init_data_island(timing.into(), &mut commands);
    words_told(v, &commands, line)
}

pub fn encode_data_island(timing: Timing, line: &mut [u8], state: u8, packet: &[u8]) -> Answer
    ensures answer { result ≡ told (verdict (island_bytes_asks (timing_of timing) line.old (length packet.now) state)) }
    ensures words { line.new ≡ kept (verdict (island_bytes_asks (timing_of timing) line.old (length packet.now) state)) (bytes_of 4 (encode_line (timing_of timing) state packet.now (numbers_of 4 56 line.old))) line.old }
{
    let mut words = [0u32; 56];
    let _ = words_lent(line, &mut words);
    let v = line::encode_data_island(timing.into(), &mut words, state, packet);
    words_told(v, &words, line)
}

// The same as with a packet of 36 zeros.
pub fn encode_data_island_empty(timing: Timing, line: &mut [u8], state: u8) -> Answer
    ensures answer { result ≡ told (verdict (island_bytes_asks (timing_of timing) line.old 36 state)) }
    ensures words { line.new ≡ kept (verdict (island_bytes_asks (timing_of timing) line.old 36 state)) (bytes_of 4 (encode_line (timing_of timing) state (replicate 36 0) (numbers_of 4 56 line.old))) line.old }
{
    let mut empty = [0u32; 56];
    let _ = words_lent(line, &mut empty);
    let v = line::encode_data_island_empty(timing.into(), &mut empty, state);
    words_told(v, &empty, line)
}
