// The C functions: every encode, read and line entry on numbers and byte slices. What is wider than a byte crosses as bytes, low byte first. The archive
// has only the functions that are marked here, so each family's stand here again, with their contracts word for word, and forward to its room.
#![tactic(auto)]

ghost use Rattle.std.specs.Prelude.{◌≡◌, [], ◌∷◌, ℕ, pos, length, replicate, Result};
ghost use Rattle.refusal.specs.declared.Refusal.{Refusal};
ghost use Rattle.std.specs.Int.Bits.{bit_xor};
ghost use Rattle.dvi.specs.Control.{control, pair_of};
ghost use Rattle.symbol.specs.Encode.{encode_of};
ghost use Rattle.symbol.specs.Pair.{join_of, word_of, end_of, balanced_of};
ghost use Rattle.symbol.specs.Read.{Reads};
ghost use Rattle.crossing.specs.Crossing.{given, told};
ghost use Rattle.crossing.specs.Timing.{is_on, timing_of, crossing};
ghost use Rattle.c_symbol.specs.Crossing.{encoded, read, joined};
ghost use Rattle.refusal.specs.Verdict.{verdict, kept};
ghost use Rattle.row.specs.Wire.{encode_bytes_of, encode_bytes_out};
ghost use Rattle.row_reader.specs.Wire.{read_bytes_asks, read_bytes_out};
ghost use Rattle.c_row.specs.Crossing.{row_ended};
ghost use Rattle.hdmi.specs.Clock.{clock_packet};
ghost use Rattle.hdmi.specs.Info.{audio_info_frame, avi_info_frame};
ghost use Rattle.hdmi.specs.Parity.{parity};
ghost use Rattle.blocks.specs.Asks.{packet_asks};
ghost use Rattle.clock.specs.Asks.{clock_asks};
ghost use Rattle.packet.specs.Asks.{avi_asks};
ghost use Rattle.laws.specs.Bytes.{bytes_of, numbers_of};
ghost use Rattle.c_audio.specs.Samples.{count_of, packet_out, counted};
ghost use Rattle.hdmi.specs.Island.{island};
ghost use Rattle.terc4.specs.Terc4.{symbol_answer, read_answer};
ghost use Rattle.c_island.specs.Asks.{encode_island_asks, read_island_of, read_island_out};
ghost use Rattle.c_island.specs.Crossing.{terc4_symbol, terc4_read, island_read};
ghost use Rattle.timing.specs.Command.{command_of};
ghost use Rattle.timing.specs.Sync.{sync_word_of};
ghost use Rattle.timing.specs.Timing.{timing_asks, vga};
ghost use Rattle.c_timing.specs.Crossing.{commanded, synced};
ghost use Rattle.line.specs.Line.{pulse_words, only_words, init_line, encode_line};
ghost use Rattle.c_line.specs.Asks.{line_bytes_asks, island_bytes_asks};
ghost use Rattle.counter.specs.Counter.{counter_at, line_after, advance_of, v_state_of, scanline_of};
ghost use Rattle.c_counter.specs.Crossing.{advanced, stated, shown};
ghost use Rattle.c_scan_out.specs.Lent.{counter_of, counter_bytes_asks};

use crossing::{Answer, Timing};

// ---- symbols and pairs

#[unsafe(no_mangle)]
pub extern "C" fn chaffrail_encode_symbol(discrepancy: i32, byte: u8) -> Answer
    ensures { result ≡ encoded (encode_of discrepancy byte) }
{
    c_symbol::encode_symbol(discrepancy, byte)
}

#[unsafe(no_mangle)]
pub extern "C" fn chaffrail_read_symbol(symbol: u16) -> Answer
    ensures { (a : Result ℕ Refusal) × (Reads symbol a × (result ≡ read a)) }
{
    c_symbol::read_symbol(symbol)
}

#[unsafe(no_mangle)]
pub extern "C" fn chaffrail_control_symbol(c0: u8, c1: u8) -> Answer
    ensures { result ≡ given (control (pair_of (is_on c0) (is_on c1))) (pos 0) }
{
    c_symbol::control_symbol(c0, c1)
}

#[unsafe(no_mangle)]
pub extern "C" fn chaffrail_join_symbols(first: u16, second: u16) -> Answer
    ensures { result ≡ joined (join_of first second) }
{
    c_symbol::join_symbols(first, second)
}

#[unsafe(no_mangle)]
pub extern "C" fn chaffrail_encode_pair(b0: u8, b1: u8) -> Answer
    ensures { result ≡ joined (balanced_of b0 b1) }
{
    c_symbol::encode_pair(b0, b1)
}

#[unsafe(no_mangle)]
pub extern "C" fn chaffrail_encode_balanced_approx(byte: u8) -> Answer
    ensures { result ≡ joined (balanced_of byte (bit_xor byte 1)) }
{
    c_symbol::encode_balanced_approx(byte)
}

#[unsafe(no_mangle)]
pub extern "C" fn chaffrail_encode_pair_discrepancy(b0: u8, b1: u8) -> Answer
    ensures { result ≡ given (word_of b0 b1) (end_of b0 b1) }
{
    c_symbol::encode_pair_discrepancy(b0, b1)
}

// ---- rows

#[unsafe(no_mangle)]
pub extern "C" fn chaffrail_encode_row(discrepancy: i32, bytes: &[u8], symbols: &mut [u8]) -> Answer
    ensures answer { result ≡ row_ended (encode_bytes_of discrepancy bytes.now (length symbols.old)) }
    ensures symbols { symbols.new ≡ encode_bytes_out discrepancy bytes.now symbols.old }
{
    c_row::encode_row(discrepancy, bytes, symbols)
}

#[unsafe(no_mangle)]
pub extern "C" fn chaffrail_read_row(symbols: &[u8], bytes: &mut [u8]) -> Answer
    ensures answer { result ≡ told (verdict (read_bytes_asks symbols.now (length bytes.old))) }
    ensures bytes { bytes.new ≡ read_bytes_out symbols.now bytes.old }
{
    c_row::read_row(symbols, bytes)
}

// ---- parity and packets of 36 bytes

#[unsafe(no_mangle)]
pub extern "C" fn chaffrail_parity(block: &[u8]) -> Answer
    ensures { result ≡ given (parity block.now) (pos 0) }
{
    c_packet::parity(block)
}

#[unsafe(no_mangle)]
pub extern "C" fn chaffrail_set_audio_clock_regeneration(
    packet: &mut [u8],
    cts: u32,
    n: u32,
) -> Answer
    ensures { (result ≡ told (verdict (clock_asks packet.old cts n))) × (packet.new ≡ kept (verdict (clock_asks packet.old cts n)) (clock_packet cts n) packet.old) }
{
    c_packet::set_audio_clock_regeneration(packet, cts, n)
}

#[unsafe(no_mangle)]
pub extern "C" fn chaffrail_set_audio_info_frame(packet: &mut [u8], rate: u32) -> Answer
    ensures { (result ≡ told (verdict (packet_asks packet.old))) × (packet.new ≡ kept (verdict (packet_asks packet.old)) (audio_info_frame rate) packet.old) }
{
    c_packet::set_audio_info_frame(packet, rate)
}

#[unsafe(no_mangle)]
pub extern "C" fn chaffrail_set_avi_info_frame(
    packet: &mut [u8],
    s: u32,
    y: u32,
    c: u32,
    m: u32,
    r: u32,
    q: u32,
    v: u32,
) -> Answer
    ensures { (result ≡ told (verdict (avi_asks packet.old s y c m r q v))) × (packet.new ≡ kept (verdict (avi_asks packet.old s y c m r q v)) (avi_info_frame s y c m r q v) packet.old) }
{
    c_packet::set_avi_info_frame(packet, s, y, c, m, r, q, v)
}

// ---- audio

#[unsafe(no_mangle)]
pub extern "C" fn chaffrail_set_audio(packet: &mut [u8], samples: &[u8], count: i32) -> Answer
    ensures answer { result ≡ counted (count_of packet.old samples.now count) }
    ensures written { packet.new ≡ packet_out packet.old samples.now count }
{
    c_audio::set_audio(packet, samples, count)
}

// ---- TERC4 and islands

#[unsafe(no_mangle)]
pub extern "C" fn chaffrail_terc4_symbol(number: u8) -> Answer
    ensures { result ≡ terc4_symbol (symbol_answer number) }
{
    c_island::terc4_symbol(number)
}

#[unsafe(no_mangle)]
pub extern "C" fn chaffrail_read_terc4(symbol: u16) -> Answer
    ensures { result ≡ terc4_read (read_answer symbol) }
{
    c_island::read_terc4(symbol)
}

#[unsafe(no_mangle)]
pub extern "C" fn chaffrail_encode_island(hv: u8, packet: &[u8], words: &mut [u8]) -> Answer
    ensures answer { result ≡ told (verdict (encode_island_asks hv packet.now words.old)) }
    ensures written { words.new ≡ kept (verdict (encode_island_asks hv packet.now words.old)) (bytes_of 4 (island hv packet.now)) words.old }
{
    c_island::encode_island(hv, packet, words)
}

#[unsafe(no_mangle)]
pub extern "C" fn chaffrail_read_island(words: &[u8], packet: &mut [u8]) -> Answer
    ensures answer { result ≡ island_read (read_island_of words.now packet.old) }
    ensures written { packet.new ≡ read_island_out words.now packet.old }
{
    c_island::read_island(words, packet)
}

// ---- a timing, its words and the command words

#[unsafe(no_mangle)]
pub extern "C" fn chaffrail_vga_timing() -> Timing
    ensures { result ≡ crossing vga }
{
    c_timing::vga_timing()
}

#[unsafe(no_mangle)]
pub extern "C" fn chaffrail_check_timing(timing: Timing) -> Answer
    ensures { result ≡ told (verdict (timing_asks (timing_of timing))) }
{
    c_timing::check_timing(timing)
}

#[unsafe(no_mangle)]
pub extern "C" fn chaffrail_tmds3_for_sync(timing: Timing, h_sync: u8, v_sync: u8) -> Answer
    ensures { result ≡ synced (sync_word_of (timing_of timing) (is_on h_sync) (is_on v_sync)) }
{
    c_timing::tmds3_for_sync(timing, h_sync, v_sync)
}

#[unsafe(no_mangle)]
pub extern "C" fn chaffrail_hstx_cmd_raw(words: u32) -> Answer
    ensures { result ≡ commanded (command_of 0 words) }
{
    c_timing::hstx_cmd_raw(words)
}

#[unsafe(no_mangle)]
pub extern "C" fn chaffrail_hstx_cmd_raw_repeat(times: u32) -> Answer
    ensures { result ≡ commanded (command_of 1 times) }
{
    c_timing::hstx_cmd_raw_repeat(times)
}

// ---- lines

#[unsafe(no_mangle)]
pub extern "C" fn chaffrail_make_sync_pulse(timing: Timing, v_sync: u8, line: &mut [u8]) -> Answer
    ensures answer { result ≡ told (verdict (line_bytes_asks 15 (timing_of timing) line.old)) }
    ensures words { line.new ≡ kept (verdict (line_bytes_asks 15 (timing_of timing) line.old)) (bytes_of 4 (pulse_words (timing_of timing) (is_on v_sync))) line.old }
{
    c_line::make_sync_pulse(timing, v_sync, line)
}

#[unsafe(no_mangle)]
pub extern "C" fn chaffrail_make_sync_line_only(
    timing: Timing,
    v_sync: u8,
    line: &mut [u8],
) -> Answer
    ensures answer { result ≡ told (verdict (line_bytes_asks 11 (timing_of timing) line.old)) }
    ensures words { line.new ≡ kept (verdict (line_bytes_asks 11 (timing_of timing) line.old)) (bytes_of 4 (only_words (timing_of timing) (is_on v_sync))) line.old }
{
    c_line::make_sync_line_only(timing, v_sync, line)
}

#[unsafe(no_mangle)]
pub extern "C" fn chaffrail_init_data_island(timing: Timing, line: &mut [u8]) -> Answer
    ensures answer { result ≡ told (verdict (line_bytes_asks 56 (timing_of timing) line.old)) }
    ensures words { line.new ≡ kept (verdict (line_bytes_asks 56 (timing_of timing) line.old)) (bytes_of 4 (init_line (timing_of timing) (numbers_of 4 56 line.old))) line.old }
{
    c_line::init_data_island(timing, line)
}

#[unsafe(no_mangle)]
pub extern "C" fn chaffrail_encode_data_island(
    timing: Timing,
    line: &mut [u8],
    state: u8,
    packet: &[u8],
) -> Answer
    ensures answer { result ≡ told (verdict (island_bytes_asks (timing_of timing) line.old (length packet.now) state)) }
    ensures words { line.new ≡ kept (verdict (island_bytes_asks (timing_of timing) line.old (length packet.now) state)) (bytes_of 4 (encode_line (timing_of timing) state packet.now (numbers_of 4 56 line.old))) line.old }
{
    c_line::encode_data_island(timing, line, state, packet)
}

#[unsafe(no_mangle)]
pub extern "C" fn chaffrail_encode_data_island_empty(
    timing: Timing,
    line: &mut [u8],
    state: u8,
) -> Answer
    ensures answer { result ≡ told (verdict (island_bytes_asks (timing_of timing) line.old 36 state)) }
    ensures words { line.new ≡ kept (verdict (island_bytes_asks (timing_of timing) line.old 36 state)) (bytes_of 4 (encode_line (timing_of timing) state (replicate 36 0) (numbers_of 4 56 line.old))) line.old }
{
    c_line::encode_data_island_empty(timing, line, state)
}

// ---- the line counter

#[unsafe(no_mangle)]
pub extern "C" fn chaffrail_counter_advance(counter: u32, timing: Timing) -> Answer
    ensures { result ≡ advanced (advance_of (timing_of timing) (counter_at counter)) }
{
    c_counter::counter_advance(counter, timing)
}

#[unsafe(no_mangle)]
pub extern "C" fn chaffrail_counter_advance_in_place(counter: &mut [u8], timing: Timing) -> Answer
    ensures answer { result ≡ told (verdict (counter_bytes_asks (timing_of timing) counter.old)) }
    ensures counter { counter.new ≡ kept (verdict (counter_bytes_asks (timing_of timing) counter.old)) (bytes_of 4 (line_after (timing_of timing) (counter_of counter.old) ∷ [])) counter.old }
{
    c_scan_out::counter_advance_in_place(counter, timing)
}

#[unsafe(no_mangle)]
pub extern "C" fn chaffrail_counter_state(counter: u32, timing: Timing) -> Answer
    ensures { result ≡ stated (counter_at counter) (v_state_of (timing_of timing) (counter_at counter)) }
{
    c_counter::counter_state(counter, timing)
}

#[unsafe(no_mangle)]
pub extern "C" fn chaffrail_counter_row(counter: u32, timing: Timing, offset: u32) -> Answer
    ensures { result ≡ shown (counter_at counter) (scanline_of (timing_of timing) (counter_at counter) offset) }
{
    c_counter::counter_row(counter, timing, offset)
}
