// Cases of timing.rs: whether ours answers what stands in the case. A case of another length agrees with nothing. A timing is 18 bytes.
ghost use Rattle.std.specs.Prelude.{◌+◌, ◌<◌};

use crate::numbers::written;
use counter::DviTimingState;
use symbol::Tmds3;
use timing::{DviTiming, VGA_TIMING};

// The number in the two bytes from there.
fn two(t: &[u8; 18], at: usize) -> u32
    requires { at + 1 < 18 }
{
    u32::from(u16::from_be_bytes([t[at], t[at + 1]]))
}

// No answer depends on the bit clock. A function: neither type is of this crate, so there is no `From`.
fn timing(t: &[u8; 18]) -> DviTiming {
    DviTiming {
        h_sync_polarity: t[0],
        h_front_porch: two(t, 1),
        h_sync_width: two(t, 3),
        h_back_porch: two(t, 5),
        h_active_pixels: two(t, 7),
        v_sync_polarity: t[9],
        v_front_porch: two(t, 10),
        v_sync_width: two(t, 12),
        v_back_porch: two(t, 14),
        v_active_lines: two(t, 16),
        bit_clk: 0,
    }
}

pub fn vga(c: &[u8]) -> bool {
    let Some((t, rest)) = c.split_first_chunk::<18>() else {
        return false;
    };
    let Some(bit_clk) = rest.as_array::<4>() else {
        return false;
    };
    VGA_TIMING
        == DviTiming {
            bit_clk: u32::from_be_bytes(*bit_clk),
            ..timing(t)
        }
}

pub fn sync(c: &[u8]) -> bool {
    let Some((t, rest)) = c.split_first_chunk::<18>() else {
        return false;
    };
    let Some(([h_sync, v_sync], word)) = rest.split_last_chunk::<4>() else {
        return false;
    };
    timing(t).tmds3_for_sync(*h_sync == 1, *v_sync == 1) == Ok(Tmds3(u32::from_be_bytes(*word)))
}

pub fn pulse(c: &[u8]) -> bool {
    let Some((t, [v_sync, known @ ..])) = c.split_first_chunk::<18>() else {
        return false;
    };
    written([0u32; 15], known, |words| {
        line::make_sync_pulse(timing(t), *v_sync == 1, words)
    })
}

pub fn only(c: &[u8]) -> bool {
    let Some((t, [v_sync, known @ ..])) = c.split_first_chunk::<18>() else {
        return false;
    };
    written([0u32; 11], known, |words| {
        line::make_sync_line_only(timing(t), *v_sync == 1, words)
    })
}

// All 56 words lent as one word, of which six are written.
pub fn init(c: &[u8]) -> bool {
    let Some((t, rest)) = c.split_first_chunk::<18>() else {
        return false;
    };
    let Some((old, known)) = rest.split_first_chunk::<4>() else {
        return false;
    };
    written([u32::from_be_bytes(*old); 56], known, |words| {
        line::init_data_island(timing(t), words)
    })
}

// The six words first, then the other fifty.
pub fn island_line(c: &[u8]) -> bool {
    let Some((t, [state, rest @ ..])) = c.split_first_chunk::<18>() else {
        return false;
    };
    let Some((packet, known)) = rest.split_first_chunk::<36>() else {
        return false;
    };
    written([0u32; 56], known, |words| {
        line::init_data_island(timing(t), words)?;
        line::encode_data_island(timing(t), words, *state, packet)
    })
}

pub fn empty_line(c: &[u8]) -> bool {
    let Some((t, [state, known @ ..])) = c.split_first_chunk::<18>() else {
        return false;
    };
    written([0u32; 56], known, |words| {
        line::init_data_island(timing(t), words)?;
        line::encode_data_island_empty(timing(t), words, *state)
    })
}

pub fn advance(c: &[u8]) -> bool {
    let Some((t, rest)) = c.split_first_chunk::<18>() else {
        return false;
    };
    let ([at, next], []) = rest.as_chunks::<4>() else {
        return false;
    };
    let state = DviTimingState::new(u32::from_be_bytes(*at));
    state.advance(timing(t)) == Ok(DviTimingState::new(u32::from_be_bytes(*next)))
}

pub fn state(c: &[u8]) -> bool {
    let Some((t, rest)) = c.split_first_chunk::<18>() else {
        return false;
    };
    let Some((at, [known])) = rest.split_first_chunk::<4>() else {
        return false;
    };
    let state = DviTimingState::new(u32::from_be_bytes(*at)).v_state(timing(t));
    state.is_ok_and(|s| s.number() == *known)
}

// After the counter and the offset: 1 and the row, or 0 and 0.
pub fn scanline(c: &[u8]) -> bool {
    let Some((t, rest)) = c.split_first_chunk::<18>() else {
        return false;
    };
    let Some((at, rest)) = rest.split_first_chunk::<4>() else {
        return false;
    };
    let Some((offset, rest)) = rest.split_first_chunk::<4>() else {
        return false;
    };
    let Some(([some], row)) = rest.split_last_chunk::<4>() else {
        return false;
    };
    let known = match (*some, u32::from_be_bytes(*row)) {
        (1, row) => Some(row),
        (0, 0) => None,
        _ => return false,
    };
    let state = DviTimingState::new(u32::from_be_bytes(*at));
    state.v_scanline_index(timing(t), u32::from_be_bytes(*offset)) == Ok(known)
}
