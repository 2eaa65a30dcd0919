// What every C function answers and takes: one answer of four numbers, a display mode, a level.
#![tactic(auto)]

ghost use Rattle.std.specs.Prelude.{◌≡◌};
ghost use Rattle.crossing.specs.Crossing.{given, refused, told, answered_by, carried_by};
ghost use Rattle.crossing.specs.Signed.{signed};
ghost use Rattle.crossing.specs.Timing.{timing_of, crossing, is_on};

use refusal::{Refusal, Refused};
use timing::DviTiming;

// Sixteen bytes, so it comes back in two registers. C has no Result: the refusal's number stands beside the value (include/chaffrail.h).
#[repr(C)]
#[derive(Clone, Copy, Debug, PartialEq, Eq)]
pub struct Answer {
    // 0, or the number of the refusal.
    pub refusal: u32,
    // Where the refusal was met: an index or a subpacket; else 0.
    pub place: u32,
    // What is answered; 0 where refused, or where nothing is.
    pub value: u32,
    // What the caller carries to the next call; as it came where refused, and 0 where nothing is carried.
    pub carry: i32,
}

impl Answer {
    // Nothing is refused.
    pub fn given(value: u32, carry: i32) -> Self
        ensures { result ≡ given value carry }
    {
        Answer {
            refusal: 0,
            place: 0,
            value,
            carry,
        }
    }

    // Refused, with what was carried in.
    pub fn refused(r: Refusal, carry: i32) -> Self
        ensures { result ≡ refused r carry }
    {
        Answer {
            refusal: u32::from(r.number()),
            place: (r.place() % 0x1_0000_0000) as u32,
            value: 0,
            carry,
        }
    }
}

// A value, or none, and nothing is carried.

impl From<Result<u32, Refusal>> for Answer {
    ghost from_gives = { λ r a. a ≡ answered_by (λ value. value) r };

    fn from(r: Result<u32, Refusal>) -> Answer {
        match r {
            Ok(value) => Answer::given(value, 0),
            Err(r) => Answer::refused(r, 0),
        }
    }
}

impl From<Result<(), Refusal>> for Answer {
    ghost from_gives = { λ r a. a ≡ told r };

    fn from(r: Result<(), Refusal>) -> Answer {
        Answer::from(r.map(|()| 0))
    }
}

// A value, and what the caller carries to the next call. Refused, it carries what it came with.
#[derive(Clone, Copy, Debug, PartialEq, Eq)]
pub struct Carried {
    pub value: u32,
    pub carry: i32,
}

impl From<Result<Carried, Refused<i32>>> for Answer {
    ghost from_gives = { λ r a. a ≡ carried_by (λ c. c.value) (λ c. c.carry) (λ back. back) r };

    fn from(r: Result<Carried, Refused<i32>>) -> Answer {
        match r {
            Ok(c) => Answer::given(c.value, c.carry),
            Err(e) => Answer::refused(e.refusal, e.back),
        }
    }
}

// Nothing but what is carried: a discrepancy or a frame count.
impl From<Result<i32, Refused<i32>>> for Answer {
    ghost from_gives = { λ r a. a ≡ carried_by (λ _. 0) (λ carry. carry) (λ back. back) r };

    fn from(r: Result<i32, Refused<i32>>) -> Answer {
        Answer::from(r.map(|carry| Carried { value: 0, carry }))
    }
}

// A display mode, as it crosses. Polarities are 0 (negative) or 1 (positive), the bit clock is in kilohertz. The eight numbers with a range lie together
// from the start on: a caller lays the argument down in pieces of 16 bytes, and the ranges are asked of the same pieces, so no load waits for two stores.
// The fields are `DviTiming`'s, in a type of its own: C has this record word for word (include/chaffrail.h), whatever the other becomes.
#[repr(C)]
#[derive(Clone, Copy, Debug, PartialEq, Eq)]
pub struct Timing {
    pub h_front_porch: u32,
    pub h_sync_width: u32,
    pub h_back_porch: u32,
    pub h_active_pixels: u32,
    pub v_front_porch: u32,
    pub v_sync_width: u32,
    pub v_back_porch: u32,
    pub v_active_lines: u32,
    pub bit_clk: u32,
    pub h_sync_polarity: u8,
    pub v_sync_polarity: u8,
}

impl From<Timing> for DviTiming {
    ghost from_gives = { λ t mode. mode ≡ timing_of t };

    fn from(t: Timing) -> DviTiming {
        DviTiming {
            h_front_porch: t.h_front_porch,
            h_sync_width: t.h_sync_width,
            h_back_porch: t.h_back_porch,
            h_active_pixels: t.h_active_pixels,
            v_front_porch: t.v_front_porch,
            v_sync_width: t.v_sync_width,
            v_back_porch: t.v_back_porch,
            v_active_lines: t.v_active_lines,
            bit_clk: t.bit_clk,
            h_sync_polarity: t.h_sync_polarity,
            v_sync_polarity: t.v_sync_polarity,
        }
    }
}

impl From<DviTiming> for Timing {
    ghost from_gives = { λ mode t. t ≡ crossing mode };

    fn from(mode: DviTiming) -> Timing {
        Timing {
            h_front_porch: mode.h_front_porch,
            h_sync_width: mode.h_sync_width,
            h_back_porch: mode.h_back_porch,
            h_active_pixels: mode.h_active_pixels,
            v_front_porch: mode.v_front_porch,
            v_sync_width: mode.v_sync_width,
            v_back_porch: mode.v_back_porch,
            v_active_lines: mode.v_active_lines,
            bit_clk: mode.bit_clk,
            h_sync_polarity: mode.h_sync_polarity,
            v_sync_polarity: mode.v_sync_polarity,
        }
    }
}

// 0 is off, any other number on.
pub fn is_on(level: u8) -> bool
    ensures { result ≡ is_on level }
{
    level != 0
}

// The library's method by the definition's name, at two widths: the edits lowest_sample_not_negative and counter_of_2_31_not_negative are of these two.

// The sample whose sixteen bits these are.
pub fn signed_16(bits: u16) -> i16
    ensures { result ≡ signed 16 bits }
{
    u16::cast_signed(bits)
}

// The number whose 32 bits these are: a counter crosses as a carry so.
pub fn signed_32(bits: u32) -> i32
    ensures { result ≡ signed 32 bits }
{
    u32::cast_signed(bits)
}
