// The audio sample packet of data_island.rs. All 36 bytes are fixed, whatever the packet held.
#![tactic(auto)]

ghost use Rattle.std.specs.Prelude.{◌≡◌, [], ◌∷◌, ◌-◌, ◌^◌, ◌≤◌, ◌<◌, pos, nat_abs, length, Ok, Err};
ghost use Rattle.refusal.specs.Verdict.{verdict, answered, handed_back, kept};
ghost use Rattle.hdmi.specs.Parity.{with_parity};
ghost use Rattle.laws.specs.Bytes.{low_first};
ghost use Rattle.hdmi.specs.Audio.{frames, frame_bytes, block_start, audio_packet, count_after};
ghost use Rattle.audio.specs.Asks.{audio_asks};
ghost use Rattle.audio_words.specs.Frames.{frame_of, Framed, place_rule};

use refusal::{Refusal, Refused};
use std::array;

// Audio samples: up to four frames, left then right. Answered is how many frames come before the next block of 192. The count is what C carries: what
// isn't in 0..191 is refused with 5.
pub fn set_audio(packet: &mut [u8], samples: &[i16], count: i32) -> Result<i32, Refused<i32>>
    ensures { (result ≡ answered (verdict (audio_asks packet.old samples.now count)) (Ok (pos (count_after (frames samples.now) (nat_abs count)))) (λ k. Err (handed_back count k))) × (packet.new ≡ kept (verdict (audio_asks packet.old samples.now count)) (audio_packet samples.now (nat_abs count)) packet.old) }
{
    if packet.len() != 36 || samples.len() > 8 || samples.len() % 2 != 0 {
        return Err(Refusal::Length.handing_back(count));
    }
    if !(0..192).contains(&count) {
        return Err(Refusal::FrameCount.handing_back(count));
    }
    let n = samples.len() / 2;
    let before = count.cast_unsigned();
    blocks::join_words(packet, header(n, before), frame_words(samples)).map_err(
        |refusal| refusal.handing_back(count),
    )?;
    Ok(((before + 192 - n as u32) % 192) as i32)
}

// The header by the number of frames, and by which of the first four starts a block: 4 where none does. As words, the first byte in the lowest bits.
static HEADERS: [[u32; 5]; 5] = [
    [0x27100002, 0xf5200002, 0x56400002, 0x17800002, 0x94000002],
    [0xd6100102, 0x04200102, 0xa7400102, 0xe6800102, 0x65000102],
    [0x33100302, 0xe1200302, 0x42400302, 0x03800302, 0x80000302],
    [0xfe100702, 0x2c200702, 0x8f400702, 0xce800702, 0x4d000702],
    [0x63100f02, 0xb1200f02, 0x12400f02, 0x53800f02, 0xd0000f02],
];

// Which samples are present, and which of them starts a block.
fn header(n: usize, count: u32) -> [u8; 4]
    requires { n ≤ 4 }
    ensures { result ≡ with_parity (2 ∷ (2 ^ n - 1) ∷ block_start n count ∷ []) }
{
    HEADERS[n][count.min(4) as usize].to_le_bytes()
}

// The four subpackets as words.
fn frame_words(samples: &[i16]) -> [u64; 4]
    ensures { (length result ≡ 4) × Framed samples.now 4 result }
{
    array::from_fn(|s| frame_block(samples, s))
}

// The subpacket of frame s as a word, zeros where there is none: they are what the packet holds there.
fn frame_block(samples: &[i16], s: usize) -> u64
    requires { s < 4 }
    ensures { low_first 8 result ≡ with_parity (frame_bytes samples.now s) }
{
    let i = 2 * s;
    if i + 1 < samples.len() {
        frame_word(samples[i].cast_unsigned(), samples[i + 1].cast_unsigned())
    } else {
        0
    }
}

// Status and parity are linear in the samples' bits: what a frame of two zeros has, and what each hexadecimal digit adds to it.
fn frame_word(l: u16, r: u16) -> u64
    ensures { low_first 8 result ≡ with_parity (frame_of l r) }
{
    let left = digit(3, l / 4096)
        ^ digit(2, l / 256 % 16)
        ^ digit(1, l / 16 % 16)
        ^ digit(0, l % 16);
    let right = digit(7, r / 4096)
        ^ digit(6, r / 256 % 16)
        ^ digit(5, r / 16 % 16)
        ^ digit(4, r % 16);
    left ^ right ^ 0x3399000000000000
}

// What digit x adds at its place: 0..3 are the left sample's, the lowest first, and 4..7 the right one's.
fn digit(place: usize, x: u16) -> u64
    requires { (place < 8) × (x < 16) }
    ensures { result ≡ place_rule place x }
{
    DIGITS[place][x as usize]
}

static DIGITS: [[u64; 16]; 8] = [
    [
        0x0000000000000000,
        0xee08000000000100,
        0xb208000000000200,
        0x5c00000000000300,
        0x0a08000000000400,
        0xe400000000000500,
        0xb800000000000600,
        0x5608000000000700,
        0x7d08000000000800,
        0x9300000000000900,
        0xcf00000000000a00,
        0x2108000000000b00,
        0x7700000000000c00,
        0x9908000000000d00,
        0xc508000000000e00,
        0x2b00000000000f00,
    ],
    [
        0x0000000000000000,
        0x9308000000001000,
        0x4808000000002000,
        0xdb00000000003000,
        0xf908000000004000,
        0x6a00000000005000,
        0xb100000000006000,
        0x2208000000007000,
        0x9c08000000008000,
        0x0f00000000009000,
        0xd40000000000a000,
        0x470800000000b000,
        0x650000000000c000,
        0xf60800000000d000,
        0x2d0800000000e000,
        0xbe0000000000f000,
    ],
    [
        0x0000000000000000,
        0x5608000000010000,
        0xc508000000020000,
        0x9300000000030000,
        0xe408000000040000,
        0xb200000000050000,
        0x2100000000060000,
        0x7708000000070000,
        0xa608000000080000,
        0xf000000000090000,
        0x63000000000a0000,
        0x35080000000b0000,
        0x42000000000c0000,
        0x14080000000d0000,
        0x87080000000e0000,
        0xd1000000000f0000,
    ],
    [
        0x0000000000000000,
        0x2208000000100000,
        0x2d08000000200000,
        0x0f00000000300000,
        0x3308000000400000,
        0x1100000000500000,
        0x1e00000000600000,
        0x3c08000000700000,
        0x0f08000000800000,
        0x2d00000000900000,
        0x2200000000a00000,
        0x0008000000b00000,
        0x3c00000000c00000,
        0x1e08000000d00000,
        0x1108000000e00000,
        0x3300000000f00000,
    ],
    [
        0x0000000000000000,
        0xc980000100000000,
        0x1780000200000000,
        0xde00000300000000,
        0xac80000400000000,
        0x6500000500000000,
        0xbb00000600000000,
        0x7280000700000000,
        0xdd80000800000000,
        0x1400000900000000,
        0xca00000a00000000,
        0x0380000b00000000,
        0x7100000c00000000,
        0xb880000d00000000,
        0x6680000e00000000,
        0xaf00000f00000000,
    ],
    [
        0x0000000000000000,
        0x3f80001000000000,
        0xfc80002000000000,
        0xc300003000000000,
        0x7d80004000000000,
        0x4200005000000000,
        0x8100006000000000,
        0xbe80007000000000,
        0x7880008000000000,
        0x4700009000000000,
        0x840000a000000000,
        0xbb8000b000000000,
        0x050000c000000000,
        0x3a8000d000000000,
        0xf98000e000000000,
        0xc60000f000000000,
    ],
    [
        0x0000000000000000,
        0x7280010000000000,
        0x6680020000000000,
        0x1400030000000000,
        0x4e80040000000000,
        0x3c00050000000000,
        0x2800060000000000,
        0x5a80070000000000,
        0x1e80080000000000,
        0x6c00090000000000,
        0x78000a0000000000,
        0x0a800b0000000000,
        0x50000c0000000000,
        0x22800d0000000000,
        0x36800e0000000000,
        0x44000f0000000000,
    ],
    [
        0x0000000000000000,
        0xbe80100000000000,
        0xf980200000000000,
        0x4700300000000000,
        0x7780400000000000,
        0xc900500000000000,
        0x8e00600000000000,
        0x3080700000000000,
        0x6c80800000000000,
        0xd200900000000000,
        0x9500a00000000000,
        0x2b80b00000000000,
        0x1b00c00000000000,
        0xa580d00000000000,
        0xe280e00000000000,
        0x5c00f00000000000,
    ],
];
