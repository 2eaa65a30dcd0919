// Cases of data_island.rs: whether ours answers what stands in the case. A case of another length agrees with nothing.
use crate::numbers::written;
use refusal::Refusal;
use symbol::TmdsSymbol;

pub fn parity(c: &[u8]) -> bool {
    let [block @ .., known] = c else {
        return false;
    };
    parity::compute_bch(block) == *known
}

pub fn terc4(c: &[u8]) -> bool {
    let [value, high, low] = *c else {
        return false;
    };
    terc4::symbol(value) == Ok(TmdsSymbol(u16::from_be_bytes([high, low])))
}

// The packets are lent with other bytes in them, since ours fixes all 36.
const OLD_PACKET: [u8; 36] = [0xee; 36];

// The count, two bytes for each of at most eight samples, the packet and the count after it.
pub fn audio(c: &[u8]) -> bool {
    let [count, rest @ .., after] = c else {
        return false;
    };
    let Some((sampled, known)) = rest.split_last_chunk::<36>() else {
        return false;
    };
    let (pairs, odd) = sampled.as_chunks::<2>();
    if pairs.len() > 8 || !odd.is_empty() {
        return false;
    }
    let mut samples = [0i16; 8];
    for (sample, pair) in samples.iter_mut().zip(pairs) {
        *sample = i16::from_be_bytes(*pair);
    }
    let mut packet = OLD_PACKET;
    let next = audio::set_audio(&mut packet, &samples[..pairs.len()], i32::from(*count));
    packet == *known && next == Ok(i32::from(*after))
}

// Whether the packet is made without refusal, and is then this.
fn packet_is<F: FnOnce(&mut [u8]) -> Result<(), Refusal>>(known: &[u8], make: F) -> bool
    requires { F.IsAlwaysCallable make }
{
    let mut packet = OLD_PACKET;
    make(&mut packet).is_ok() && packet.as_slice() == known
}

pub fn clock(c: &[u8]) -> bool {
    let Some((cts, rest)) = c.split_first_chunk::<4>() else {
        return false;
    };
    let Some((n, known)) = rest.split_first_chunk::<4>() else {
        return false;
    };
    packet_is(known, |packet| {
        clock::set_audio_clock_regeneration(
            packet,
            u32::from_be_bytes(*cts),
            u32::from_be_bytes(*n),
        )
    })
}

pub fn audio_info(c: &[u8]) -> bool {
    let Some((rate, known)) = c.split_first_chunk::<4>() else {
        return false;
    };
    packet_is(known, |packet| {
        packet::set_audio_info_frame(packet, u32::from_be_bytes(*rate))
    })
}

pub fn avi(c: &[u8]) -> bool {
    let Some((fields, known)) = c.split_first_chunk::<7>() else {
        return false;
    };
    let [s, y, c, m, r, q, v] = fields.map(u32::from);
    packet_is(known, |packet| {
        packet::set_avi_info_frame(packet, s, y, c, m, r, q, v)
    })
}

pub fn island(c: &[u8]) -> bool {
    let [hv, rest @ ..] = c else {
        return false;
    };
    let Some((packet, known)) = rest.split_first_chunk::<36>() else {
        return false;
    };
    written(
        [0u32; 36],
        known,
        |words| island::encode(*hv, packet, words),
    )
}
