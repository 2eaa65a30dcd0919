// The audio sample packet on bytes: a sample is two, the low byte first.
#![tactic(auto)]

ghost use Rattle.std.specs.Prelude.{◌≡◌, ◌/◌, ◌≤◌, pos, nat_abs, length, take, Ok, Err};
ghost use Rattle.hdmi.specs.Audio.{frames, audio_packet, count_after};
ghost use Rattle.refusal.specs.Verdict.{verdict, answered, kept, handed_back};
ghost use Rattle.audio.specs.Asks.{audio_asks};
ghost use Rattle.c_audio.specs.Samples.{samples_in, count_of, packet_out, counted};

use crossing::{Answer, signed_16};
use refusal::{Refusal, Refused};

// The samples of up to sixteen bytes, and zeros behind them: scratch of a fixed size, since there is no heap.
fn samples_of(lent: &[u8]) -> [i16; 8]
    requires { length lent.now ≤ 16 }
    ensures { take (length lent.now / 2) result ≡ samples_in lent.now }
{
    let mut samples = [0i16; 8];
    for i in 0..lent.len() / 2 {
        samples[i] = signed_16(u16::from_le_bytes([lent[2 * i], lent[2 * i + 1]]));
    }
    samples
}

fn set_samples(packet: &mut [u8], lent: &[u8], count: i32) -> Result<i32, Refused<i32>>
    requires { length lent.now ≤ 16 }
    ensures { (result ≡ answered (verdict (audio_asks packet.old (samples_in lent.now) count)) (Ok (pos (count_after (frames (samples_in lent.now)) (nat_abs count)))) (λ k. Err (handed_back count k))) × (packet.new ≡ kept (verdict (audio_asks packet.old (samples_in lent.now) count)) (audio_packet (samples_in lent.now) (nat_abs count)) packet.old) }
{
    let samples = samples_of(lent);
    audio::set_audio(packet, &samples[..lent.len() / 2], count)
}

// The count is carried. A function of its own, so that count_191_as_0 and refused_count_folded are refused by a contract and not for their form.
fn answer_counted(count: Result<i32, Refused<i32>>) -> Answer
    ensures { result ≡ counted count }
{
    Answer::from(count)
}

// Up to four frames, left then right.
pub fn set_audio(packet: &mut [u8], samples: &[u8], count: i32) -> Answer
    ensures answer { result ≡ counted (count_of packet.old samples.now count) }
    ensures written { packet.new ≡ packet_out packet.old samples.now count }
{
    if samples.len() % 2 != 0 || samples.len() > 16 {
        return Answer::refused(Refusal::Length, count);
    }
    answer_counted(set_samples(packet, samples, count))
}
