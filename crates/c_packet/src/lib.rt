// Parity, and packets of 36 bytes, on numbers and bytes.
#![tactic(auto)]

ghost use Rattle.std.specs.Prelude.{◌≡◌, pos};
ghost use Rattle.hdmi.specs.Clock.{clock_packet};
ghost use Rattle.hdmi.specs.Info.{audio_info_frame, avi_info_frame};
ghost use Rattle.hdmi.specs.Parity.{parity};
ghost use Rattle.blocks.specs.Asks.{packet_asks};
ghost use Rattle.clock.specs.Asks.{clock_asks};
ghost use Rattle.packet.specs.Asks.{avi_asks};
ghost use Rattle.refusal.specs.Verdict.{verdict, kept};
ghost use Rattle.crossing.specs.Crossing.{given, told};

use crossing::Answer;

pub fn parity(block: &[u8]) -> Answer
    ensures { result ≡ given (parity block.now) (pos 0) }
{
    Answer::given(u32::from(parity::compute_bch(block)), 0)
}

pub fn set_audio_clock_regeneration(packet: &mut [u8], cts: u32, n: u32) -> Answer
    ensures { (result ≡ told (verdict (clock_asks packet.old cts n))) × (packet.new ≡ kept (verdict (clock_asks packet.old cts n)) (clock_packet cts n) packet.old) }
{
    Answer::from(clock::set_audio_clock_regeneration(packet, cts, n))
}

pub fn set_audio_info_frame(packet: &mut [u8], rate: u32) -> Answer
    ensures { (result ≡ told (verdict (packet_asks packet.old))) × (packet.new ≡ kept (verdict (packet_asks packet.old)) (audio_info_frame rate) packet.old) }
{
    Answer::from(packet::set_audio_info_frame(packet, rate))
}

pub fn set_avi_info_frame(
    packet: &mut [u8],
    s: u32,
    y: u32,
    c: u32,
    m: u32,
    r: u32,
    q: u32,
    v: u32,
) -> Answer
    ensures { (result ≡ told (verdict (avi_asks packet.old s y c m r q v))) × (packet.new ≡ kept (verdict (avi_asks packet.old s y c m r q v)) (avi_info_frame s y c m r q v) packet.old) }
{
    Answer::from(packet::set_avi_info_frame(packet, s, y, c, m, r, q, v))
}
