// The packet builder of data_island.rs for the audio clock. It fixes all 36 bytes, whatever the packet held.
#![tactic(auto)]

ghost use Rattle.std.specs.Prelude.{◌≡◌};
ghost use Rattle.refusal.specs.Verdict.{verdict, kept};
ghost use Rattle.hdmi.specs.Clock.{clock_packet};
ghost use Rattle.clock.specs.Asks.{clock_asks};

use refusal::Refusal;

// Audio clock regeneration: CTS and N, the same in each subpacket.
pub fn set_audio_clock_regeneration(packet: &mut [u8], cts: u32, n: u32) -> Result<(), Refusal>
    ensures { (result ≡ verdict (clock_asks packet.old cts n)) × (packet.new ≡ kept (verdict (clock_asks packet.old cts n)) (clock_packet cts n) packet.old) }
{
    if packet.len() != 36 {
        return Err(Refusal::Length);
    }
    if cts >= 1048576 || n >= 1048576 {
        return Err(Refusal::ClockValue);
    }
    let [_, cts_high, cts_middle, cts_low] = cts.to_be_bytes();
    let [_, n_high, n_middle, n_low] = n.to_be_bytes();
    let block = parity::subpacket_word([0, cts_high, cts_middle, cts_low, n_high, n_middle, n_low]);
    blocks::join_words(packet, [1, 0, 0, 0x4a], [block; 4])
}
