// A packet put together of its five blocks.
#![tactic(auto)]

ghost use Rattle.std.specs.Prelude.{◌≡◌, ◌++◌, ◌+◌, ◌≤◌, length, take, drop};
ghost use Rattle.laws.specs.Bytes.{bytes_of};
ghost use Rattle.refusal.specs.Verdict.{verdict, kept};
ghost use Rattle.blocks.specs.Asks.{packet_asks};

use refusal::Refusal;

// A header and four subpackets, end to end: each subpacket is a word, its first byte in the lowest bits.
pub fn join_words(packet: &mut [u8], header: [u8; 4], subpackets: [u64; 4]) -> Result<(), Refusal>
    ensures { (result ≡ verdict (packet_asks packet.old)) × (packet.new ≡ kept (verdict (packet_asks packet.old)) (header ++ bytes_of 8 subpackets) packet.old) }
{
    if packet.len() != 36 {
        return Err(Refusal::Length);
    }
    lay(packet, 0, header);
    for (s, word) in subpackets.iter().enumerate() {
        lay(packet, 4 + 8 * s, word.to_le_bytes());
    }
    Ok(())
}

// A block's bytes, from a place of the packet on. Unrolled, the stores of a word's bytes become stores of words; the library's `copy_from_slice` asks at
// each whether the two overlap, which on the M33 is ten instructions for a word of 32 bits where the stores are two.
fn lay<const N: usize>(packet: &mut [u8], at: usize, block: [u8; N])
    requires { at + N ≤ length packet.old }
    ensures { packet.new ≡ take at packet.old ++ block.entry ++ drop (at + N) packet.old }
{
    for (i, byte) in block.iter().enumerate() {
        packet[at + i] = *byte;
    }
}
