// The parity byte of HDMI's blocks.
#![tactic(auto)]

ghost use Rattle.std.specs.Prelude.{◌≡◌, ◌-◌, ◌≤◌, ◌<◌, length, take, drop, set};
ghost use Rattle.laws.specs.Bytes.{low_first};
ghost use Rattle.refusal.specs.Verdict.{verdict, kept};
ghost use Rattle.hdmi.specs.Parity.{parity, with_parity, right};
ghost use Rattle.hdmi.specs.Packet.{sealed};
ghost use Rattle.parity.specs.Seal.{seal_asks};
ghost use Rattle.parity.specs.Word.{spread_by};

use refusal::Refusal;

// The parity byte of a block of any length.
pub fn compute_bch(block: &[u8]) -> u8
    ensures { result ≡ parity block.now }
{
    block.iter().fold(0, |v, byte| bch::after_byte(byte ^ v))
}

// The five parity bytes of a packet, worked out from its data bytes.
pub fn seal(packet: &mut [u8]) -> Result<(), Refusal>
    ensures { (result ≡ verdict (seal_asks packet.old)) × (packet.new ≡ kept (verdict (seal_asks packet.old)) (sealed packet.old) packet.old) }
{
    if packet.len() != 36 {
        return Err(Refusal::Length);
    }
    // In a loop the five pairs would stand in a table, and the packet's five stages be told apart by an index.
    seal_block(packet, 0, 3);
    seal_block(packet, 4, 11);
    seal_block(packet, 12, 19);
    seal_block(packet, 20, 27);
    seal_block(packet, 28, 35);
    Ok(())
}

// The bytes from start on, up to the place of their parity byte, are given it.
fn seal_block(packet: &mut [u8], start: usize, end: usize)
    requires { (start ≤ end) × (end < length packet.old) }
    ensures { packet.new ≡ set packet.old end (parity (take (end - start) (drop start packet.old))) }
{
    packet[end] = compute_bch(&packet[start..end]);
}

// The subpacket of seven data bytes as one word, the first byte in the lowest bits and the parity byte on top. A zero byte in front of the seven leaves
// the register at 0.
pub fn subpacket_word(bytes: [u8; 7]) -> u64
    ensures { low_first 8 result ≡ with_parity bytes }
{
    let [a, b, c, d, e, f, g] = bytes;
    let word = u64::from_le_bytes([a, b, c, d, e, f, g, 0]);
    word | u64::from(word_parity(word << 8)) << 56
}

// Whether the byte on top of a subpacket's word, whose first byte is lowest, is the parity byte of the seven below it.
pub fn right_subpacket(w: u64) -> bool
    ensures { result ≡ right 7 (low_first 8 w) }
{
    word_parity(w << 8) == (w >> 56) as u8
}

// The same of a header's word, of three bytes and their parity byte: a word of 32 bits, so a function of its own.
pub fn right_header(h: u32) -> bool
    ensures { result ≡ right 3 (low_first 4 h) }
{
    word_parity(u64::from(h) << 40) == (h >> 24) as u8
}

// The parity byte of eight data bytes, the first in the lowest bits, by a division that needs no table. The quotient by the generator, as a power
// series, is the word times 1 / (1 + u), where u = x + x^2 + x^8. That is the product of 1 + u, 1 + u^2, 1 + u^4 and so on, and u^2 has u's exponents
// doubled. What lies above the word in quotient times generator is the register.
fn word_parity(w: u64) -> u8
    ensures { result ≡ parity (low_first 8 w) }
{
    // Each line has constants of its own.
    let a = spread(w, 1, 2, 8);
    let b = spread(a, 2, 4, 16);
    let c = spread(b, 4, 8, 32);
    let q = spread(c, 8, 24, 32) ^ (c << 48) ^ (c << 56);
    ((q >> 56) ^ (q >> 62) ^ (q >> 63)) as u8
}

// The word times 1 + x^i + x^j + x^k.
fn spread(w: u64, i: u32, j: u32, k: u32) -> u64
    requires { (i < 64) × (j < 64) × (k < 64) }
    ensures { result ≡ spread_by i j k w }
{
    w ^ (w << i) ^ (w << j) ^ (w << k)
}
