// The data island's reader: 36 words to the sync pair and the packet, or the first refusal.
#![tactic(auto)]

ghost use Rattle.std.specs.Prelude.{◌≡◌, false, true, [], ◌∷◌, ◌++◌, ℕ, ◌+◌, ◌-◌, ◌*◌, ◌/◌, ◌%◌, ◌<◌, length, ltb, get_or, MatchOption, OnOk, position, leb};
ghost use Rattle.std.specs.Bool.{then_some};
ghost use Rattle.laws.specs.Bit.{bit};
ghost use Rattle.refusal.specs.declared.Refusal.TheVariants.{SyncBits};
ghost use Rattle.refusal.specs.Verdict.{verdict, answered};
ghost use Rattle.hdmi.specs.Parity.{right};
ghost use Rattle.island_reader.specs.Found.{pair_of, number_on, unread, packet_found};
ghost use Rattle.island_reader.specs.Numbers.{numbers_of, numbers_in, header_in, header_byte_in, group_in, packet_in, Unpacked, shuffled, sync_unlike};
ghost use Rattle.island_reader.specs.Read.{nowhere, high_ask, guard_ask, lane_ask, parity_asks, word_asks, read_answer, read_out};

use refusal::Refusal;
use symbol::TmdsSymbol;

// The sync pair of a guard word. The four stand here as keys, in crates/line as words, and crates/island computes them: a table would be searched.
fn pair(word: u32) -> Option<u8>
    ensures { MatchOption result (pair_of word ≡ 4) (λ hv. (hv ≡ pair_of word) × (hv < 4)) }
{
    match word {
        0x1334ce8e => Some(0),
        0x1334ce71 => Some(1),
        0x1334cd63 => Some(2),
        0x1334cec3 => Some(3),
        _ => None,
    }
}

// The first word that has bit 30 or 31 set.
fn first_high(words: &[u32; 36]) -> Option<usize>
    ensures { result ≡ position (λ word. leb 0x40000000 word) words.now }
{
    words.iter().position(|word| *word >= 0x40000000)
}

// No word has bit 30 or 31 set.
fn high_bits(words: &[u32; 36]) -> Result<(), Refusal>
    ensures { result ≡ verdict (high_ask words.now ∷ []) }
{
    match first_high(words) {
        Some(i) => Err(Refusal::HighBits(i)),
        None => Ok(()),
    }
}

// The four guard words are those of one sync pair, which word 0 has.
fn guards(words: &[u32; 36]) -> Result<u8, Refusal>
    ensures { result ≡ answered (verdict (guard_ask (pair_of (get_or words.now 0 0)) words.now ∷ [])) (Ok (pair_of (get_or words.now 0 0))) Err }
{
    let hv = pair(words[0]).ok_or(Refusal::GuardWord(0))?;
    for at in [1, 34, 35] {
        if words[at] != words[0] {
            return Err(Refusal::GuardWord(at));
        }
    }
    Ok(hv)
}

// The number on lane t of a word.
fn on_lane(word: u32, t: u32) -> Option<u8>
    requires { t < 3 }
    ensures { result ≡ then_some (ltb (number_on t word) 16) (number_on t word) }
{
    terc4::number(TmdsSymbol(((word >> (10 * t)) % 1024) as u16))
}

// The numbers of a word's three lanes, four bits each.
fn numbers(word: u32) -> Option<u32>
    ensures { MatchOption result (unread word ≡ true) (λ n. (n ≡ numbers_of word) × (unread word ≡ false)) }
{
    let a = u32::from(on_lane(word, 0)?);
    let b = u32::from(on_lane(word, 1)?);
    let c = u32::from(on_lane(word, 2)?);
    Some(a + 16 * b + 256 * c)
}

// Every lane of words 2 to 33 is TERC4; and their numbers, in room that is lent: handed on by value they would lie on the stack twice.
fn lanes(words: &[u32; 36], found: &mut [u32; 32]) -> Result<(), Refusal>
    ensures answer { result ≡ verdict (lane_ask words.now ∷ []) }
    ensures read { OnOk result (found.new ≡ numbers_in words.now) }
{
    for k in 0..32 {
        found[k] = numbers(words[2 + k]).ok_or(Refusal::NotTerc4(2 + k))?;
    }
    Ok(())
}

// Lane 0 has the sync pair and the marker in each of words 2 to 33. The pair is a number, as `read` answers it.
fn sync(hv: u8, found: &[u32; 32]) -> Result<(), Refusal>
    requires { hv < 4 }
    ensures { result ≡ verdict (nowhere (sync_unlike hv found.now) 2 32 SyncBits ∷ []) }
{
    let mut want = u32::from(hv);
    for k in 0..32 {
        let n = found[k];
        if n % 4 + n % 16 / 8 * 8 != want {
            return Err(Refusal::SyncBits(2 + k));
        }
        want = u32::from(hv) + 8;
    }
    Ok(())
}

// In each of four bytes, the low nibble to the even bits and the high nibble to the odd ones; by shifts and masks of its own, like `island::transpose`.
fn shuffle(v: u32) -> u32
    ensures { (k : ℕ) → k < 32 → bit k result ≡ bit (shuffled k) v }
{
    let t = (v ^ (v >> 2)) & 0x0c0c0c0c;
    let w = v ^ t ^ (t << 2);
    let u = (w ^ (w >> 1)) & 0x22222222;
    w ^ u ^ (u << 1)
}

// The numbers on lanes 1 and 2 as a byte.
fn lanes_1_2(numbers: u32) -> u8
    ensures { result ≡ numbers / 16 % 256 }
{
    (numbers / 16 % 256) as u8
}

// Byte i of the four subpackets, from the numbers on lanes 1 and 2 of four words. These are functions of the 32 numbers, which `check` alone makes and reads.
fn group(found: &[u32; 32], i: usize) -> u32
    requires { i < 8 }
    ensures { result ≡ group_in found.now i }
{
    let k = 4 * i;
    island::transpose(shuffle(u32::from_le_bytes([
        lanes_1_2(found[k]),
        lanes_1_2(found[k + 1]),
        lanes_1_2(found[k + 2]),
        lanes_1_2(found[k + 3]),
    ])))
}

// Bit k of the header.
fn header_bit(found: &[u32; 32], k: usize) -> u32
    requires { k < 32 }
    ensures { (result ≡ header_in found.now k) × (result < 2) }
{
    found[k] / 4 % 2
}

// Byte i of the header.
fn header_byte(found: &[u32; 32], i: usize) -> u8
    requires { i < 4 }
    ensures { result ≡ header_byte_in found.now i }
{
    let mut byte = 0;
    for n in (0..8).rev() {
        byte = 2 * byte + header_bit(found, 8 * i + n);
    }
    byte as u8
}

// Byte i of each subpacket to its place, where those before it stand.
fn put_group(found: &[u32; 32], i: usize, packet: &mut [u8; 36])
    requires { (i < 8) × Unpacked found.now i packet.old }
    ensures { Unpacked found.now (i + 1) packet.new }
{
    let [a, b, c, d] = group(found, i).to_le_bytes();
    packet[4 + i] = a;
    packet[12 + i] = b;
    packet[20 + i] = c;
    packet[28 + i] = d;
}

// The packet's 36 bytes.
fn unpack(found: &[u32; 32], packet: &mut [u8; 36])
    ensures { packet.new ≡ packet_in found.now }
{
    for m in 0..4 {
        packet[m] = header_byte(found, m);
    }
    for i in 0..8 {
        put_group(found, i, packet);
    }
}

// Whether the last byte of a block is the parity of those before it.
fn is_right(block: &[u8]) -> bool
    requires { 0 < length block.now }
    ensures { result ≡ right (length block.now - 1) block.now }
{
    let data = block.len() - 1;
    parity::compute_bch(&block[..data]) == block[data]
}

// The parity of the five blocks.
fn blocks(packet: &[u8; 36]) -> Result<(), Refusal>
    ensures { result ≡ verdict (parity_asks packet.now) }
{
    if !is_right(&packet[..4]) {
        return Err(Refusal::HeaderParity);
    }
    for s in 0..4 {
        if !is_right(&packet[4 + 8 * s..12 + 8 * s]) {
            return Err(Refusal::SubpacketParity(s));
        }
    }
    Ok(())
}

// All that is asked of 36 words; and where nothing is refused, their sync pair, with the packet in room that is lent.
fn check(words: &[u32; 36], packet: &mut [u8; 36]) -> Result<u8, Refusal>
    ensures answer { result ≡ answered (verdict (word_asks words.now ++ parity_asks (packet_found words.now))) (Ok (pair_of (get_or words.now 0 0))) Err }
    ensures read { OnOk result (packet.new ≡ packet_found words.now) }
{
    high_bits(words)?;
    let hv = guards(words)?;
    let mut found = [0; 32];
    lanes(words, &mut found)?;
    sync(hv, &found)?;
    unpack(&found, packet);
    blocks(packet)?;
    Ok(hv)
}

// The sync pair and the packet of an island, or the first refusal, which leaves the packet as it was lent.
pub fn read(words: &[u32], packet: &mut [u8]) -> Result<u8, Refusal>
    ensures answer { result ≡ read_answer words.now packet.old }
    ensures written { packet.new ≡ read_out words.now packet.old }
{
    let words = words.as_array().ok_or(Refusal::Length)?;
    let room = packet.as_mut_array().ok_or(Refusal::Length)?;
    let mut packet = [0; 36];
    let hv = check(words, &mut packet)?;
    *room = packet;
    Ok(hv)
}
