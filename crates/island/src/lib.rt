// The data island's writer: the header goes on lane 0, and the four subpackets, transposed, on lanes 1 and 2.
#![tactic(auto)]

ghost use Rattle.std.specs.Prelude.{◌≡◌, [], ◌∷◌, ℕ, ◌+◌, ◌*◌, ◌/◌, ◌%◌, ◌^◌, ◌<◌, get_or};
ghost use Rattle.laws.specs.Bit.{bit};
ghost use Rattle.refusal.specs.Verdict.{verdict, kept};
ghost use Rattle.hdmi.specs.Terc4.{terc4};
ghost use Rattle.hdmi.specs.Island.{guard_word, marker, island};
ghost use Rattle.island.specs.Encode.{encode_asks};
ghost use Rattle.island.specs.Words.{transposed, Subpacket, Rows, Header, merged, word_from};

mod packed;

use packed::two_lanes;
use refusal::Refusal;
use symbol::Tmds3;

// The transposition of four bytes of four bit pairs each, by the shifts and masks of data_island.rs: pair s of byte j changes places with pair j of byte
// s. Done twice, it undoes itself. The reader goes by it; the writer brings the pairs of all characters together at once (`side_by_side`).
pub fn transpose(v: u32) -> u32
    ensures { (k : ℕ) → k < 32 → bit k result ≡ bit (transposed k) v }
{
    let t = (v ^ (v >> 6)) & 0xcc00cc;
    let w = v ^ t ^ (t << 6);
    let u = (w ^ (w >> 12)) & 0xf0f0;
    w ^ u ^ (u << 12)
}

// The bits of x under one mask, and those of y, moved up, under the other.
fn merge(x: u64, y: u64, by: u32, low: u64, high: u64) -> u64
    requires { by < 64 }
    ensures { result ≡ merged x y by low high }
{
    (x & low) | ((y << by) & high)
}

// The bit pair j of every byte of four words, side by side in the byte of the same place. It undoes itself: of the four words that it makes of four, for
// each j, it makes the four again. The writer brings subpackets together by it, the reader takes them apart.
pub fn side_by_side(words: [u64; 4], j: u32) -> u64
    ensures { (i s o : ℕ) → i < 8 → s < 4 → o < 2 → bit (8 * i + (2 * s + o)) result ≡ bit (8 * i + (2 * (j % 4) + o)) (get_or words s 0) }
{
    let [a, b, c, d] = words;
    let by = 2 * (j % 2);
    let on = 4 * (j / 2 % 2);
    let one = merge(a >> by, b >> by, 2, 0x3333333333333333, 0xcccccccccccccccc);
    let two = merge(c >> by, d >> by, 2, 0x3333333333333333, 0xcccccccccccccccc);
    merge(
        one >> on,
        two >> on,
        4,
        0x0f0f0f0f0f0f0f0f,
        0xf0f0f0f0f0f0f0f0,
    )
}

// The four words that it makes of four. Done twice, it undoes itself.
pub fn all_side_by_side(words: [u64; 4]) -> [u64; 4]
    ensures { (j i s o : ℕ) → j < 4 → i < 8 → s < 4 → o < 2 → bit (8 * i + (2 * s + o)) (get_or result j 0) ≡ bit (8 * i + (2 * (j % 4) + o)) (get_or words s 0) }
{
    [
        side_by_side(words, 0),
        side_by_side(words, 1),
        side_by_side(words, 2),
        side_by_side(words, 3),
    ]
}

// Subpacket s as a word, its first byte lowest. An index has its own bound in each function, so it stays a number beside the array.
fn subpacket(packet: &[u8; 36], s: usize) -> u64
    requires { s < 4 }
    ensures { Subpacket packet.now s result }
{
    let bytes = &packet[4 + 8 * s..];
    u64::from_le_bytes(*bytes.first_chunk().unwrap())
}

// A packet's bits from some character on, at the low end of each word: the header's, and the bit pairs of the four subpackets, those of every fourth
// character in a word, a byte for each.
#[derive(Clone, Copy)]
struct Bits {
    header: u32,
    rows: [u64; 4],
}

impl Bits {
    // From the first character on.
    fn of(packet: &[u8; 36]) -> Bits
        ensures header { Header packet.now 0 result.header }
        ensures rows { Rows packet.now 0 result.rows }
    {
        // Written out: by `array::from_fn` no proof of `rows` was found.
        let subpackets = [
            subpacket(packet, 0),
            subpacket(packet, 1),
            subpacket(packet, 2),
            subpacket(packet, 3),
        ];
        Bits {
            header: u32::from_le_bytes(*packet.first_chunk().unwrap()),
            rows: all_side_by_side(subpackets),
        }
    }

    // From the next four characters on.
    fn behind_four(self) -> Bits
        ensures header { result.header ≡ self.header / 2 ^ 4 }
        ensures rows { result.rows ≡ (get_or self.rows 0 0 / 2 ^ 8) ∷ (get_or self.rows 1 0 / 2 ^ 8) ∷ (get_or self.rows 2 0 / 2 ^ 8) ∷ (get_or self.rows 3 0 / 2 ^ 8) ∷ [] }
    {
        Bits {
            header: self.header >> 4,
            rows: self.rows.map(|row| row >> 8),
        }
    }
}

// The marker of character k, as it adds to lane 0's number.
fn marker(k: usize) -> usize
    ensures { result ≡ marker k }
{
    if k == 0 { 0 } else { 8 }
}

// The sync pair of an island's lane 0. Private: `encode` takes the pair as a number and the readers answer one.
#[derive(Clone, Copy)]
struct SyncPair {
    hv: u8,
    ghost one_of_four: { hv < 4 },
}

impl SyncPair {
    // Lane 0's symbol, by what is added to the sync pair: 4 for the header's bit and 8 for the marker.
    fn symbol(self, marks: usize) -> u32
        requires { marks < 13 }
        ensures { result ≡ terc4 (self.hv + marks) }
    {
        let symbols = &terc4::symbols()[self.hv as usize..];
        u32::from(symbols[marks])
    }

    fn guard(self) -> Tmds3
        ensures { result.0 ≡ guard_word self.hv }
    {
        Tmds3(self.symbol(12) | 0x1334cc00)
    }

    // Character 4 i + j, from the bits behind the first 4 i.
    fn character(self, bits: Bits, i: usize, j: usize) -> Tmds3
        requires { (i < 8) × (j < 4) }
        ensures { result.0 ≡ word_from self.hv bits.header (get_or bits.rows j 0) i j }
    {
        let bit = (bits.header >> j) % 2;
        let symbol = self.symbol(4 * bit as usize + marker(4 * i + j));
        Tmds3(symbol | two_lanes((bits.rows[j] % 256) as u8))
    }

    // The whole island, four characters a turn.
    fn write(self, packet: &[u8; 36], words: &mut [u32; 36])
        ensures { words.new ≡ island self.hv packet.now }
    {
        let guard = self.guard().0;
        let mut bits = Bits::of(packet);
        words[0] = guard;
        words[1] = guard;
        for i in 0..8 {
            for j in 0..4 {
                words[2 + 4 * i + j] = self.character(bits, i, j).0;
            }
            bits = bits.behind_four();
        }
        words[34] = guard;
        words[35] = guard;
    }
}

// The 36 words of an island with one packet. The packet's parity bytes are sent as they are.
pub fn encode(hv: u8, packet: &[u8], words: &mut [u32]) -> Result<(), Refusal>
    ensures answer { result ≡ verdict (encode_asks hv packet.now words.old) }
    ensures written { words.new ≡ kept (verdict (encode_asks hv packet.now words.old)) (island hv packet.now) words.old }
{
    let packet = packet.as_array().ok_or(Refusal::Length)?;
    let words = words.as_mut_array().ok_or(Refusal::Length)?;
    if 4 <= hv {
        return Err(Refusal::SyncPair);
    }
    SyncPair { hv }.write(packet, words);
    Ok(())
}
