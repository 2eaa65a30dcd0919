// The island's reader for islands that are right, as nearly all are: a packet is guessed, written again, and the words are compared. Of a guess nothing
// is believed, so nothing is proved. What isn't found right in this way goes to the reader that asks one question after the other.
#![tactic(auto)]

ghost use Rattle.std.specs.Prelude.{◌≡◌, ◌<◌, length, IsTrue, MatchOption};
ghost use Rattle.island_reader.specs.Exact.{Encodes};
ghost use Rattle.island_reader.specs.Read.{read_answer, read_out};
ghost use Rattle.quick_reader.specs.Laid.{laid, right_blocks};

use blocks::join_words;
use island::all_side_by_side;
use refusal::Refusal;

// A lane's number by its symbol's mark: bit s of the number at bit 2 s. The mark is five bits that tell the sixteen symbols apart, bits 2 to 6 of the
// symbol with bits 6 to 9 put on; for other symbols, and for the marks that none has, the number is any.
static SPREAD: [u8; 32] = [
    0, 68, 0, 17, 0, 20, 0, 0, 0, 80, 65, 21, 0, 0, 0, 0, 0, 1, 4, 5, 0, 81, 0, 0, 64, 16, 69, 85,
    0, 84, 0, 0,
];

// The numbers on lanes 1 and 2 of a word, each bit two apart, as bit pairs.
fn pairs(word: u32) -> u64 {
    let marks = word ^ ((word >> 4) & 0x03f0fc3f);
    let lane_1 = SPREAD[((marks >> 12) % 32) as usize];
    let lane_2 = SPREAD[((marks >> 22) % 32) as usize];
    u64::from(lane_1) + 2 * u64::from(lane_2)
}

// The bit pairs of every fourth character from j on, a byte for each.
fn row(words: &[u32; 36], j: usize) -> u64
    requires { j < 4 }
{
    let mut row = 0;
    for i in (0..8).rev() {
        row = (row << 8) | pairs(words[2 + 4 * i + j]);
    }
    row
}

// The sync pair, by lane 0 of a guard word.
fn guessed_pair(guard: u32) -> u8
    ensures { result < 4 }
{
    match guard % 1024 {
        0x28e => 0,
        0x271 => 1,
        0x163 => 2,
        _ => 3,
    }
}

// The header's bits: 1 where lane 0 has the symbol of the pair with that bit set.
fn guessed_header(hv: u8, words: &[u32; 36]) -> u32
    requires { hv < 4 }
{
    let symbols = terc4::symbols();
    let first = u32::from(symbols[hv as usize + 4]);
    let later = u32::from(symbols[hv as usize + 12]);
    let mut header = (words[2] % 1024 == first) as u32;
    for k in 1..32 {
        header |= ((words[2 + k] % 1024 == later) as u32) << k;
    }
    header
}

// A packet that is guessed from an island's words: its header and its subpackets as words, the first byte lowest.
#[derive(Clone, Copy)]
struct Guess {
    hv: u8,
    header: u32,
    subpackets: [u64; 4],
    ghost pair: { hv < 4 },
    ghost four: { length subpackets ≡ 4 },
}

impl Guess {
    fn of(words: &[u32; 36]) -> Guess {
        let hv = guessed_pair(words[0]);
        let rows = [row(words, 0), row(words, 1), row(words, 2), row(words, 3)];
        Guess {
            hv,
            header: guessed_header(hv, words),
            subpackets: all_side_by_side(rows),
        }
    }

    // The packet's bytes.
    fn lay(self, packet: &mut [u8])
        requires { length packet.old ≡ 36 }
        ensures { packet.new ≡ laid self.header self.subpackets }
    {
        join_words(packet, self.header.to_le_bytes(), self.subpackets).unwrap();
    }

    // Whether the five blocks have their right parity bytes.
    fn has_right_parity(self) -> bool
        ensures { result ≡ right_blocks self.header self.subpackets }
    {
        let [a, b, c, d] = self.subpackets;
        parity::right_header(self.header)
            & parity::right_subpacket(a)
            & parity::right_subpacket(b)
            & parity::right_subpacket(c)
            & parity::right_subpacket(d)
    }

    // Whether the words are the island of this packet, and its parity is right. Where it is false they may still be an island. The parity is asked
    // between writing and comparing, which gives the words time to be stored.
    fn is_right(self, words: &[u32; 36]) -> bool
        ensures { IsTrue result → Encodes self.hv (laid self.header self.subpackets) words.now }
    {
        let mut packet = [0; 36];
        self.lay(&mut packet);
        let mut island = [0; 36];
        island::encode(self.hv, &packet, &mut island).unwrap();
        self.has_right_parity() & (*words == island)
    }
}

// The sync pair of an island whose guess is right, with the packet laid down; else the packet stays. Not inlined: its scratch is off the stack before the
// other reader is asked, which a Cortex-M33 needs to read an island in the 768 bytes that include/chaffrail.h promises.
#[inline(never)]
fn known(words: &[u32; 36], packet: &mut [u8]) -> Option<u8>
    requires { length packet.old ≡ 36 }
    ensures { MatchOption result (packet.new ≡ packet.old) (λ hv. Encodes hv packet.new words.now) }
{
    let guess = Guess::of(words);
    if !guess.is_right(words) {
        return None;
    }
    guess.lay(packet);
    Some(guess.hv)
}

// The sync pair and the packet of an island, or the first refusal, which leaves the packet as it was lent.
pub fn read(words: &[u32], packet: &mut [u8]) -> Result<u8, Refusal>
    ensures answer { result ≡ read_answer words.now packet.old }
    ensures written { packet.new ≡ read_out words.now packet.old }
{
    let island = words.as_array().ok_or(Refusal::Length)?;
    if packet.len() == 36 {
        if let Some(hv) = known(island, packet) {
            return Ok(hv);
        }
    }
    island_reader::read(words, packet)
}
