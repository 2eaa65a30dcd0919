// Words of 32 bits that are lent as bytes, the low byte of each first.
#![tactic(auto)]

ghost use Rattle.std.specs.Prelude.{◌≡◌, ◌+◌, ◌*◌, ◌<◌, length, Ok};
ghost use Rattle.std.proofs.lemmas.List.Edits.{sets};
ghost use Rattle.laws.specs.Bytes.{low_first, bytes_of, numbers_of};
ghost use Rattle.refusal.specs.declared.Refusal.TheVariants.{Length};
ghost use Rattle.refusal.specs.Verdict.{unless, kept};
ghost use Rattle.crossing.specs.Crossing.{told};
ghost use Rattle.word_bytes.specs.Words.{four_each, words_first};

use crossing::Answer;
use refusal::Refusal;

// Four bytes for each word: another rule than a row's (crates/row) or a text's. Without a product, which might not fit.
fn four_each(bytes: usize, words: usize) -> Result<(), Refusal>
    ensures { result ≡ unless (four_each bytes words) Length (Ok tt) }
{
    if (bytes % 4 == 0) & (bytes / 4 == words) {
        Ok(())
    } else {
        Err(Refusal::Length)
    }
}

// Stores of bytes, which the compiler makes one store of a word: on the M33 a word goes in two instructions. The library's `copy_from_slice` asks at each
// whether the two overlap, and takes ten.
fn put_word(out: &mut [u8], at: usize, word: u32)
    requires { at + 3 < length out.old }
    ensures { out.new ≡ sets out.old at (low_first 4 word) }
{
    let [b0, b1, b2, b3] = word.to_le_bytes();
    out[at] = b0;
    out[at + 1] = b1;
    out[at + 2] = b2;
    out[at + 3] = b3;
}

fn put_words(words: &[u32], out: &mut [u8])
    requires { length out.old ≡ 4 * length words.now }
    ensures { out.new ≡ bytes_of 4 words.now }
{
    for i in 0..words.len() {
        put_word(out, 4 * i, words[i]);
    }
}

fn get_words(lent: &[u8], words: &mut [u32])
    requires { length lent.now ≡ 4 * length words.old }
    ensures { words.new ≡ numbers_of 4 (length words.old) lent.now }
{
    for i in 0..words.len() {
        let at = 4 * i;
        words[i] = u32::from_le_bytes([lent[at], lent[at + 1], lent[at + 2], lent[at + 3]]);
    }
}

// The words that were lent as bytes; where they aren't four for each word, nothing is read.
pub fn words_lent(lent: &[u8], words: &mut [u32]) -> Result<(), Refusal>
    ensures answer { result ≡ words_first (length words.old) lent.now (Ok tt) }
    ensures read { words.new ≡ kept (words_first (length words.old) lent.now (Ok tt)) (numbers_of 4 (length words.old) lent.now) words.old }
{
    four_each(lent.len(), words.len())?;
    get_words(lent, words);
    Ok(())
}

// What an entry over words told, said of the bytes: a wrong length comes first, and where nothing is refused the words are written.
pub fn words_told(v: Result<(), Refusal>, words: &[u32], out: &mut [u8]) -> Answer
    ensures answer { result ≡ told (words_first (length words.now) out.old v) }
    ensures written { out.new ≡ kept (words_first (length words.now) out.old v) (bytes_of 4 words.now) out.old }
{
    let told = four_each(out.len(), words.len()).and(v);
    if told.is_ok() {
        put_words(words, out);
    }
    Answer::from(told)
}
