// The line counter advanced where it lies: its 32 bits as four bytes, the low byte first.
#![tactic(auto)]

ghost use Rattle.std.specs.Prelude.{◌≡◌, [], ◌∷◌};
ghost use Rattle.laws.specs.Bytes.{bytes_of};
ghost use Rattle.refusal.specs.Verdict.{verdict, kept};
ghost use Rattle.counter.specs.Counter.{line_after};
ghost use Rattle.crossing.specs.Crossing.{told};
ghost use Rattle.crossing.specs.Timing.{timing_of};
ghost use Rattle.c_scan_out.specs.Lent.{counter_of, counter_bytes_asks};

use counter::DviTimingState;
use crossing::{Answer, Timing};
use word_bytes::{words_lent, words_told};

pub fn counter_advance_in_place(counter: &mut [u8], timing: Timing) -> Answer
    ensures answer { result ≡ told (verdict (counter_bytes_asks (timing_of timing) counter.old)) }
    ensures counter { counter.new ≡ kept (verdict (counter_bytes_asks (timing_of timing) counter.old)) (bytes_of 4 (line_after (timing_of timing) (counter_of counter.old) ∷ [])) counter.old }
{
    let mut word = [0u32; 1];
    // Where the length is wrong nothing is read, and `words_told` says so.
    let _ = words_lent(counter, &mut word);
    let mut line = DviTimingState::new(word[0]);
    let v = scan_out::advance(&mut line, timing.into());
    word[0] = line.v_ctr();
    words_told(v, &word, counter)
}
