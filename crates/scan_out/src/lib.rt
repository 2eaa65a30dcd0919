// The line counter advanced where it lies, for the loop that sends lines.
#![tactic(auto)]

ghost use Rattle.std.specs.Prelude.{◌≡◌};
ghost use Rattle.refusal.specs.Verdict.{verdict};
ghost use Rattle.counter.specs.Counter.{counter_asks};
ghost use Rattle.scan_out.specs.Stepped.{counter_after};

use counter::DviTimingState;
use refusal::Refusal;
use timing::DviTiming;

// Refused, the counter is left as it is.
pub fn advance(state: &mut DviTimingState, timing: DviTiming) -> Result<(), Refusal>
    ensures { (state.new ≡ counter_after timing state.old) × (result ≡ verdict (counter_asks timing state.old.v_ctr)) }
{
    *state = state.advance(timing)?;
    Ok(())
}
