// The line counter of timing.rs. It goes in by value and the next one comes back; a refused call hands it back as it came.
#![tactic(auto)]

ghost use Rattle.std.specs.Prelude.{◌≡◌, Ok, Err};
ghost use Rattle.refusal.specs.Verdict.{verdict, answered, handed_back};
ghost use Rattle.timing.specs.LineState.{state_at};
ghost use Rattle.counter.specs.Counter.{counter_asks, line_after, advance_of, v_state_of, row_at, scanline_of};

use refusal::{Refusal, Refused};
use timing::{DviTiming, DviTimingLineState};

// The line that is sent now.
#[derive(Clone, Copy, Debug, PartialEq, Eq, Hash)]
pub struct DviTimingState {
    pub v_ctr: u32,
}

// One on, and from the last line back to the first.
fn line_after(t: DviTiming, line: u32) -> u32
    requires { verdict (counter_asks t line) ≡ Ok tt }
    ensures { result ≡ line_after t line }
{
    if u64::from(line) + 1 == t.total_lines() {
        0
    } else {
        line + 1
    }
}

// Of any line, since a row is asked of the line `offset` on: so these take a line and no counter.
#[tactic(auto, unfolding(timing::specs::LineState::state_at))]
fn state_at(t: DviTiming, line: u32) -> DviTimingLineState
    ensures { result ≡ state_at t line }
{
    if line < t.v_front_porch {
        return DviTimingLineState::FrontPorch;
    }
    if u64::from(line) < u64::from(t.v_front_porch) + u64::from(t.v_sync_width) {
        return DviTimingLineState::Sync;
    }
    if u64::from(line) < t.inactive_lines() {
        return DviTimingLineState::BackPorch;
    }
    DviTimingLineState::Active
}

#[tactic(auto, unfolding(crate::specs::Counter::row_at))]
fn row_at(t: DviTiming, line: u32) -> Option<u32>
    ensures { result ≡ row_at t line }
{
    let y = u64::from(line);
    let inactive = t.inactive_lines();
    if (inactive <= y) & (y < t.total_lines()) {
        Some((y - inactive) as u32)
    } else {
        None
    }
}

impl DviTimingState {
    // Any number is taken; what is no line of the timing is refused where a timing is at hand.
    pub fn new(init_value: u32) -> Self
        ensures { result.v_ctr ≡ init_value }
    {
        Self { v_ctr: init_value }
    }

    pub fn v_ctr(self) -> u32
        ensures { result ≡ self.v_ctr }
    {
        self.v_ctr
    }

    // Whether the timing is fine, and the counter one of its lines.
    fn counted(self, t: DviTiming) -> Result<(), Refused<Self>>
        ensures { result ≡ answered (verdict (counter_asks t self.v_ctr)) (Ok tt) (λ r. Err (handed_back self r)) }
    {
        t.checked().map_err(|r| r.handing_back(self))?;
        if u64::from(self.v_ctr) < t.total_lines() {
            Ok(())
        } else {
            Err(Refusal::LineCounter.handing_back(self))
        }
    }

    pub fn advance(self, timing: DviTiming) -> Result<Self, Refused<Self>>
        ensures { result ≡ advance_of timing self }
    {
        self.counted(timing)?;
        Ok(Self::new(line_after(timing, self.v_ctr)))
    }

    pub fn v_state(self, timing: DviTiming) -> Result<DviTimingLineState, Refused<Self>>
        ensures { result ≡ v_state_of timing self }
    {
        self.counted(timing)?;
        Ok(state_at(timing, self.v_ctr))
    }

    // The row of pixels that the line `offset` lines on shows. It doesn't wrap into the next frame.
    pub fn v_scanline_index(
        self,
        timing: DviTiming,
        offset: u32,
    ) -> Result<Option<u32>, Refused<Self>>
        ensures { result ≡ scanline_of timing self offset }
    {
        self.counted(timing)?;
        let line = self
            .v_ctr
            .checked_add(offset)
            .ok_or(Refusal::LineOffset.handing_back(self))?;
        Ok(row_at(timing, line))
    }
}
