// A timing, its control word and the command words, on numbers.
#![tactic(auto)]

ghost use Rattle.std.specs.Prelude.{◌≡◌};
ghost use Rattle.refusal.specs.Verdict.{verdict};
ghost use Rattle.timing.specs.Command.{command_of};
ghost use Rattle.timing.specs.Sync.{sync_word_of};
ghost use Rattle.timing.specs.Timing.{timing_asks, vga};
ghost use Rattle.crossing.specs.Crossing.{told};
ghost use Rattle.crossing.specs.Timing.{timing_of, crossing, is_on};
ghost use Rattle.c_timing.specs.Crossing.{commanded, synced};

use crossing::{Answer, Timing, is_on};
use symbol::Tmds3;
use timing::DviTiming;

pub fn vga_timing() -> Timing
    ensures { result ≡ crossing vga }
{
    timing::vga_timing().into()
}

pub fn check_timing(timing: Timing) -> Answer
    ensures { result ≡ told (verdict (timing_asks (timing_of timing))) }
{
    DviTiming::from(timing).checked().into()
}

pub fn tmds3_for_sync(timing: Timing, h_sync: u8, v_sync: u8) -> Answer
    ensures { result ≡ synced (sync_word_of (timing_of timing) (is_on h_sync) (is_on v_sync)) }
{
    DviTiming::from(timing)
        .tmds3_for_sync(is_on(h_sync), is_on(v_sync))
        .map(Tmds3::raw)
        .into()
}

pub fn hstx_cmd_raw(words: u32) -> Answer
    ensures { result ≡ commanded (command_of 0 words) }
{
    timing::hstx_cmd_raw(words).into()
}

pub fn hstx_cmd_raw_repeat(times: u32) -> Answer
    ensures { result ≡ commanded (command_of 1 times) }
{
    timing::hstx_cmd_raw_repeat(times).into()
}
