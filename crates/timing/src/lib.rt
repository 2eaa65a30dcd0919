// The timing of a display mode, after timing.rs: its ranges, the control words that its polarities give, and the command words that send them.
#![tactic(auto)]

ghost use Rattle.std.specs.Prelude.{false, ◌≡◌, ◌<◌};
ghost use Rattle.dvi.specs.Control.{pair_of};
ghost use Rattle.hdmi.specs.Period.{control_word, idle, video_preamble, data_preamble};
ghost use Rattle.refusal.specs.Verdict.{verdict};
ghost use Rattle.timing.specs.Command.{command_number, command_of};
ghost use Rattle.timing.specs.Sync.{level_of, levels_for, polarity_asks, sync_word_of};
ghost use Rattle.timing.specs.Timing.{within, ranges, timing_asks, inactive, total, vga};
ghost use Rattle.timing.specs.LineState.{state_number, state_decided};

use refusal::Refusal;
use symbol::{Tmds3, TmdsSymbol};

// A display mode. Polarities are 0 (negative) or 1 (positive), the bit clock is in kilohertz. They are numbers, as C hands them in: what is neither is
// refused with 4, and `polarity_asks` speaks of it.
#[derive(Clone, Copy, Debug, PartialEq, Eq, Hash)]
pub struct DviTiming {
    pub h_front_porch: u32,
    pub h_sync_width: u32,
    pub h_back_porch: u32,
    pub h_active_pixels: u32,
    pub v_front_porch: u32,
    pub v_sync_width: u32,
    pub v_back_porch: u32,
    pub v_active_lines: u32,
    pub bit_clk: u32,
    pub h_sync_polarity: u8,
    pub v_sync_polarity: u8,
}

pub const VGA_TIMING: DviTiming = DviTiming {
    h_front_porch: 16,
    h_sync_width: 96,
    h_back_porch: 48,
    h_active_pixels: 640,
    v_front_porch: 10,
    v_sync_width: 2,
    v_back_porch: 33,
    v_active_lines: 480,
    bit_clk: 252000,
    h_sync_polarity: 0,
    v_sync_polarity: 0,
};

// The const, tied to its definition.
pub fn vga_timing() -> DviTiming
    ensures { result ≡ vga }
{
    VGA_TIMING
}

// From `low` to the most that a command word counts.
fn within(low: u32, x: u32) -> bool
    ensures { result ≡ within low x }
{
    (low..=4095).contains(&x)
}

// The expander's commands, each its number in the bits above the count.
#[derive(Clone, Copy, Debug, PartialEq, Eq)]
enum Command {
    Raw = 0,
    Repeat = 1,
}

impl Command {
    // The command word with this count.
    fn counting(self, count: u32) -> Result<u32, Refusal>
        ensures { result ≡ command_of (command_number self) count }
    {
        if within(1, count) {
            Ok(count + 0x1000 * (self as u32))
        } else {
            Err(Refusal::Unlisted)
        }
    }
}

// The next `words` words go out as they stand.
pub fn hstx_cmd_raw(words: u32) -> Result<u32, Refusal>
    ensures { result ≡ command_of 0 words }
{
    Command::Raw.counting(words)
}

// The next word goes out `times` times.
pub fn hstx_cmd_raw_repeat(times: u32) -> Result<u32, Refusal>
    ensures { result ≡ command_of 1 times }
{
    Command::Repeat.counting(times)
}

// The level of a sync line while its sync is on or off.
pub fn sync_level(positive: bool, on: bool) -> bool
    ensures { result ≡ level_of positive on }
{
    positive == on
}

// The levels of HSYNC and VSYNC at one time.
#[derive(Clone, Copy, Debug, PartialEq, Eq)]
pub struct SyncLevels {
    pub h: bool,
    pub v: bool,
}

impl SyncLevels {
    // The sync pair: the number of the control symbol with these levels on C0 and C1.
    pub fn pair(self) -> u8
        ensures { (result ≡ pair_of self.h self.v) × (result < 4) }
    {
        u8::from(self.h) + 2 * u8::from(self.v)
    }

    // A control character: HSYNC and VSYNC on lane 0, CTL0 on lane 1, CTL2 on lane 2. CTL1 and CTL3 are never high here.
    fn with_controls(self, ctl0: bool, ctl2: bool) -> Tmds3
        ensures { result.0 ≡ control_word (pair_of self.h self.v) ctl0 false ctl2 false }
    {
        let lane_0 = TmdsSymbol::control(self.h, self.v);
        let lane_1 = TmdsSymbol::control(ctl0, false);
        let lane_2 = TmdsSymbol::control(ctl2, false);
        // A sum, as the definition has it.
        Tmds3(u32::from(lane_0.0) + u32::from(lane_1.0) * 0x400 + u32::from(lane_2.0) * 0x100000)
    }

    // The control word for these levels, with nothing announced.
    pub fn control_word(self) -> Tmds3
        ensures { result.0 ≡ idle (pair_of self.h self.v) }
    {
        self.with_controls(false, false)
    }

    // The same with the preamble of video.
    pub fn video_preamble(self) -> Tmds3
        ensures { result.0 ≡ video_preamble (pair_of self.h self.v) }
    {
        self.with_controls(true, false)
    }

    // The same with the preamble of an island.
    pub fn data_preamble(self) -> Tmds3
        ensures { result.0 ≡ data_preamble (pair_of self.h self.v) }
    {
        self.with_controls(true, true)
    }
}

impl DviTiming {
    // Whether each polarity is 0 or 1.
    fn polarities(self) -> Result<(), Refusal>
        ensures { result ≡ verdict (polarity_asks self) }
    {
        if (self.h_sync_polarity < 2) & (self.v_sync_polarity < 2) {
            Ok(())
        } else {
            Err(Refusal::Unlisted)
        }
    }

    // Eight bounds, each its own, and no jump between.
    #[tactic(auto, unfolding(crate::specs::Timing::ranges))]
    fn in_ranges(self) -> bool
        ensures { result ≡ ranges self }
    {
        within(9, self.h_front_porch)
            & within(37, self.h_sync_width)
            & within(11, self.h_back_porch)
            & within(9, self.h_active_pixels)
            & within(1, self.v_front_porch)
            & within(1, self.v_sync_width)
            & within(1, self.v_back_porch)
            & within(1, self.v_active_lines)
    }

    // Whether lines can be made of the timing.
    pub fn checked(self) -> Result<(), Refusal>
        ensures { result ≡ verdict (timing_asks self) }
    {
        self.polarities()?;
        if self.in_ranges() {
            Ok(())
        } else {
            Err(Refusal::TimingRange)
        }
    }

    // The levels while horizontal and vertical sync are on or off. A polarity that is neither 0 nor 1 counts as negative.
    pub fn levels(self, h_sync: bool, v_sync: bool) -> SyncLevels
        ensures { result ≡ levels_for self h_sync v_sync }
    {
        SyncLevels {
            h: sync_level(self.h_sync_polarity == 1, h_sync),
            v: sync_level(self.v_sync_polarity == 1, v_sync),
        }
    }

    // The control word while horizontal and vertical sync are on or off.
    #[tactic(auto, unfolding(crate::specs::Sync::pair_for))]
    pub fn tmds3_for_sync(self, h_sync: bool, v_sync: bool) -> Result<Tmds3, Refusal>
        ensures { result ≡ sync_word_of self h_sync v_sync }
    {
        self.polarities()?;
        Ok(self.levels(h_sync, v_sync).control_word())
    }

    // The lines that show no pixels.
    pub fn inactive_lines(self) -> u64
        ensures { result ≡ inactive self }
    {
        u64::from(self.v_front_porch) + u64::from(self.v_sync_width) + u64::from(self.v_back_porch)
    }

    // All lines of a frame. Four numbers of 32 bits always fit.
    pub fn total_lines(self) -> u64
        ensures { result ≡ total self }
    {
        self.inactive_lines() + u64::from(self.v_active_lines)
    }
}

// What a line is to the display, in the order in which they come from the counter's 0 on.
#[derive(Clone, Copy, Debug, PartialEq, Eq, Hash)]
pub enum DviTimingLineState {
    FrontPorch = 0,
    Sync = 1,
    BackPorch = 2,
    Active = 3,
}

impl DviTimingLineState {
    // 0..3, as the line entries take it.
    pub fn number(self) -> u8
        ensures { result ≡ state_number self }
    {
        self as u8
    }
}

impl TryFrom<u8> for DviTimingLineState {
    type Error = Refusal;

    ghost try_from_gives = { state_decided };

    fn try_from(number: u8) -> Result<Self, Refusal> {
        match number {
            0 => Ok(DviTimingLineState::FrontPorch),
            1 => Ok(DviTimingLineState::Sync),
            2 => Ok(DviTimingLineState::BackPorch),
            3 => Ok(DviTimingLineState::Active),
            _ => Err(Refusal::Unlisted),
        }
    }
}
