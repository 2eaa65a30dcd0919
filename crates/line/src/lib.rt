// The words of a line for the command expander, after timing.rs: blanking with a sync pulse, a line with no pixels, blanking with an island.
#![tactic(auto)]

ghost use Rattle.std.specs.Prelude.{true, false, ◌≡◌, ◌<◌, length, replicate, Ok};
ghost use Rattle.hdmi.specs.Island.{island};
ghost use Rattle.hdmi.specs.Period.{video_preamble, data_preamble};
ghost use Rattle.refusal.specs.Verdict.{verdict, kept};
ghost use Rattle.timing.specs.Sync.{pair_for, sync_for};
ghost use Rattle.timing.specs.LineState.{state_number};
ghost use Rattle.timing.specs.Timing.{timing_asks};
ghost use Rattle.line.specs.Asks.{line_asks, state_asks, island_asks, Ready};
ghost use Rattle.line.specs.Line.{pulse_words, only_words, v_sync, lead, init_line, encode_line};
ghost use Rattle.line.specs.Words.{framed};

use refusal::Refusal;
use timing::{DviTiming, DviTimingLineState};

pub const SYNC_LINE_WORDS: usize = 15;

pub const SYNC_LINE_ONLY_WORDS: usize = 11;

pub const SYNC_DATA_ISLAND_LEN: usize = 56;

// The expander's command that repeats a word.
const REPEAT: u32 = 0x1000;

const VIDEO_GUARD: u32 = 0x2cc4cecc;

// What the entries ask before they write. Each sub-answer is taken apart by `let .. else`, and a refusal goes upward unchanged: a rule of the project names
// the form for the line builder (docs/DECISIONS.md).

// Of the arguments of an island line behind their lengths: the state of the line, where its words can be written.
fn island_ready(t: DviTiming, state: u8) -> Result<DviTimingLineState, Refusal>
    ensures { Ready (verdict (state_asks t state)) state result }
{
    let decided = DviTimingLineState::try_from(state);
    let Ok(_) = decided else {
        return decided;
    };
    let Err(refusal) = t.checked() else {
        return decided;
    };
    Err(refusal)
}

fn v_sync(state: DviTimingLineState) -> bool
    ensures { result ≡ v_sync (state_number state) }
{
    state == DviTimingLineState::Sync
}

// The control word, and the two preambles, which stand outside horizontal sync: a function for each, as each has its own definition in specs/Line.antt.
#[tactic(auto, unfolding(timing::specs::Sync::pair_for))]
fn sync_word(t: DviTiming, h_sync: bool, v_sync: bool) -> u32
    ensures { result ≡ sync_for t h_sync v_sync }
{
    t.levels(h_sync, v_sync).control_word().raw()
}

#[tactic(auto, unfolding(timing::specs::Sync::pair_for))]
fn video_word(t: DviTiming, v_sync: bool) -> u32
    ensures { result ≡ video_preamble (pair_for t false v_sync) }
{
    t.levels(false, v_sync).video_preamble().raw()
}

#[tactic(auto, unfolding(timing::specs::Sync::pair_for))]
fn data_word(t: DviTiming, v_sync: bool) -> u32
    ensures { result ≡ data_preamble (pair_for t false v_sync) }
{
    t.levels(false, v_sync).data_preamble().raw()
}

// The sync pair of an island, which lies within horizontal sync.
#[tactic(auto, unfolding(timing::specs::Sync::pair_for))]
fn island_pair(t: DviTiming, v_sync: bool) -> u8
    ensures { (result ≡ pair_for t true v_sync) × (result < 4) }
{
    t.levels(true, v_sync).pair()
}

// That the timing is fine is asked of these three by a clause and not put in a type: each is called once, behind the answer that says so.
fn pulse_words(t: DviTiming, v_sync: bool, line: &mut [u32; SYNC_LINE_WORDS])
    requires { verdict (timing_asks t) ≡ Ok tt }
    ensures { line.new ≡ pulse_words t v_sync }
{
    line.fill(sync_word(t, false, v_sync));
    line[0] = t.h_front_porch + REPEAT;
    line[2] = t.h_sync_width + REPEAT;
    line[3] = sync_word(t, true, v_sync);
    line[4] = t.h_back_porch - 8 + REPEAT;
    line[6] = 8;
}

fn only_words(t: DviTiming, v_sync: bool, line: &mut [u32; SYNC_LINE_ONLY_WORDS])
    requires { verdict (timing_asks t) ≡ Ok tt }
    ensures { line.new ≡ only_words t v_sync }
{
    line.fill(sync_word(t, false, v_sync));
    line[0] = t.h_active_pixels - 8 + REPEAT;
    line[2] = 8;
}

fn init_words(t: DviTiming, line: &mut [u32; SYNC_DATA_ISLAND_LEN])
    requires { verdict (timing_asks t) ≡ Ok tt }
    ensures { line.new ≡ init_line t line.old }
{
    line[0] = t.h_front_porch - 8 + REPEAT;
    line[2] = 8 + REPEAT;
    line[4] = 36;
    line[41] = t.h_sync_width - 36 + REPEAT;
    line[43] = t.h_back_porch - 10 + REPEAT;
    line[45] = 10;
}

// The last ten words of an island line. A part of the line, so a slice: as an array it would be split off and asked for its length again.
fn lead_words(t: DviTiming, state: DviTimingLineState, line: &mut [u32])
    requires { length line.old ≡ 10 }
    ensures { line.new ≡ lead t (state_number state) }
{
    if state == DviTimingLineState::Active {
        line.fill(video_word(t, false));
        line[8] = VIDEO_GUARD;
        line[9] = VIDEO_GUARD;
    } else {
        line.fill(sync_word(t, false, v_sync(state)));
    }
}

// The control words of an island line.
fn frame_words(t: DviTiming, state: DviTimingLineState, line: &mut [u32; SYNC_DATA_ISLAND_LEN])
    ensures { line.new ≡ framed t (state_number state) line.old }
{
    let on = v_sync(state);
    let off = sync_word(t, false, on);
    line[1] = off;
    line[3] = data_word(t, on);
    line[42] = sync_word(t, true, on);
    line[44] = off;
    lead_words(t, state, &mut line[46..56]);
}

// Everything of an island line but its command words.
fn encode_words(
    t: DviTiming,
    line: &mut [u32; SYNC_DATA_ISLAND_LEN],
    state: DviTimingLineState,
    packet: &[u8; 36],
) -> Result<(), Refusal>
    ensures { (result ≡ Ok tt) × (line.new ≡ encode_line t (state_number state) packet.now line.old) }
{
    let v = island::encode(island_pair(t, v_sync(state)), packet, &mut line[5..41]);
    let Ok(()) = v else {
        return v;
    };
    frame_words(t, state, line);
    v
}

// The words of an island of 36 zero bytes: its guard word, its first character, and each of the other 31.
#[derive(Clone, Copy)]
struct EmptyIsland {
    guard: u32,
    first: u32,
    later: u32,
}

// By sync pair.
static EMPTY: [EmptyIsland; 4] = [
    EmptyIsland {
        guard: 0x1334ce8e,
        first: 0x29ca729c,
        later: 0x29ca72cc,
    },
    EmptyIsland {
        guard: 0x1334ce71,
        first: 0x29ca7263,
        later: 0x29ca7139,
    },
    EmptyIsland {
        guard: 0x1334cd63,
        first: 0x29ca72e4,
        later: 0x29ca719c,
    },
    EmptyIsland {
        guard: 0x1334cec3,
        first: 0x29ca72e2,
        later: 0x29ca72c6,
    },
];

// The pair is a number, as `island::encode` takes it.
fn empty_island(hv: u8, words: &mut [u32])
    requires { (hv < 4) × (length words.old ≡ 36) }
    ensures { words.new ≡ island hv (replicate 36 0) }
{
    let empty = EMPTY[usize::from(hv)];
    words.fill(empty.later);
    words[0] = empty.guard;
    words[1] = empty.guard;
    words[2] = empty.first;
    words[34] = empty.guard;
    words[35] = empty.guard;
}

// The same as `encode_words` does with zeros, without a packet to take apart, which is most of the work.
fn empty_words(t: DviTiming, line: &mut [u32; SYNC_DATA_ISLAND_LEN], state: DviTimingLineState)
    ensures { line.new ≡ encode_line t (state_number state) (replicate 36 0) line.old }
{
    empty_island(island_pair(t, v_sync(state)), &mut line[5..41]);
    frame_words(t, state, line);
}

// Blanking with a sync pulse, in 15 words.
pub fn make_sync_pulse(timing: DviTiming, v_sync: bool, line: &mut [u32]) -> Result<(), Refusal>
    ensures answer { result ≡ verdict (line_asks timing (length line.old) 15) }
    ensures words { line.new ≡ kept (verdict (line_asks timing (length line.old) 15)) (pulse_words timing v_sync) line.old }
{
    let Some(line) = line.as_mut_array() else {
        return Err(Refusal::Length);
    };
    let v = timing.checked();
    let Ok(()) = v else {
        return v;
    };
    pulse_words(timing, v_sync, line);
    v
}

// As long as the active pixels, with none, in 11 words.
pub fn make_sync_line_only(timing: DviTiming, v_sync: bool, line: &mut [u32]) -> Result<(), Refusal>
    ensures answer { result ≡ verdict (line_asks timing (length line.old) 11) }
    ensures words { line.new ≡ kept (verdict (line_asks timing (length line.old) 11)) (only_words timing v_sync) line.old }
{
    let Some(line) = line.as_mut_array() else {
        return Err(Refusal::Length);
    };
    let v = timing.checked();
    let Ok(()) = v else {
        return v;
    };
    only_words(timing, v_sync, line);
    v
}

// Words 0, 2, 4, 41, 43 and 45 of an island line of 56, and no others.
pub fn init_data_island(timing: DviTiming, line: &mut [u32]) -> Result<(), Refusal>
    ensures answer { result ≡ verdict (line_asks timing (length line.old) 56) }
    ensures words { line.new ≡ kept (verdict (line_asks timing (length line.old) 56)) (init_line timing line.old) line.old }
{
    let Some(line) = line.as_mut_array() else {
        return Err(Refusal::Length);
    };
    let v = timing.checked();
    let Ok(()) = v else {
        return v;
    };
    init_words(timing, line);
    v
}

// The other 50 words, and no others.
pub fn encode_data_island(
    timing: DviTiming,
    line: &mut [u32],
    state: u8,
    packet: &[u8],
) -> Result<(), Refusal>
    ensures answer { result ≡ verdict (island_asks timing (length line.old) (length packet.now) state) }
    ensures words { line.new ≡ kept (verdict (island_asks timing (length line.old) (length packet.now) state)) (encode_line timing state packet.now line.old) line.old }
{
    let Some(line) = line.as_mut_array() else {
        return Err(Refusal::Length);
    };
    let Some(packet) = packet.as_array() else {
        return Err(Refusal::Length);
    };
    let ready = island_ready(timing, state);
    let Ok(state) = ready else {
        return ready.map(|_| ());
    };
    encode_words(timing, line, state, packet)
}

// The same as with a packet of 36 zeros.
pub fn encode_data_island_empty(
    timing: DviTiming,
    line: &mut [u32],
    state: u8,
) -> Result<(), Refusal>
    ensures answer { result ≡ verdict (island_asks timing (length line.old) 36 state) }
    ensures words { line.new ≡ kept (verdict (island_asks timing (length line.old) 36 state)) (encode_line timing state (replicate 36 0) line.old) line.old }
{
    let Some(line) = line.as_mut_array() else {
        return Err(Refusal::Length);
    };
    let ready = island_ready(timing, state);
    let Ok(state) = ready else {
        return ready.map(|_| ());
    };
    empty_words(timing, line, state);
    Ok(())
}
