// The line counter on numbers. The carry of an answer has the counter's 32 bits.
#![tactic(auto)]

ghost use Rattle.std.specs.Prelude.{◌≡◌};
ghost use Rattle.counter.specs.Counter.{counter_at, advance_of, v_state_of, scanline_of};
ghost use Rattle.crossing.specs.Crossing.{carried_by};
ghost use Rattle.crossing.specs.Timing.{timing_of};
ghost use Rattle.c_counter.specs.Crossing.{carried, advanced, stated, row_number, shown};

use counter::DviTimingState;
use crossing::{Answer, Carried, Timing, signed_32};
use refusal::Refused;

// The value of an answer, carried with this counter.
fn carrying(s: DviTimingState, value: u32) -> Carried
    ensures { result ≡ record { value = value; carry = carried s } }
{
    Carried {
        value,
        carry: signed_32(s.v_ctr),
    }
}

// What crosses of a call on the counter: its value and the counter, or its refusal and the counter that it hands back.
fn crossed(a: Result<Carried, Refused<DviTimingState>>) -> Answer
    ensures { result ≡ carried_by (λ c. c.value) (λ c. c.carry) carried a }
{
    a.map_err(|e| e.refusal.handing_back(signed_32(e.back.v_ctr)))
        .into()
}

pub fn counter_advance(counter: u32, timing: Timing) -> Answer
    ensures { result ≡ advanced (advance_of (timing_of timing) (counter_at counter)) }
{
    let sent = DviTimingState::new(counter);
    crossed(sent.advance(timing.into()).map(|next| carrying(next, 0)))
}

pub fn counter_state(counter: u32, timing: Timing) -> Answer
    ensures { result ≡ stated (counter_at counter) (v_state_of (timing_of timing) (counter_at counter)) }
{
    let line = DviTimingState::new(counter);
    crossed(
        line.v_state(timing.into())
            .map(|state| carrying(line, u32::from(state.number()))),
    )
}

// The row's number, or the one that stands for none, since C has no Option.
fn row_number(row: Option<u32>) -> u32
    ensures { result ≡ row_number row }
{
    row.unwrap_or(u32::MAX)
}

pub fn counter_row(counter: u32, timing: Timing, offset: u32) -> Answer
    ensures { result ≡ shown (counter_at counter) (scanline_of (timing_of timing) (counter_at counter) offset) }
{
    let from = DviTimingState::new(counter);
    crossed(
        from.v_scanline_index(timing.into(), offset)
            .map(|row| carrying(from, row_number(row))),
    )
}
