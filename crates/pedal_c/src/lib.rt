// The face for C: the ten functions of `pedal`, exported under the same names, each with the same contract. A static library cannot be
// depended on, so the engine calls `pedal`, and C calls these.
#![tactic(auto)]

ghost use Rattle.model.specs.Graph.{lent};
ghost use Rattle.model.specs.Answers.{AsapAnswer, AlapAnswer, MobilityAnswer};
ghost use Rattle.std.proofs.Math.Option.{none, some};
ghost use Rattle.model.specs.Verdicts.{Checked, PeakAnswer};
ghost use Rattle.model.specs.Scheduling.{ListAnswer};
ghost use Rattle.model.specs.Listing.{ListerAnswer};
ghost use Rattle.pedal.specs.Face.{HandsOn, filled_of, PartSaid, scheduled_of, verdict_of, listed_of, peaks_of, AdvanceSaid};

use pedal::{Advanced, Filled, Listed, Part, Peaks, Scheduled, Verdict};

// The ASAP starts.
#[unsafe(no_mangle)]
pub extern "C" fn pedal_asap(
    delays: &[u8],
    types: &[u8],
    kinds: usize,
    from: &[u16],
    to: &[u16],
    out: &mut [u16],
) -> Filled
    ensures { HandsOn (λ a. AsapAnswer (lent delays.now types.now kinds from.now to.now) out.old a out.new) filled_of result }
{
    pedal::pedal_asap(delays, types, kinds, from, to, out)
}

// The ALAP starts within a bound.
#[unsafe(no_mangle)]
pub extern "C" fn pedal_alap(
    delays: &[u8],
    types: &[u8],
    kinds: usize,
    from: &[u16],
    to: &[u16],
    bound: usize,
    out: &mut [u16],
) -> Filled
    ensures { HandsOn (λ a. AlapAnswer (lent delays.now types.now kinds from.now to.now) bound out.old a out.new) filled_of result }
{
    pedal::pedal_alap(delays, types, kinds, from, to, bound, out)
}

// The mobility within a bound.
#[unsafe(no_mangle)]
pub extern "C" fn pedal_mobility(
    delays: &[u8],
    types: &[u8],
    kinds: usize,
    from: &[u16],
    to: &[u16],
    bound: usize,
    out: &mut [u16],
) -> Filled
    ensures { HandsOn (λ a. MobilityAnswer (lent delays.now types.now kinds from.now to.now) bound out.old a out.new) filled_of result }
{
    pedal::pedal_mobility(delays, types, kinds, from, to, bound, out)
}

// A part of channel A's table (0) or B's (1), by its start and length there.
#[unsafe(no_mangle)]
pub extern "C" fn pedal_view(
    a: &[u16],
    b: &[u16],
    channel: usize,
    first: usize,
    count: usize,
) -> Part
    ensures { PartSaid a.entry b.entry channel first count result }
{
    pedal::pedal_view(a, b, channel, first, count)
}

// The list schedule.
#[unsafe(no_mangle)]
pub extern "C" fn pedal_list(
    delays: &[u8],
    types: &[u8],
    kinds: usize,
    from: &[u16],
    to: &[u16],
    units: &[u8],
    out: &mut [u16],
) -> Scheduled
    ensures { HandsOn (λ a. ListAnswer (lent delays.now types.now kinds from.now to.now) units.now out.old a out.new) scheduled_of result }
{
    pedal::pedal_list(delays, types, kinds, from, to, units, out)
}

// Whether a schedule is lawful, or its first fault.
#[unsafe(no_mangle)]
pub extern "C" fn pedal_check(
    delays: &[u8],
    types: &[u8],
    kinds: usize,
    from: &[u16],
    to: &[u16],
    units: &[u8],
    bound: usize,
    starts: &[u16],
) -> Verdict
    ensures { HandsOn (Checked (lent delays.now types.now kinds from.now to.now) units.now bound starts.now) verdict_of result }
{
    pedal::pedal_check(delays, types, kinds, from, to, units, bound, starts)
}

// The least lawful schedule.
#[unsafe(no_mangle)]
pub extern "C" fn pedal_first(
    delays: &[u8],
    types: &[u8],
    kinds: usize,
    from: &[u16],
    to: &[u16],
    units: &[u8],
    bound: usize,
    out: &mut [u16],
) -> Listed
    ensures { HandsOn (λ a. ListerAnswer (lent delays.now types.now kinds from.now to.now) units.now bound none out.old a out.new) listed_of result }
{
    pedal::pedal_first(delays, types, kinds, from, to, units, bound, out)
}

// The least lawful schedule after a row.
#[unsafe(no_mangle)]
pub extern "C" fn pedal_next(
    delays: &[u8],
    types: &[u8],
    kinds: usize,
    from: &[u16],
    to: &[u16],
    units: &[u8],
    bound: usize,
    after: &[u16],
    out: &mut [u16],
) -> Listed
    ensures { HandsOn (λ a. ListerAnswer (lent delays.now types.now kinds from.now to.now) units.now bound (some after.now) out.old a out.new) listed_of result }
{
    pedal::pedal_next(delays, types, kinds, from, to, units, bound, after, out)
}

// Peak use of any row of starts.
#[unsafe(no_mangle)]
pub extern "C" fn pedal_peak(
    delays: &[u8],
    types: &[u8],
    kinds: usize,
    from: &[u16],
    to: &[u16],
    starts: &[u16],
) -> Peaks
    ensures { HandsOn (PeakAnswer (lent delays.now types.now kinds from.now to.now) starts.now) peaks_of result }
{
    pedal::pedal_peak(delays, types, kinds, from, to, starts)
}

// One step of the list schedule: the state's starts are changed in place. A row of another length is no state: refusal 2, or 1 before it.
#[unsafe(no_mangle)]
pub extern "C" fn pedal_advance(
    delays: &[u8],
    types: &[u8],
    kinds: usize,
    from: &[u16],
    to: &[u16],
    units: &[u8],
    step: usize,
    starts: &mut [u16],
) -> Advanced
    ensures { AdvanceSaid (lent delays.now types.now kinds from.now to.now) units.now starts.old step result starts.new }
{
    pedal::pedal_advance(delays, types, kinds, from, to, units, step, starts)
}
