// The face that `pedal_c` exports and the engine asks: each function hands on exactly what its entry point says, as numbers.
#![tactic(auto)]

ghost use Rattle.std.specs.Prelude.{◌≡◌, length};
ghost use Rattle.model.specs.Limits as limit;
ghost use Rattle.model.specs.Graph.{lent};
ghost use Rattle.model.specs.Answers.{AsapAnswer, AlapAnswer, MobilityAnswer};
ghost use Rattle.std.proofs.Math.Option.{none, some};
ghost use Rattle.model.specs.Verdicts.{Checked, PeakAnswer};
ghost use Rattle.model.specs.Scheduling.{ListAnswer};
ghost use Rattle.model.specs.Listing.{ListerAnswer};
ghost use Rattle.pedal.specs.Face.{HandsOn, refusal_of_or0, filled_of, PartSaid, scheduled_of, verdict_of, listed_of, peaks_of, AdvanceSaid};

use list_schedule::State;
use model::graph::Graph;
use model::limits::{KINDS, OPERATIONS};
use model::{Finding, Refusal};

// Numbers stand for refusals and findings in the structs below, and every row is lent by itself: the C interface needs it so.

// The answer of a question that fills a row.
#[repr(C)]
#[derive(Clone, Copy)]
pub struct Filled {
    pub refusal: usize,
    pub place: usize,
}

// The number and the place of the refusal, both 0 where there is none.
fn refusal_in<T: Copy>(answer: Result<T, Refusal>) -> (usize, usize)
    ensures { result ≡ refusal_of_or0 answer }
{
    match answer {
        Ok(_) => (0, 0),
        Err(why) => (why.number(), why.place()),
    }
}

impl From<Result<(), Refusal>> for Filled {
    ghost from_gives = { λ answer said. said ≡ filled_of answer };

    fn from(answer: Result<(), Refusal>) -> Filled {
        let (refusal, place) = refusal_in(answer);
        Filled { refusal, place }
    }
}

// The ASAP starts.
#[unsafe(no_mangle)]
pub extern "C" fn pedal_asap(
    delays: &[u8],
    types: &[u8],
    kinds: usize,
    from: &[u16],
    to: &[u16],
    out: &mut [u16],
) -> Filled
    ensures { HandsOn (λ a. AsapAnswer (lent delays.now types.now kinds from.now to.now) out.old a out.new) filled_of result }
{
    let graph = Graph {
        delays,
        types,
        kinds,
        from,
        to,
    };
    Filled::from(tables::asap(&graph, out))
}

// The ALAP starts within a bound.
#[unsafe(no_mangle)]
pub extern "C" fn pedal_alap(
    delays: &[u8],
    types: &[u8],
    kinds: usize,
    from: &[u16],
    to: &[u16],
    bound: usize,
    out: &mut [u16],
) -> Filled
    ensures { HandsOn (λ a. AlapAnswer (lent delays.now types.now kinds from.now to.now) bound out.old a out.new) filled_of result }
{
    let graph = Graph {
        delays,
        types,
        kinds,
        from,
        to,
    };
    Filled::from(tables::alap(&graph, bound, out))
}

// The mobility within a bound.
#[unsafe(no_mangle)]
pub extern "C" fn pedal_mobility(
    delays: &[u8],
    types: &[u8],
    kinds: usize,
    from: &[u16],
    to: &[u16],
    bound: usize,
    out: &mut [u16],
) -> Filled
    ensures { HandsOn (λ a. MobilityAnswer (lent delays.now types.now kinds from.now to.now) bound out.old a out.new) filled_of result }
{
    let graph = Graph {
        delays,
        types,
        kinds,
        from,
        to,
    };
    Filled::from(tables::mobility(&graph, bound, out))
}

// A view: where it starts in the chosen table, and how many entries it has.
#[repr(C)]
#[derive(Clone, Copy)]
pub struct Part {
    pub refusal: usize,
    pub start: usize,
    pub length: usize,
}

// A part of channel A's table (0) or B's (1), by its start and length there.
#[unsafe(no_mangle)]
pub extern "C" fn pedal_view(
    a: &[u16],
    b: &[u16],
    channel: usize,
    first: usize,
    count: usize,
) -> Part
    ensures { PartSaid a.entry b.entry channel first count result }
{
    match views::view_refusal(a, b, channel, first, count) {
        None => Part {
            refusal: 0,
            start: first,
            length: count,
        },
        Some(why) => Part {
            refusal: why.number(),
            start: 0,
            length: 0,
        },
    }
}

// The list schedule's answer.
#[repr(C)]
#[derive(Clone, Copy)]
pub struct Scheduled {
    pub refusal: usize,
    pub place: usize,
    pub latency: usize,
}

impl From<Result<usize, Refusal>> for Scheduled {
    ghost from_gives = { λ answer said. said ≡ scheduled_of answer };

    fn from(answer: Result<usize, Refusal>) -> Scheduled {
        let (refusal, place) = refusal_in(answer);
        Scheduled {
            refusal,
            place,
            latency: answer.unwrap_or(0),
        }
    }
}

// The list schedule.
#[unsafe(no_mangle)]
pub extern "C" fn pedal_list(
    delays: &[u8],
    types: &[u8],
    kinds: usize,
    from: &[u16],
    to: &[u16],
    units: &[u8],
    out: &mut [u16],
) -> Scheduled
    ensures { HandsOn (λ a. ListAnswer (lent delays.now types.now kinds from.now to.now) units.now out.old a out.new) scheduled_of result }
{
    let graph = Graph {
        delays,
        types,
        kinds,
        from,
        to,
    };
    Scheduled::from(list_schedule::list_schedule(&graph, units, out))
}

// The checker's verdict: 0 lawful, 1 untimely, 2 broken, 3 over-use, with its operation, edge, or step and type.
#[repr(C)]
#[derive(Clone, Copy)]
pub struct Verdict {
    pub refusal: usize,
    pub place: usize,
    pub finding: usize,
    pub first: usize,
    pub second: usize,
}

impl From<Result<Finding, Refusal>> for Verdict {
    ghost from_gives = { λ answer said. said ≡ verdict_of answer };

    fn from(answer: Result<Finding, Refusal>) -> Verdict {
        let (refusal, place) = refusal_in(answer);
        let (finding, first, second) = match answer {
            Ok(Finding::Untimely(operation)) => (1, operation, 0),
            Ok(Finding::Broken(edge)) => (2, edge, 0),
            Ok(Finding::OverUse(step, kind)) => (3, step, kind),
            _ => (0, 0, 0),
        };
        Verdict {
            refusal,
            place,
            finding,
            first,
            second,
        }
    }
}

// Whether a schedule is lawful, or its first fault.
#[unsafe(no_mangle)]
pub extern "C" fn pedal_check(
    delays: &[u8],
    types: &[u8],
    kinds: usize,
    from: &[u16],
    to: &[u16],
    units: &[u8],
    bound: usize,
    starts: &[u16],
) -> Verdict
    ensures { HandsOn (Checked (lent delays.now types.now kinds from.now to.now) units.now bound starts.now) verdict_of result }
{
    let graph = Graph {
        delays,
        types,
        kinds,
        from,
        to,
    };
    Verdict::from(checker::check(&graph, units, bound, starts))
}

// The lister's answer: found is 1 where a schedule was written.
#[repr(C)]
#[derive(Clone, Copy)]
pub struct Listed {
    pub refusal: usize,
    pub place: usize,
    pub found: usize,
}

impl From<Result<model::Listed, Refusal>> for Listed {
    ghost from_gives = { λ answer said. said ≡ listed_of answer };

    fn from(answer: Result<model::Listed, Refusal>) -> Listed {
        let (refusal, place) = refusal_in(answer);
        let found = match answer {
            Ok(model::Listed::Found) => 1,
            _ => 0,
        };
        Listed {
            refusal,
            place,
            found,
        }
    }
}

// The least lawful schedule.
#[unsafe(no_mangle)]
pub extern "C" fn pedal_first(
    delays: &[u8],
    types: &[u8],
    kinds: usize,
    from: &[u16],
    to: &[u16],
    units: &[u8],
    bound: usize,
    out: &mut [u16],
) -> Listed
    ensures { HandsOn (λ a. ListerAnswer (lent delays.now types.now kinds from.now to.now) units.now bound none out.old a out.new) listed_of result }
{
    let graph = Graph {
        delays,
        types,
        kinds,
        from,
        to,
    };
    Listed::from(lister::first(&graph, units, bound, out))
}

// The least lawful schedule after a row.
#[unsafe(no_mangle)]
pub extern "C" fn pedal_next(
    delays: &[u8],
    types: &[u8],
    kinds: usize,
    from: &[u16],
    to: &[u16],
    units: &[u8],
    bound: usize,
    after: &[u16],
    out: &mut [u16],
) -> Listed
    ensures { HandsOn (λ a. ListerAnswer (lent delays.now types.now kinds from.now to.now) units.now bound (some after.now) out.old a out.new) listed_of result }
{
    let graph = Graph {
        delays,
        types,
        kinds,
        from,
        to,
    };
    Listed::from(lister::next(&graph, units, bound, after, out))
}

// Peak use: for each type the most operations running at any one step.
#[repr(C)]
#[derive(Clone, Copy)]
pub struct Peaks {
    pub refusal: usize,
    pub place: usize,
    pub peak0: usize,
    pub peak1: usize,
    pub peak2: usize,
    pub peak3: usize,
}

impl From<Result<[usize; KINDS], Refusal>> for Peaks {
    ghost from_gives = { λ answer said. said ≡ peaks_of answer };

    fn from(answer: Result<[usize; KINDS], Refusal>) -> Peaks {
        let (refusal, place) = refusal_in(answer);
        let counts = answer.unwrap_or([0; KINDS]);
        Peaks {
            refusal,
            place,
            peak0: counts[0],
            peak1: counts[1],
            peak2: counts[2],
            peak3: counts[3],
        }
    }
}

// Peak use of any row of starts.
#[unsafe(no_mangle)]
pub extern "C" fn pedal_peak(
    delays: &[u8],
    types: &[u8],
    kinds: usize,
    from: &[u16],
    to: &[u16],
    starts: &[u16],
) -> Peaks
    ensures { HandsOn (PeakAnswer (lent delays.now types.now kinds from.now to.now) starts.now) peaks_of result }
{
    let graph = Graph {
        delays,
        types,
        kinds,
        from,
        to,
    };
    Peaks::from(peak_use::peak_use(&graph, starts))
}

// The advance's answer, and the step that the state now has.
#[repr(C)]
#[derive(Clone, Copy)]
pub struct Advanced {
    pub refusal: usize,
    pub place: usize,
    pub step: usize,
}

// One step of the list schedule: the state's starts are changed in place. A row of another length is no state: refusal 2, or 1 before it.
#[unsafe(no_mangle)]
pub extern "C" fn pedal_advance(
    delays: &[u8],
    types: &[u8],
    kinds: usize,
    from: &[u16],
    to: &[u16],
    units: &[u8],
    step: usize,
    starts: &mut [u16],
) -> Advanced
    ensures { AdvanceSaid (lent delays.now types.now kinds from.now to.now) units.now starts.old step result starts.new }
{
    let graph = Graph {
        delays,
        types,
        kinds,
        from,
        to,
    };
    if starts.len() != OPERATIONS {
        let (refusal, place) = refusal_in(admission::graph(&graph, false));
        return Advanced {
            refusal,
            place,
            step,
        };
    }
    let mut state = State {
        step,
        starts: [0; OPERATIONS],
    };
    state.starts.copy_from_slice(starts);
    let (refusal, place) = refusal_in(state.advance(&graph, units));
    starts.copy_from_slice(&state.starts);
    Advanced {
        refusal,
        place,
        step: state.step,
    }
}
