// What every question is made of: the limits, the rows that are lent, and the types of answers. What they mean is in specs/.
#![tactic(auto)]

pub mod graph;
pub mod limits;
pub mod order;
pub mod work;

ghost use Rattle.std.specs.Prelude.{◌≡◌};
ghost use Rattle.model.specs.Answers.{numbered};

// Why a question is refused, in the order in which the reasons are looked for.
#[derive(Clone, Copy)]
pub enum Refusal {
    TooLarge,
    Uneven,
    Operation(usize),
    Edge(usize),
    ShortOutput,
    NoUnit(usize),
    Cycle(usize),
    BoundTooLarge,
    BoundTooSmall,
    TooManyWindows,
    Step,
    Channel,
    Range,
}

impl Refusal {
    // Its number in the table of refusals: a match, since a reason that carries a place has no cast.
    pub fn number(self) -> usize
        ensures { result ≡ (numbered self).0 }
    {
        match self {
            Refusal::TooLarge => 1,
            Refusal::Uneven => 2,
            Refusal::Operation(_) => 3,
            Refusal::Edge(_) => 4,
            Refusal::ShortOutput => 5,
            Refusal::NoUnit(_) => 6,
            Refusal::Cycle(_) => 7,
            Refusal::BoundTooLarge => 8,
            Refusal::BoundTooSmall => 9,
            Refusal::TooManyWindows => 10,
            Refusal::Step => 11,
            Refusal::Channel => 12,
            Refusal::Range => 13,
        }
    }

    // Its place there: the operation, edge or type at fault, or the cycle's length; 0 where there is none, as `numbered` and the C interface say.
    pub fn place(self) -> usize
        ensures { result ≡ (numbered self).1 }
    {
        match self {
            Refusal::TooLarge => 0,
            Refusal::Uneven => 0,
            Refusal::Operation(i) => i,
            Refusal::Edge(e) => e,
            Refusal::ShortOutput => 0,
            Refusal::NoUnit(k) => k,
            Refusal::Cycle(n) => n,
            Refusal::BoundTooLarge => 0,
            Refusal::BoundTooSmall => 0,
            Refusal::TooManyWindows => 0,
            Refusal::Step => 0,
            Refusal::Channel => 0,
            Refusal::Range => 0,
        }
    }
}

// What the checker finds in a schedule: lawful; a start of 0 or a finish past the bound, with its operation; a broken edge, with its number;
// over-use, with its step and type.
#[derive(Clone, Copy)]
pub enum Finding {
    Lawful,
    Untimely(usize),
    Broken(usize),
    OverUse(usize, usize),
}

// What the lister finds: a schedule, or that none is left.
#[derive(Clone, Copy)]
pub enum Listed {
    Found,
    NoneLeft,
}
