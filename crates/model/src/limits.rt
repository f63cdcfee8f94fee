// The limits, in one place. Each has its twin in specs/Limits.antt, and the functions below tie the two: one for each, since a clause speaks
// of one function, and the list of promises names them one by one.
ghost use Rattle.std.specs.Prelude.{◌≡◌};
ghost use Rattle.model.specs.Limits.{operations, edges, kinds, longest, steps, windows, cells};

pub const OPERATIONS: usize = 64;

pub const EDGES: usize = 256;

pub const KINDS: usize = 4;

pub const LONGEST: usize = 16;

pub const STEPS: usize = 1024;

pub const WINDOWS: usize = 1000000;
// A tally has a cell for each step from 0 to the last and each type: how many that is, `cells_limit` says.
pub const CELLS: usize = (STEPS + 1) * KINDS;

// The most operations that a graph may have.
pub fn operations_limit() -> usize
    ensures { result ≡ operations }
{
    OPERATIONS
}

// The most edges that a graph may have.
pub fn edges_limit() -> usize
    ensures { result ≡ edges }
{
    EDGES
}

// The most types that a graph may have.
pub fn kinds_limit() -> usize
    ensures { result ≡ kinds }
{
    KINDS
}

// The longest delay.
pub fn longest_limit() -> usize
    ensures { result ≡ longest }
{
    LONGEST
}

// The last step, and the largest bound.
pub fn steps_limit() -> usize
    ensures { result ≡ steps }
{
    STEPS
}

// The largest product of windows that the lister takes.
pub fn windows_limit() -> usize
    ensures { result ≡ windows }
{
    WINDOWS
}

// How many counters the tally has.
pub fn cells_limit() -> usize
    ensures { result ≡ cells }
{
    CELLS
}
