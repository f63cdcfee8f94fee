// How many operations are running: one count, for those that are placed so far and for all.
#![tactic(auto)]

ghost use Rattle.std.specs.Prelude.{◌≡◌, ◌+◌, ◌≤◌, length};
ghost use Rattle.theory.specs.unit_use.RunningInNumbers.{runs_for};
ghost use Rattle.unit_use.specs.FirstInUse.{first_in_use};

// Whether an operation of type `own` that starts at `start` and keeps its unit for `busy` steps is of type `kind` and running at `step`.
fn runs(own: u8, start: u16, busy: u8, kind: u8, step: u16) -> bool
    ensures { result ≡ runs_for own start (start + busy) kind step }
{
    own == kind && start <= step && (step as usize) < start as usize + busy as usize
}

// How many of the first `first` operations are of type `kind` and running at `step`. The rows are lent by themselves: peak use has no `Work`.
// Three rows are read at one place: a chain of zips and a count of it is no plainer.
pub fn in_use(busy: &[u8], types: &[u8], starts: &[u16], kind: u8, step: u16, first: usize) -> usize
    requires { (first ≤ length busy.now) × (first ≤ length types.now) × (first ≤ length starts.now) }
    ensures { result ≡ first_in_use busy.now types.now starts.now kind step first }
{
    let mut count = 0;
    for i in 0..first {
        if runs(types[i], starts[i], busy[i], kind, step) {
            count += 1;
        }
    }
    count
}
