// The fields of a vector, and its runs of codes.
ghost use Rattle.std.specs.Prelude.{◌≡◌, ◌+◌, ◌≤◌, length};

// Where the runs begin, and the most of them.
const RUNS: usize = 48;

const RUNS_MAX: usize = 36;

// A run is how often, and which code.
type Run = [u8; 4];

fn count(runs: u8) -> usize
    ensures { result ≤ RUNS_MAX }
{
    usize::from(runs).min(RUNS_MAX)
}

fn pair_at(v: &[u8], at: usize) -> u16
    requires { at + 2 ≤ length v.now }
{
    u16::from_be_bytes([v[at], v[at + 1]])
}

// How many bytes are lent to the call.
pub fn room(v: &[u8; 192]) -> usize {
    usize::from(pair_at(v, 46))
}

// Stores the codes of some runs from an index on, and answers the index behind them; none if they don't fit.
fn put_runs(runs: &[Run], codes: &mut [u16], start: usize) -> Option<usize>
    ensures { length codes.new ≡ length codes.old }
{
    let mut at = start;
    for run in runs {
        let end = at.checked_add(usize::from(pair_at(run, 0)))?;
        codes.get_mut(at..end)?.fill(pair_at(run, 2));
        at = end;
    }
    Some(at)
}

// Stores the codes of the vector, and answers how many they are; none if they don't fit.
pub fn expand(v: &[u8; 192], codes: &mut [u16]) -> Option<usize>
    ensures { length codes.new ≡ length codes.old }
{
    let (runs, _) = v[RUNS..].as_chunks::<4>();
    let block = count(v[42]);
    let mut at = 0;
    for _ in 0..pair_at(v, 44) {
        at = put_runs(&runs[..block], codes, at)?;
    }
    put_runs(runs.get(block..count(v[41])).unwrap_or(&[]), codes, at)
}
