// The visit of the pool check: for each entry, depth first, a function's total and the largest total among its callees ask for each other.

#![tactic(auto)]

ghost use Rattle.std.specs.Prelude.{◌≡◌, ◌<◌, get_or};
ghost use Rattle.program.specs.Seat.{seat_of};
ghost use Rattle.visit.specs.Visit.{visit_of};
ghost use Rattle.visit.specs.Cells.{graph_of, row_at, entry_rows};
ghost use Rattle.visit.specs.Marks.{Kept, Visits, Walks, AtRest, Meets};

// Why there is no total: 21, with the row of the callee still open; 20, with the row of the function that closed above the pool and its total.
#[derive(Clone, Copy, PartialEq, Eq, Debug)]
pub enum Overrun {
    Cycle(usize),
    Over(usize, u16),
}

// The colours of a function, numbers since 01 asks for an array of bytes.
const NOT_YET_OPEN: u8 = 0;

const OPEN: u8 = 1;

const CLOSED: u8 = 2;

// A colour and a total for each of the 128 functions: 01 asks that they travel by value, into a visit and out of it.
#[derive(Drop)]
pub struct State {
    pub colours: [u8; 128],
    pub totals: [u16; 128],
}

// What a visit reads: the callees of each function in 128 cells of its own, its weight, and the pool.
#[derive(Clone, Copy)]
pub struct CallGraph<'a> {
    pub cells: &'a [u8],
    pub weights: &'a [u16],
    pub pool: u16,
}

// The total of a function that is not yet open: it opens, and closes with its weight and the largest among its callees.
#[cycle(largest_total)]
fn total(graph: &CallGraph<'_>, f: usize, mut state: State) -> Result<(u16, State), Overrun>
    requires { (f < 128) × (get_or state.colours f 0 ≡ 0) × Kept (graph_of graph.now) graph.now.pool state }
    ensures { Visits (graph_of graph.now) graph.now.pool f state result }
{
    state.colours[f] = OPEN;
    let (best, mut state) = largest(graph, f, state)?;
    let sum = cells::at(graph.weights, f).saturating_add(best);
    if graph.pool < sum {
        return Err(Overrun::Over(f, sum));
    }
    state.colours[f] = CLOSED;
    state.totals[f] = sum;
    Ok((sum, state))
}

// The largest total among the callees of f, along its row. No iterator over the known ones: the state is handed on from callee to callee.
#[cycle(largest_total)]
fn largest(graph: &CallGraph<'_>, f: usize, mut state: State) -> Result<(u16, State), Overrun>
    requires { (f < 128) × Kept (graph_of graph.now) graph.now.pool state }
    ensures { Walks (graph_of graph.now) graph.now.pool f state result }
{
    let mut best: u16 = 0;
    for &c in cells::part(graph.cells, f * 128, 128) {
        if c == 0 {
            break;
        }
        let g = (c - 1) as usize;
        if 128 <= g {
            continue;
        }
        let t = match state.colours[g] {
            OPEN => return Err(Overrun::Cycle(g)),
            NOT_YET_OPEN => {
                let (t, next) = total(graph, g, state)?;
                state = next;
                t
            }
            _ => state.totals[g],
        };
        best = best.max(t);
    }
    Ok((best, state))
}

// An entry while no function is open: an id without a row, or a row past 128, is no function's, and weighs 0.
#[tactic(auto, using(crate::proofs::Entries::met_unknown, crate::proofs::Entries::met_new, crate::proofs::Entries::met_again), unfolding(crate::specs::Cells::row_at))]
fn met(graph: &CallGraph<'_>, place: Option<usize>, state: State) -> Result<(u16, State), Overrun>
    requires { AtRest (graph_of graph.now) graph.now.pool state }
    ensures { Meets (graph_of graph.now) graph.now.pool (row_at place) result }
{
    let Some(f) = place else {
        return Ok((0, state));
    };
    if 128 <= f {
        return Ok((0, state));
    }
    if state.colours[f] == NOT_YET_OPEN {
        return total(graph, f, state);
    }
    Ok((state.totals[f], state))
}

// For each entry: the first 20 or 21, else the largest total. A closed function's total does not depend on the entry that it was reached from, so
// colours and totals are kept over the entries.
#[tactic(auto, using(crate::proofs::Entries::entries_end, crate::proofs::Entries::entry_fine))]
pub fn visit_entries(graph: &CallGraph<'_>, ids: &[u16], entries: &[u16]) -> Result<u16, Overrun>
    ensures { result ≡ visit_of (graph_of graph.now) graph.now.pool (entry_rows ids.now entries.now) }
{
    let mut state = State {
        colours: [NOT_YET_OPEN; 128],
        totals: [0; 128],
    };
    let mut best: u16 = 0;
    for &entry in entries {
        let (total, next) = met(graph, program::function_row(ids, entry), state)?;
        state = next;
        best = best.max(total);
    }
    Ok(best)
}
