// The visit on its deepest and widest graphs of 128 functions: a line for each, with 0 and the largest total, 20 with row and total, or 21 with the row.
#![tactic(auto)]

ghost use Rattle.std.specs.Prelude.{◌<◌};

use std::io;
use visit::{CallGraph, Overrun};

fn line(rt: &impl Print, name: &str, answer: Result<u16, Overrun>) -> io::Result<()> {
    match answer {
        Ok(total) => println!(rt; "{name}: 0 {total}"),
        Err(Overrun::Cycle(row)) => println!(rt; "{name}: 21 {row}"),
        Err(Overrun::Over(row, total)) => println!(rt; "{name}: 20 {row} {total}"),
    }
}

// The callees of each of 128 functions, and its weight.
#[derive(Drop)]
struct Graph {
    cells: [u8; 16384],
    weights: [u16; 128],
}

// The callee after another one of f: the later functions, round and round.
fn later(f: usize, callee: usize) -> usize
    requires { f < 127 }
    ensures { result < 128 }
{
    if callee < 127 { callee + 1 } else { f + 1 }
}

impl Graph {
    // No function calls another, and each weighs 1.
    fn blank() -> Graph {
        Graph {
            cells: [0; 16384],
            weights: [1; 128],
        }
    }

    // Each function calls the next one, the last none.
    fn chain(&mut self) {
        for f in 0..127 {
            cells::put(&mut self.cells, f * 128, (f + 2) as u8);
        }
    }

    // A function calls all later ones again and again, until its 128 cells are full.
    fn full_row(&mut self, f: usize)
        requires { f < 127 }
    {
        let mut callee = f;
        for cell in 0..128 {
            callee = later(f, callee);
            cells::put(&mut self.cells, f * 128 + cell, (callee + 1) as u8);
        }
    }

    // Each function but the last has a full row.
    fn wide(&mut self) {
        for f in 0..127 {
            self.full_row(f);
        }
    }
}

// The entry that is the first function's id.
const FIRST: [u16; 1] = [200];

// Function k has id 200 - k.
fn falling() -> [u16; 128] {
    let mut ids = [0u16; 128];
    for (f, id) in ids.iter_mut().enumerate() {
        *id = (200 - f) as u16;
    }
    ids
}

// The visit of a graph from its entries, at a pool.
fn ask(rt: &impl Print, name: &str, graph: &Graph, pool: u16, entries: &[u16]) -> io::Result<()> {
    let graph = CallGraph {
        cells: &graph.cells,
        weights: &graph.weights,
        pool,
    };
    line(rt, name, visit::visit_entries(&graph, &falling(), entries))
}

fn chains(rt: &impl Print, graph: &mut Graph) -> io::Result<()> {
    graph.chain();
    ask(rt, "chain", graph, 128, &FIRST)?;
    ask(rt, "chain, pool short by one", graph, 127, &FIRST)?;
    ask(rt, "chain, 32 times the same entry", graph, 128, &[200; 32])
}

fn rings(rt: &impl Print, graph: &mut Graph) -> io::Result<()> {
    cells::put(&mut graph.cells, 16256, 1);
    ask(rt, "chain, the last calls the first", graph, 128, &FIRST)?;
    cells::put(&mut graph.cells, 16256, 128);
    ask(rt, "chain, the last calls itself", graph, 128, &FIRST)
}

fn entries_of_a_chain(rt: &impl Print, graph: &mut Graph) -> io::Result<()> {
    graph.chain();
    let from_its_end = [73, 200, 73, 9, 137];
    let name = "chain, entries from its end on, one unknown";
    ask(rt, name, graph, 128, &from_its_end)?;
    ask(rt, "chain, unknown entry, pool 0", graph, 0, &[9])?;
    ask(rt, "chain, no entry, pool 0", graph, 0, &[])
}

fn widest(rt: &impl Print, graph: &mut Graph) -> io::Result<()> {
    graph.wide();
    ask(rt, "widest", graph, 128, &FIRST)?;
    ask(rt, "widest, pool short by one", graph, 127, &FIRST)?;
    let name = "widest, pool short by two, 32 times the same entry";
    ask(rt, name, graph, 126, &[200; 32])
}

fn heavy(rt: &impl Print, graph: &mut Graph) -> io::Result<()> {
    cells::put(&mut graph.weights, 64, 65535);
    let name = "widest, one of 65535, pool 65535";
    ask(rt, name, graph, 65535, &FIRST)?;
    let name = "widest, one of 65535, pool 65534";
    ask(rt, name, graph, 65534, &FIRST)
}

fn main(rt: HostRuntime) -> io::Result<()> {
    let mut graph = Graph::blank();
    entries_of_a_chain(&rt, &mut graph)?;
    chains(&rt, &mut graph)?;
    rings(&rt, &mut graph)?;
    let mut full = Graph::blank();
    widest(&rt, &mut full)?;
    heavy(&rt, &mut full)
}
