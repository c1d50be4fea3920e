// Peeling: in the graph of a table's idle arcs, a state without an idle arc to a state that remains is removed, in rounds, until none is (leaf
// removal). A state remains ("is alive") while its cell is 1. `is_leaf` looks at the arcs of a state, `peel` makes a round, `settle` all of them.
#![tactic(auto)]

ghost use Rattle.std.specs.Prelude.{◌≡◌, ◌<◌, length};
ghost use Rattle.engine_peel.specs.Peel.{Leaf, Peeled, Settled};

use engine_graph::IdleGraph;

// No idle arc leads from state `q` to a living state.
fn is_leaf(graph: &IdleGraph<'_>, q: usize, alive: &[u8]) -> bool
    requires states { length alive.now ≡ graph.now.states }
    requires q_in_bounds { q < graph.now.states }
    ensures { Leaf graph.now alive.now q result }
{
    for n in graph.arcs_of(q) {
        if let Some(target) = graph.idle_target(n) {
            if alive[usize::from(target)] == 1 {
                return false;
            }
        }
    }
    true
}

// One round, last state first. Whether a state died.
fn peel(graph: &IdleGraph<'_>, alive: &mut [u8]) -> bool
    requires { length alive.old ≡ graph.now.states }
    ensures { Peeled graph.now alive.old alive.new result }
{
    let mut died = false;
    for q in (0..graph.states).rev() {
        if alive[q] == 1 && is_leaf(graph, q, alive) {
            alive[q] = 0;
            died = true;
        }
    }
    died
}

// Rounds until none dies.
pub fn settle(graph: &IdleGraph<'_>, alive: &mut [u8])
    requires { length alive.old ≡ graph.now.states }
    ensures { Settled graph.now alive.old alive.new }
{
    while peel(graph, alive) {}
}
