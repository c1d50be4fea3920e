// A shortest cycle of idle arcs through a state, and among those the one whose states come first, by a breadth-first search backwards from that
// state. It has number 1, and others have one more than their distance to it, layer by layer (`layer`, `layers`), until an arc leads from it to
// the outermost layer. The way back goes from layer to layer, each time to the lowest state to which an arc leads (`lowest`, `trace`). A state's
// number is 0 while it has none: that is the form of graph's `Layers`, of which the theorems on shortest cycles speak.
#![tactic(auto)]

ghost use Rattle.std.specs.Prelude.{◌≡◌, ◌<◌, ◌≤◌, replicate};
ghost use Rattle.graph.specs.Walk.{Walk};
ghost use Rattle.engine_graph.specs.Edge.{EdgeIn};
ghost use Rattle.engine_cycle.specs.Numbers.{LowestAt, LayerAdded, LayersTo, cycle_cells, cycle_through};

use engine_graph::IdleGraph;

// The states of a cycle, from the front: cells and a count, as a start gives them (`machine::Started`).
#[derive(Clone, Copy)]
pub struct Cycle {
    pub states: [u16; 256],
    pub length: u32,
}

// The lowest state with number `far` to which an idle arc leads from state `q`.
fn lowest(graph: &IdleGraph<'_>, q: usize, numbers: &[u16; 256], far: u16) -> Option<u16>
    requires { q < graph.now.states }
    ensures { LowestAt graph.now numbers.now far q result }
{
    let mut lowest: Option<u16> = None;
    for n in graph.arcs_of(q) {
        if let Some(target) = graph.idle_target(n) {
            if numbers[usize::from(target)] == far {
                lowest = Some(target.min(lowest.unwrap_or(target)));
            }
        }
    }
    lowest
}

// One layer: the states without a number, 0, from which an idle arc leads to number `far` get the next one.
fn layer(graph: &IdleGraph<'_>, far: u16, numbers: &mut [u16; 256])
    requires { (0 < far) × (far ≤ 256) }
    ensures { LayerAdded graph.now far numbers.old numbers.new }
{
    for q in 0..graph.states {
        if numbers[q] == 0 && lowest(graph, q, numbers, far).is_some() {
            numbers[q] = far + 1;
        }
    }
}

// The numbers of the layers round a state that is on a cycle, up to the layer to which it leads. Gives the number of that layer too, which is the
// count of the cycle's states. It is counted by hand: how far it goes is what is looked for.
fn layers(graph: &IdleGraph<'_>, s: usize) -> ([u16; 256], u16)
    requires s_in_bounds { s < graph.now.states }
    requires walk { Walk (EdgeIn graph.now) s s }
    ensures { LayersTo graph.now s result.0 result.1 }
{
    let mut numbers = [0; 256];
    numbers[s] = 1;
    let mut far = 1;
    while lowest(graph, s, &numbers, far).is_none() {
        layer(graph, far, &mut numbers);
        far += 1;
    }
    (numbers, far)
}

// The way from a state to the layer that it leads to, number `count`, and from layer to layer back to it.
fn trace(graph: &IdleGraph<'_>, s: usize, numbers: &[u16; 256], count: u16) -> Cycle
    requires s_in_bounds { s < graph.now.states }
    requires layers_to { LayersTo graph.now s numbers.now count }
    ensures { result ≡ cycle_cells (cycle_through graph.now s) }
{
    let mut states = [0; 256];
    let mut q = s as u16;
    for n in 0..count {
        let next = lowest(graph, usize::from(q), numbers, count - n).unwrap();
        states[usize::from(n)] = q;
        q = next;
    }
    Cycle {
        states,
        length: u32::from(count),
    }
}

// The shortest and first cycle through a state that is on one.
pub fn through(graph: &IdleGraph<'_>, s: usize) -> Cycle
    requires s_in_bounds { s < graph.now.states }
    requires walk { Walk (EdgeIn graph.now) s s }
    ensures { result ≡ cycle_cells (cycle_through graph.now s) }
{
    let (numbers, count) = layers(graph, s);
    trace(graph, s, &numbers, count)
}
