// A table's arcs, in their cells, as a graph on its states: a definition with its laws, which arcs a state has, whether an arc is idle, and where
// an idle one leads.
#![tactic(auto)]

ghost use Rattle.std.specs.Prelude.{◌≡◌, ◌+◌, ◌<◌, length, get_or};
ghost use Rattle.table_format.specs.Cells.{arc_count, arc_of};
ghost use Rattle.machine.specs.Idle.{side_idle};
ghost use Rattle.engine_graph.specs.Graph.{Graph, idle_by, idle_target};

use std::ops::Range;
use table_format::arc_at;

// The arcs of a table, the index of each state's first arc, the count of states, and whether a side is read. Where no side is read every arc is idle.
#[derive(Clone, Copy)]
pub struct IdleGraph<'a> {
    pub arcs: &'a [u16],
    pub first: &'a [u16],
    pub states: usize,
    pub upper: bool,
    pub lower: bool,
    pub ghost graph: { Graph arcs.now first.now states },
}

// A letter passes nothing that is read.
fn side_idle(read: bool, letter: u16) -> bool
    ensures { result ≡ side_idle read letter }
{
    !read || letter == 0
}

// The numbers of the arcs of state `q`, by the index.
pub fn arcs_of(first: &[u16], q: usize) -> Range<usize>
    requires { q + 1 < length first.now }
    ensures { (result.start ≡ get_or first.now q 0) × (result.end ≡ get_or first.now (q + 1) 0) }
{
    usize::from(first[q])..usize::from(first[q + 1])
}

// Arc `n` is idle. It is looked at once for each side: of each look only the letter that is used is fetched, so that a loop over arcs fetches one
// letter of most arcs and not whole arcs.
pub fn idle(arcs: &[u16], n: usize, upper: bool, lower: bool) -> bool
    requires { n < arc_count arcs.now }
    ensures { result ≡ idle_by upper lower (arc_of arcs.now n) }
{
    side_idle(upper, arc_at(arcs, n).upper) && side_idle(lower, arc_at(arcs, n).lower)
}

impl IdleGraph<'_> {
    // The numbers of the arcs of state `q`.
    pub fn arcs_of(&self, q: usize) -> Range<usize>
        requires { q < self.now.states }
        ensures { (result.start ≡ get_or self.now.first.now q 0) × (result.end ≡ get_or self.now.first.now (q + 1) 0) }
    {
        arcs_of(self.first, q)
    }

    // The state to which arc `n` leads, where it is idle. Its target is looked at only there.
    pub fn idle_target(&self, n: usize) -> Option<u16>
        requires { n < arc_count self.now.arcs.now }
        ensures { result ≡ idle_target self.now.upper self.now.lower (arc_of self.now.arcs.now n) }
    {
        if idle(self.arcs, n, self.upper, self.lower) {
            Some(arc_at(self.arcs, n).target)
        } else {
            None
        }
    }
}
