// The idle cycle to be shown. Where peeling (engine_peel) leaves no state there is none. Else what is reached is marked (engine_reach), and of the
// states that are left and reached, the lowest from which idle arcs lead back to it begins the cycle: the shortest and first one through it
// (engine_cycle).
#![tactic(auto)]

ghost use Rattle.std.specs.Prelude.{◌≡◌, ◌↔◌, true, ◌<◌, length};
ghost use Rattle.graph.specs.Lists.{AllBelow};
ghost use Rattle.engine_peel.specs.Peel.{Cyclic};
ghost use Rattle.engine_idle.specs.Found.{NoneLeft, LoopedAt, LowestLooped, cycle_of, shown_in};

use engine_cycle::Cycle;
use engine_graph::IdleGraph;

// No state is left.
fn none_left(alive: &[u8]) -> bool
    ensures { NoneLeft alive.now result }
{
    !alive.contains(&1)
}

// A state is reached and on an idle cycle. Every state on one is alive.
fn looped(graph: &IdleGraph<'_>, s: usize, alive: &[u8], reached: &[bool; 256]) -> bool
    requires states { length alive.now ≡ graph.now.states }
    requires s_in_bounds { s < graph.now.states }
    requires cyclic { Cyclic graph.now alive.now }
    ensures { (result ≡ true) ↔ LoopedAt graph.now reached.now s }
{
    alive[s] == 1 && reached[s] && engine_reach::returns(graph, s)
}

// The lowest state that is reached and on an idle cycle.
fn lowest(graph: &IdleGraph<'_>, alive: &[u8], reached: &[bool; 256]) -> Option<usize>
    requires states { length alive.now ≡ graph.now.states }
    requires cyclic { Cyclic graph.now alive.now }
    ensures { LowestLooped graph.now reached.now result }
{
    for s in 0..graph.states {
        if looped(graph, s, alive, reached) {
            return Some(s);
        }
    }
    None
}

// The idle cycle to be shown; none where arcs reach none from the initial states. What is reached is marked only where the rounds leave a state,
// which in most tables they do not.
pub fn find(graph: &IdleGraph<'_>, initials: &[u16]) -> Option<Cycle>
    requires { AllBelow graph.now.states initials.now }
    ensures { result ≡ cycle_of (shown_in graph.now initials.now) }
{
    let mut alive = [1; 256];
    let alive = &mut alive[..graph.states];
    engine_peel::settle(graph, alive);
    if none_left(alive) {
        return None;
    }
    let reached = engine_reach::reach(graph, initials);
    let s = lowest(graph, alive, &reached)?;
    Some(engine_cycle::through(graph, s))
}
