// Reachability, by a breadth-first search: which states arcs lead to from the initial states, whatever the arcs' letters (`reach`), and whether
// idle arcs lead from a state back to it (`returns`). `visit` meets a state, `follow` those to which the arcs of a state lead, and `spread` follows
// the arcs of each state that is met.
#![tactic(auto)]

ghost use Rattle.std.specs.Prelude.{◌≡◌, ◌↔◌, ℕ, true, false, ◌<◌, get_or, replicate};
ghost use Rattle.graph.specs.Lists.{AllBelow};
ghost use Rattle.graph.specs.Walk.{Walk};
ghost use Rattle.engine_graph.specs.Edge.{EdgeIn};
ghost use Rattle.engine_reach.specs.Reach.{Listed, Meets, MetWithin, Spread, ReachedCells};

use engine_graph::IdleGraph;

// The states that are met: whether each is, and all of them in the order in which they were.
#[derive(Drop)]
struct Visits {
    met: [bool; 256],
    order: [u16; 256],
    count: usize,
    ghost listed: { Listed met order count },
}

impl Visits {
    // None is met.
    fn none() -> Visits
        ensures { (result.met ≡ replicate 256 false) × (result.count ≡ 0) }
    {
        Visits {
            met: [false; 256],
            order: [0; 256],
            count: 0,
        }
    }

    // Meets a state, unless it was met before.
    fn visit(&mut self, state: u16)
        requires { state < 256 }
        ensures { Meets (λ s. s ≡ state) self.old.met self.old.order self.old.count self.new.met self.new.order self.new.count }
    {
        let at = usize::from(state);
        if !self.met[at] {
            self.met[at] = true;
            self.order[self.count] = state;
            self.count += 1;
        }
    }

    // Meets the states to which idle arcs lead from state `q`.
    fn follow(&mut self, graph: &IdleGraph<'_>, q: usize)
        requires { q < graph.now.states }
        ensures { Meets (EdgeIn graph.now q) self.old.met self.old.order self.old.count self.new.met self.new.order self.new.count }
    {
        for n in graph.arcs_of(q) {
            if let Some(target) = graph.idle_target(n) {
                self.visit(target);
            }
        }
    }

    // Follows the arcs of each state that is met, until all that they lead to are met. By index: the list grows while the loop goes through it.
    fn spread(&mut self, graph: &IdleGraph<'_>)
        requires { MetWithin graph.now.states self.old.met }
        ensures { Spread (EdgeIn graph.now) self.old.met self.new.met }
    {
        let mut done = 0;
        while done < self.count {
            self.follow(graph, usize::from(self.order[done]));
            done += 1;
        }
    }
}

// Which states arcs lead to from the initial ones, whatever the arcs' letters.
pub fn reach(graph: &IdleGraph<'_>, initials: &[u16]) -> [bool; 256]
    requires { AllBelow graph.now.states initials.now }
    ensures { ReachedCells graph.now.arcs.now initials.now result }
{
    let any = IdleGraph {
        arcs: graph.arcs,
        first: graph.first,
        states: graph.states,
        upper: false,
        lower: false,
    };
    let mut visits = Visits::none();
    for state in initials {
        visits.visit(*state);
    }
    visits.spread(&any);
    visits.met
}

// Whether idle arcs lead from state `q` back to it.
pub fn returns(graph: &IdleGraph<'_>, q: usize) -> bool
    requires { q < graph.now.states }
    ensures { (result ≡ true) ↔ Walk (EdgeIn graph.now) q q }
{
    let mut visits = Visits::none();
    visits.follow(graph, q);
    visits.spread(graph);
    visits.met[q]
}
