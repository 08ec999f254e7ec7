// The prices at the edge.
#![tactic(auto)]

ghost use Rattle.std.specs.Prelude.{◌≡◌, length};
ghost use Rattle.edges.specs.Edges.{edges, EdgesHold};

// How many prices at the edge the rules give, each of which is answered as the rules say.
pub fn prices_at_the_edge() -> usize
    ensures count { result ≡ length edges }
    ensures hold { EdgesHold }
{
    8
}
