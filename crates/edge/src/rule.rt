// The plain rule of a hit, and which descriptions are accepted.
ghost use Rattle.std.specs.Prelude.{◌≡◌};
ghost use Rattle.edge.specs.Rule.{edge_hit, edge_accepted};
ghost use Rattle.edge.specs.Telling.{without};

use crate::Edge;

// The lines of a that are not lines of b.
#[tactic(auto, unfolding(crate::specs::Telling::without))]
pub(crate) fn lines_without(a: u32, b: u32) -> u32
    ensures { result ≡ without a b }
{
    a ^ (a & b)
}

// The plain rule, on all lines at once.
#[tactic(auto, using(crate::proofs::Bits::hit_bits))]
pub fn edge_hit(rise: u32, fall: u32, neither: u32, earlier: u32, later: u32) -> bool
    ensures { result ≡ edge_hit rise fall neither earlier later }
{
    let rising = lines_without(later, earlier) & rise;
    let falling = lines_without(earlier, later) & fall;
    let steady = lines_without(neither, earlier ^ later);
    (rising | falling | steady) != 0
}

// Whether no line asks for all three.
#[tactic(auto, using(crate::proofs::Bits::accepted_bits))]
pub(crate) fn edge_accepted(e: Edge) -> bool
    ensures { result ≡ edge_accepted e.rise e.fall e.neither }
{
    e.rise & e.fall & e.neither == 0
}
