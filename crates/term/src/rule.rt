// The plain rule of a hit.
ghost use Rattle.std.specs.Prelude.{◌≡◌};
ghost use Rattle.term.specs.Rule.{term_hit};

pub fn term_hit(target: u32, mask: u32, sample: u32) -> bool
    ensures { result ≡ term_hit target mask sample }
{
    (sample ^ target) & mask == 0
}
