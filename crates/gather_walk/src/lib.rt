// Gathering by a plain walk over all 32 lines, for the benchmark to compare `lines::gather` with; nothing else uses it.
// Promises: the same answer as `lines::gather`, for every sample and mask.
// Rests on: lines.
#![tactic(auto)]

ghost use Rattle.std.specs.Prelude.{◌≡◌};
ghost use Rattle.lines.specs.Gather.{gathered};

// The lines are taken from the highest down, so that each masked line goes in at bit 0.
#[unsafe(no_mangle)]
pub extern "C" fn voltamar_gather_walk(sample: u32, mask: u32) -> u32
    ensures { result ≡ gathered 32 sample mask }
{
    let mut packed: u32 = 0;
    let mut i: u32 = 32;
    while 0 < i {
        i -= 1;
        if lines::line_value(mask, i) == 1 {
            packed = (packed << 1) | lines::line_value(sample, i);
        }
    }
    packed
}
