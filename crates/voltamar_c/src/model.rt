// Gathering, the plain rules of a hit, the model over lent chain words, and what tells two sums apart.
ghost use Rattle.std.specs.Prelude.{◌≡◌};
ghost use Rattle.lines.specs.Gather.{gathered};
ghost use Rattle.lut.specs.Answer.{answer_number, answer_hit, answer_place};
ghost use Rattle.term.specs.Rule.{term_hit};
ghost use Rattle.term.specs.Model.{run_term};
ghost use Rattle.range.specs.Rule.{range_hit};
ghost use Rattle.range.specs.Model.{run_range};
ghost use Rattle.edge.specs.Rule.{edge_hit};
ghost use Rattle.edge.specs.Model.{run_edge};
ghost use Rattle.sum.specs.Model.{run_sum};
ghost use Rattle.sum_telling.specs.Numbers.{sum_told, ToldMeans};

use answers::hand_answer;

// The sample's masked lines, packed into a number.
#[unsafe(no_mangle)]
pub extern "C" fn voltamar_gather(sample: u32, mask: u32) -> u32
    ensures { result ≡ gathered 32 sample mask }
{
    lines::gather(sample, mask)
}

// A term's four words, run on a sample.
#[unsafe(no_mangle)]
pub extern "C" fn voltamar_run_term(
    words: &[u32],
    sample: u32,
    hit: &mut u8,
    place: &mut usize,
) -> u8
    ensures value { result ≡ answer_number (run_term words.now sample) }
    ensures hit_after { hit.new ≡ answer_hit (run_term words.now sample) }
    ensures place_after { place.new ≡ answer_place (run_term words.now sample) }
{
    hand_answer(term::run_term(words, sample), hit, place)
}

// A range's thirty-two words, the lower chain's first, run on a sample.
#[unsafe(no_mangle)]
pub extern "C" fn voltamar_run_range(
    words: &[u32],
    sample: u32,
    hit: &mut u8,
    place: &mut usize,
) -> u8
    ensures value { result ≡ answer_number (run_range words.now sample) }
    ensures hit_after { hit.new ≡ answer_hit (run_range words.now sample) }
    ensures place_after { place.new ≡ answer_place (run_range words.now sample) }
{
    hand_answer(range::run_range(words, sample), hit, place)
}

// An edge's eight words, run on an earlier and a later sample.
#[unsafe(no_mangle)]
pub extern "C" fn voltamar_run_edge(
    words: &[u32],
    earlier: u32,
    later: u32,
    hit: &mut u8,
    place: &mut usize,
) -> u8
    ensures value { result ≡ answer_number (run_edge words.now earlier later) }
    ensures hit_after { hit.new ≡ answer_hit (run_edge words.now earlier later) }
    ensures place_after { place.new ≡ answer_place (run_edge words.now earlier later) }
{
    hand_answer(edge::run_edge(words, earlier, later), hit, place)
}

// A sum's six words, run on the sixteen sources.
#[unsafe(no_mangle)]
pub extern "C" fn voltamar_run_sum(
    words: &[u32],
    sources: u16,
    hit: &mut u8,
    place: &mut usize,
) -> u8
    ensures value { result ≡ answer_number (run_sum words.now sources) }
    ensures hit_after { hit.new ≡ answer_hit (run_sum words.now sources) }
    ensures place_after { place.new ≡ answer_place (run_sum words.now sources) }
{
    hand_answer(sum::run_sum(words, sources), hit, place)
}

// What tells two sums apart, each given by its eleven operation bytes.
#[unsafe(no_mangle)]
pub extern "C" fn voltamar_sum_telling(old: &[u8], new: &[u8], sources: &mut u16) -> u8
    ensures value { result ≡ (sum_told old.now new.now).number }
    ensures sources_after { sources.new ≡ (sum_told old.now new.now).sources }
    ensures meaning { ToldMeans old.now new.now (record { number = result; sources = sources.new }) }
{
    let told = sum_telling::told_of(old, new);
    *sources = told.sources;
    told.number
}

// The plain rule of a term.
#[unsafe(no_mangle)]
pub extern "C" fn voltamar_term_hit(target: u32, mask: u32, sample: u32) -> bool
    ensures { result ≡ term_hit target mask sample }
{
    term::term_hit(target, mask, sample)
}

// The plain rule of a range.
#[unsafe(no_mangle)]
pub extern "C" fn voltamar_range_hit(lower: u32, upper: u32, mask: u32, sample: u32) -> bool
    ensures { result ≡ range_hit lower upper mask sample }
{
    range::range_hit(lower, upper, mask, sample)
}

// The plain rule of an edge.
#[unsafe(no_mangle)]
pub extern "C" fn voltamar_edge_hit(
    rise: u32,
    fall: u32,
    neither: u32,
    earlier: u32,
    later: u32,
) -> bool
    ensures { result ≡ edge_hit rise fall neither earlier later }
{
    edge::edge_hit(rise, fall, neither, earlier, later)
}
