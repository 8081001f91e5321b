// The halves of a sum: each mid sees eight of the sixteen sources, and no source is seen by both.
ghost use Rattle.std.specs.Prelude.{◌≡◌};
ghost use Rattle.sum_telling.specs.Halves.{first_half, last_half};

// Two words with the tables of a half's four pairs, and its mid's table.
#[derive(Clone, Copy, PartialEq, Eq)]
pub(crate) struct Half {
    pub first: u32,
    pub second: u32,
    pub mid: u32,
}

pub(crate) fn first_half(w: [u32; 6]) -> Half
    ensures { result ≡ first_half w }
{
    Half {
        first: w[5],
        second: w[4],
        mid: w[1] % 65536,
    }
}

pub(crate) fn last_half(w: [u32; 6]) -> Half
    ensures { result ≡ last_half w }
{
    Half {
        first: w[3],
        second: w[2],
        mid: w[1] / 65536,
    }
}
