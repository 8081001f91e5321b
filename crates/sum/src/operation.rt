// The operation words by code, and the codes of words.
ghost use Rattle.std.specs.Prelude.{◌≡◌, ◌<◌};
ghost use Rattle.sum.specs.Operation.{op_word, op_code, codes_accepted};

// The greatest operation code.
const LAST_CODE: u8 = 9;

// The operation words by code: NOP, ANY, AND, NAND, OR, NOR, XOR, NXOR, A, B.
pub(crate) static PAIR: [u16; 10] = [
    0x0000, 0xFFFF, 0x8000, 0x7FFF, 0xF888, 0x0777, 0x7888, 0x8777, 0x8888, 0xF000,
];

pub(crate) static MID: [u16; 10] = [
    0x0000, 0xFFFF, 0x8000, 0x7FFF, 0xFFFE, 0x0001, 0x0116, 0xFEE9, 0xEEEE, 0xFFF0,
];

// A and B are not the listing's: each answers for one mid, whatever the other says [W15, W16].
pub(crate) static FINAL: [u16; 10] = [
    0x0000, 0xFFFF, 0x0008, 0x0007, 0x000E, 0x0001, 0x0006, 0x0009, 0x000A, 0x000C,
];

// The word of a code in one of the tables; 0 where it is no code.
pub(crate) fn op_word(table: &[u16; 10], code: u8) -> u32
    ensures { (result ≡ op_word table.now code) × (result < 65536) }
{
    table
        .get(usize::from(code))
        .map_or(0, |word| u32::from(*word))
}

// Whether every byte is an operation code.
pub(crate) fn codes_accepted(ops: &[u8]) -> bool
    ensures { result ≡ codes_accepted ops.now }
{
    compare::all_within(0, LAST_CODE, ops)
}

// The code of a word in one of the tables; 10 for a word that is not there. All ten are compared, the first last: a loop
// that ends early would be mispredicted on nearly every word.
#[tactic(auto, using(crate::proofs::Walk::walk))]
pub(crate) fn op_code(table: &[u16; 10], word: u32) -> u8
    ensures { result ≡ op_code table.now word }
{
    let mut code: u8 = 10;
    for i in (0..10).rev() {
        if u32::from(table[i]) == word {
            code = i as u8;
        }
    }
    code
}
