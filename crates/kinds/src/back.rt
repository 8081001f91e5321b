// The way back from an address: the section and the slot whose item is sent there.
ghost use Rattle.std.specs.Prelude.{◌≡◌};
ghost use Rattle.kinds.specs.Table.{slot_at, section_at};

use crate::{EDGES, Place, RANGES, SECTIONS, STATES, SUMS, TERMS};

// An address that starts no item.
const NOWHERE: Place = Place {
    section: SECTIONS,
    slot: 0,
};

// The section and the slot that an address starts. A range's upper chain has no slot of its own, and a sum has no part
// 3.
#[tactic(auto, using(crate::proofs::Places::starts_none))]
pub fn place_at(address: u32) -> Place
    ensures { (result.section ≡ section_at address) × (result.slot ≡ slot_at (section_at address) address) }
{
    match address {
        0x00..=0x0F => Place {
            section: STATES,
            slot: address as u8,
        },
        0x20..=0x29 => Place {
            section: TERMS,
            slot: (address - 0x20) as u8,
        },
        0x30 | 0x32 => Place {
            section: RANGES,
            slot: ((address - 0x30) / 2) as u8,
        },
        0x34..=0x35 => Place {
            section: EDGES,
            slot: (address - 0x34) as u8,
        },
        0x40..=0x7F => {
            if address % 4 == 3 {
                return NOWHERE;
            }
            Place {
                section: SUMS,
                slot: (3 * ((address - 0x40) / 4) + address % 4) as u8,
            }
        }
        _ => NOWHERE,
    }
}
