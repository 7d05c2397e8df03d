// The data of choose chip key: 80 the protocol, perhaps 84 with one byte.
ghost use Rattle.std.specs.Prelude.{◌≡◌};
ghost use Rattle.fields.specs.Chip.{chip_of, reference_in};

use super::asked::Ask;
use taking::{holds, identified};

const CHIP: [u8; 10] = [4, 0, 0x7F, 0, 7, 2, 2, 3, 2, 2];

// Nothing, or 84.
#[tactic(auto, unfolding(crate::specs::Chip::reference_in))]
fn reference(s: &[u8]) -> Option<Ask>
    ensures { result ≡ reference_in s.now }
{
    (s.is_empty() || holds(s, 0x84, 1, 1)).then_some(Ask::ChooseChipKey)
}

#[tactic(auto, using(crate::proofs::Ways::chains), unfolding(crate::specs::Chip::chip_of))]
pub(crate) fn chip(s: &[u8]) -> Option<Ask>
    ensures { result ≡ chip_of s.now }
{
    let found = identified(s, &CHIP)?;
    reference(&s[found.end..])
}
