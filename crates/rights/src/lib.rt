// Rights of 40 bits: the role in the top two, a right in each of the others.
#![tactic(auto)]

ghost use Rattle.std.specs.Prelude.{◌≡◌};
ghost use Rattle.rights.specs.Rights.{rights_fit, role_of, granted, common, has_right, group_mask, reads_group, pin_management, can_allowed};

use roles::Role;
use strings::number;

#[derive(Clone, Copy, PartialEq, Eq)]
pub struct Rights(pub u64);

// 06 with the identifier of authentication terminals, then the header of 53 with five bytes.
const TEMPLATE: [u8; 13] = [6, 9, 4, 0, 0x7F, 0, 7, 3, 1, 2, 2, 0x53, 5];

// The right to read each group, group 1 first.
const MASKS: [u64; 21] = [
    0x100, 0x200, 0x400, 0x800, 0x1000, 0x2000, 0x4000, 0x8000, 0x10000, 0x20000, 0x40000, 0x80000,
    0x100000, 0x200000, 0x400000, 0x800000, 0x1000000, 0x2000000, 0x4000000, 0x8000000, 0x10000000,
];

// The rights that the content of a 7F4C states.
#[tactic(auto, using(laws::proofs::Lists::from), unfolding(crate::specs::Rights::granted, crate::specs::Rights::is_rights))]
pub fn rights_of(s: &[u8]) -> Option<Rights>
    ensures { result ≡ granted s.now }
{
    if s.len() == 18 && s[..13] == TEMPLATE[..] {
        Some(Rights(number(256, 0, &s[13..]) % Rights::OVER))
    } else {
        None
    }
}

// The mask of group n; no right at all outside 1 to 21.
fn mask(n: u8) -> u64
    ensures { result ≡ group_mask n }
{
    let i = n as usize;
    if i < 1 || MASKS.len() < i {
        return 0;
    }
    MASKS[i - 1]
}

impl Rights {
    // The first number of more than 40 bits, and the unit of the role.
    const OVER: u64 = 0x100_0000_0000;

    const ROLE: u64 = 0x40_0000_0000;

    #[tactic(auto, unfolding(crate::specs::Rights::rights_fit))]
    pub fn fits(self) -> bool
        ensures { result ≡ rights_fit self }
    {
        self.0 < Rights::OVER
    }

    #[tactic(auto, unfolding(crate::specs::Rights::role_of))]
    pub fn role(self) -> Role
        ensures { result ≡ role_of self }
    {
        match self.0 / Rights::ROLE % 4 {
            3 => Role::Cvca,
            2 => Role::OfficialDv,
            1 => Role::OtherDv,
            _ => Role::Terminal,
        }
    }

    // The rights that four values share, their roles apart.
    pub fn common(a: Rights, b: Rights, c: Rights, d: Rights) -> Rights
        ensures { result ≡ common a b c d }
    {
        Rights(a.0 & b.0 & c.0 & d.0 & 0x3F_FFFF_FFFF)
    }

    // Bit 4, CAN allowed.
    pub fn allows_can(self) -> bool
        ensures { result ≡ has_right can_allowed self }
    {
        self.0 & 0x10 != 0
    }

    // Bit 5, PIN management.
    pub fn manages_pin(self) -> bool
        ensures { result ≡ has_right pin_management self }
    {
        self.0 & 0x20 != 0
    }

    // Bit 7+n, the right to read group n.
    pub fn reads(self, n: u8) -> bool
        ensures { result ≡ reads_group self n }
    {
        self.0 & mask(n) != 0
    }
}
