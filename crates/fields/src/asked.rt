// What a command may ask for.
use super::given::Given;
use command::kind::Kind;
use run::{Choice, Step};

// What a 7C holds: the data of a run step, or of the chip key.
#[derive(Clone, Copy, PartialEq, Eq)]
pub enum Content {
    Step(Step),
    Chip,
}

// What a command of a known kind asks.
#[derive(Clone, Copy, PartialEq, Eq)]
pub enum Ask {
    Choose(Choice),
    General(Content),
    Select,
    Verify,
    Announce,
    Challenge,
    Prove,
    ChooseChipKey,
    Read(u8),
    ChangePin,
    Unblock,
    Activate,
    Deactivate,
}

// A command of a known kind, chained or not, and what its data give; nothing where they are not what its kind wants.
#[derive(Clone, Copy)]
pub struct Asked {
    pub kind: Kind,
    pub chained: bool,
    pub given: Option<Given>,
}
