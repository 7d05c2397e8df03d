// The status words of document 01's table.
#![tactic(auto)]

ghost use Rattle.std.specs.Prelude.{◌≡◌};
ghost use Rattle.status.specs.Words.{word_number, word_read, intake_word};

#[derive(Clone, Copy, PartialEq, Eq)]
pub enum Word {
    Done,
    Tries(u8),
    NotPassed,
    Length,
    Lacking,
    Blocked,
    Unusable,
    Moment,
    Unprotected,
    Broken,
    Data,
    Parameters,
    NotFound,
    Instruction,
    Class,
    Outside,
}

// Why a body or a personalisation is refused: it is not good.
#[derive(Clone, Copy, PartialEq, Eq)]
pub struct Unfit;

// A number that no word has.
#[derive(Clone, Copy, PartialEq, Eq)]
pub struct UnknownWord(pub u16);

// The word of a body or a personalisation: 9000, or 6A80.
pub fn word_of_intake<T: Copy>(taken: Result<T, Unfit>) -> Word
    ensures { result ≡ intake_word taken }
{
    match taken {
        Ok(_) => Word::Done,
        Err(Unfit) => Word::Data,
    }
}

impl From<Word> for u16 {
    ghost from_gives = { λ word n. n ≡ word_number word };

    #[tactic(auto, unfolding(crate::specs::Words::word_number))]
    fn from(word: Word) -> u16 {
        match word {
            Word::Done => 0x9000,
            Word::Tries(left) => 0x63C0 + left as u16,
            Word::NotPassed => 0x6300,
            Word::Length => 0x6700,
            Word::Lacking => 0x6982,
            Word::Blocked => 0x6983,
            Word::Unusable => 0x6984,
            Word::Moment => 0x6985,
            Word::Unprotected => 0x6987,
            Word::Broken => 0x6988,
            Word::Data => 0x6A80,
            Word::Parameters => 0x6A86,
            Word::NotFound => 0x6A88,
            Word::Instruction => 0x6D00,
            Word::Class => 0x6E00,
            Word::Outside => 0x6F00,
        }
    }
}

// The way back: 63CX is X tries.
impl TryFrom<u16> for Word {
    type Error = UnknownWord;

    ghost try_from_gives = { λ n read. read ≡ word_read n };

    #[tactic(auto, unfolding(crate::specs::Words::word_at, crate::specs::Words::word_number))]
    fn try_from(n: u16) -> Result<Word, UnknownWord> {
        Ok(match n {
            0x63C0..=0x63CF => Word::Tries((n % 16) as u8),
            0x9000 => Word::Done,
            0x6300 => Word::NotPassed,
            0x6700 => Word::Length,
            0x6982 => Word::Lacking,
            0x6983 => Word::Blocked,
            0x6984 => Word::Unusable,
            0x6985 => Word::Moment,
            0x6987 => Word::Unprotected,
            0x6988 => Word::Broken,
            0x6A80 => Word::Data,
            0x6A86 => Word::Parameters,
            0x6A88 => Word::NotFound,
            0x6D00 => Word::Instruction,
            0x6E00 => Word::Class,
            0x6F00 => Word::Outside,
            _ => return Err(UnknownWord(n)),
        })
    }
}
