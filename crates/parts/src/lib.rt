// The parts of the roles: definitions and laws, and the words that the code makes a part of. The code stands in merge, projection
// and layout. A part is one word a row in the order met, kind + KINDS x argument (specs/mirror/Codes.antt).
#![tactic(auto)]

ghost use Rattle.std.specs.Prelude.{◌≡◌};
ghost use Rattle.parts.specs.mirror.Kinds.{kind_of, argument_of, code_of, encoded};

// What a word of a part stands for.
// kept: the words lie packed in buffers of u16, since memory and stack are fixed; all that reads or makes one goes through this type.
#[derive(Clone, Copy, Debug, PartialEq, Eq)]
pub enum Code {
    End,
    // Behind the last arm of an action.
    Mark,
    // Its label; its part comes next, then the arms after it.
    Arm(u16),
    Loop,
    // How many Loops around it are nearer than its own.
    Back(u16),
    // The receiver; its arms come next.
    Send(u16),
    // The sender; its arms come next.
    Receive(u16),
    // A word that no part has.
    Other,
}

// An argument for which there is no word.
#[derive(Clone, Copy, Debug, PartialEq, Eq)]
pub struct TooLarge;

impl Code {
    pub const KINDS: u16 = 8;

    // Arguments of words are below this, as many as KINDS times it are all words.
    pub const SMALL: u16 = 8192;

    // The number of its kind, in a word and in the row of a part, and its argument, 0 where the kind has none.
    pub fn split(self) -> (u16, u16)
        ensures kind { result.0 ≡ kind_of self }
        ensures argument { result.1 ≡ argument_of self }
    {
        match self {
            Code::End => (0, 0),
            Code::Mark => (1, 0),
            Code::Arm(label) => (2, label),
            Code::Loop => (3, 0),
            Code::Back(depth) => (4, depth),
            Code::Send(receiver) => (5, receiver),
            Code::Receive(sender) => (6, sender),
            Code::Other => (7, 0),
        }
    }
}

impl From<u16> for Code {
    ghost from_gives = { λ word code. code ≡ code_of word };

    fn from(word: u16) -> Code {
        let argument = word / Code::KINDS;
        match word % Code::KINDS {
            0 => Code::End,
            1 => Code::Mark,
            2 => Code::Arm(argument),
            3 => Code::Loop,
            4 => Code::Back(argument),
            5 => Code::Send(argument),
            6 => Code::Receive(argument),
            _ => Code::Other,
        }
    }
}

impl TryFrom<Code> for u16 {
    type Error = TooLarge;

    ghost try_from_gives = { λ code word. word ≡ encoded code };

    fn try_from(code: Code) -> Result<u16, TooLarge> {
        let (kind, argument) = code.split();
        if argument < Code::SMALL {
            Ok(kind + argument * Code::KINDS)
        } else {
            Err(TooLarge)
        }
    }
}
