// The plain types that the definitions (specs/) and every crate above share. The crate is its definitions and theorems; the one function says a refusal's number.
#![tactic(auto)]

ghost use Rattle.std.specs.Prelude.{◌≡◌};
ghost use Rattle.cofj.specs.Refusals.{refusal_number};

// A session: open or closed, and the fuel that is left.
#[repr(C)]
#[derive(Clone, Copy)]
pub struct Session {
    pub active: bool,
    pub fuel: u16,
}

// What a run answers: 0 or the refusal's number, the session, and the report's length.
#[repr(C)]
#[derive(Clone, Copy)]
pub struct Answer {
    pub refusal: u8,
    pub session: Session,
    pub length: u16,
}

// What closing answers.
#[repr(C)]
#[derive(Clone, Copy)]
pub struct Closing {
    pub refusal: u8,
    pub session: Session,
}

// What a check answers: 0 and main's class and tag, or the refusal's number and zeros.
#[repr(C)]
#[derive(Clone, Copy)]
pub struct Verdict {
    pub refusal: u8,
    pub class: u8,
    pub tag: u8,
}

// What the writer answers: 0 and the text's length, or the refusal's number and 0.
#[repr(C)]
#[derive(Clone, Copy)]
pub struct Written {
    pub refusal: u8,
    pub length: u16,
}

// What `line_show` answers: 0 and the verdict line, its characters and how many they are, and the report's length; or the refusal's number and zeros.
#[repr(C)]
#[derive(Clone, Copy)]
pub struct Shown {
    pub refusal: u8,
    pub verdict_length: u8,
    pub verdict: [u8; 9],
    pub length: u16,
}

// Where a method is found: whether it is, the class that owns it and its number in file order; zeros where it is not.
#[repr(C)]
#[derive(Clone, Copy)]
pub struct Finding {
    pub found: bool,
    pub owner: u8,
    pub method: u8,
}

// Why a call is refused: the cases of documents 01 and 02, each with its number.
#[derive(Clone, Copy)]
pub enum Refusal {
    NoLineForm = 1,
    BadFrame = 2,
    BadOrder = 3,
    BadTable = 4,
    BadOverride = 5,
    UntypedMethod = 6,
    UntypedMain = 7,
    UnreadableTable = 8,
    ShortText = 9,
    ClosedSession = 11,
    ShortReport = 12,
    ShortWork = 13,
    BadParts = 14,
    UnfitParts = 15,
}

impl Refusal {
    // Its number in an answer, where 0 stands for no refusal.
    pub fn number(self) -> u8
        ensures { result ≡ refusal_number self }
    {
        self as u8
    }
}
