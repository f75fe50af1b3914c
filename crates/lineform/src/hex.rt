// Two digits as a byte. Not here: lines (lines).
ghost use Rattle.std.specs.Prelude.{◌≡◌};
ghost use Rattle.cofj.specs.Text.{digit};
ghost use Rattle.lineform.specs.Answers.{Values, value_of, pair_value};

use crate::digits::VALUES;

// The values of all characters. Made once for a text: taking an entry of the constant would make all of it anew.
#[derive(Clone, Copy)]
pub(crate) struct Digits {
    pub values: [u16; 256],
    ghost right: { Values values },
}

impl Digits {
    pub(crate) fn all() -> Digits {
        Digits { values: VALUES }
    }

    // The value of a digit's character, or 768 of any other.
    fn value(&self, c: u8) -> u16
        ensures { result ≡ value_of (digit c) }
    {
        self.values[usize::from(c)]
    }

    // The byte of two digits, or a number from 768 on.
    pub(crate) fn pair(&self, a: u8, b: u8) -> u16
        ensures { result ≡ pair_value a b }
    {
        16 * self.value(a) + self.value(b)
    }
}
