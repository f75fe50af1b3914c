// The check of a text: refusals 1 to 7, or main's class and tag.
// Not here: reading (tables), the typing rules (checker).
ghost use Rattle.std.specs.Prelude.{◌≡◌};
ghost use Rattle.cofj.specs.Calls.{check_call};
ghost use Rattle.checker.specs.Answers.{verdict_of};

use checker::program::check;
use classes::chain::FieldType;
use classes::places::SIZE;
use cofj::{Refusal, Verdict};
use tables::read::read_into;

// The type of a text's main, or a refusal of 1 to 7.
pub(crate) fn main_type(text: &[u8]) -> Result<FieldType, Refusal>
    ensures { verdict_of result ≡ check_call text.now }
{
    let mut bytes = [0u8; SIZE];
    read_into(text, &mut bytes)?;
    check(&bytes)
}

// The verdict on a text.
pub(crate) fn check_text(text: &[u8]) -> Verdict
    ensures { result ≡ check_call text.now }
{
    match main_type(text) {
        Ok(u) => Verdict {
            refusal: 0,
            class: u.class,
            tag: u.tag,
        },
        Err(r) => Verdict {
            refusal: r.number(),
            class: 0,
            tag: 0,
        },
    }
}
