// Running a program from its class table's bytes, with values in blocks of the work buffer.
// Offered: `report::run_report`, a run of main and its report, with `Reported`.
// Not here: the table (classes), what is done with values (values, maker), what a call answers (engine).
#![tactic(auto)]

pub mod frame; // frames: what the variables of a body hold
pub mod spot; // where an evaluation stands
pub mod trace; // the open calls and the fuel left
pub mod met; // a call met again
pub mod find; // the method that a call names
pub mod fields; // fields of fields
pub mod eval; // running an expression
pub mod number; // running a sum, a difference, a choice
pub mod call; // running a call
pub mod run; // running main
pub mod report; // running main and reporting it: what other crates ask for

// Why a run ends without a value: the cases, each with its number in a report.
#[derive(Clone, Copy)]
pub enum Stop {
    Stuck = 1,
    NoFuel = 2,
    TooDeep = 3,
    TooLarge = 4,
    Overflow = 5,
}

// What an expression gives: its value and the place after it.
#[derive(Clone, Copy)]
pub struct Evaluated {
    pub value: values::ValueRef,
    pub next: u16,
}

// What an operand gives: its number and the place after it.
#[derive(Clone, Copy)]
pub struct Counted {
    pub number: u16,
    pub next: u16,
}

// What a run gives: what main's expression gives, and the fuel left.
#[derive(Clone, Copy)]
pub struct Ran {
    pub outcome: Result<Evaluated, Stop>,
    pub fuel: u16,
}
