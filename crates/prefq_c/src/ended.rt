//! How a call ends.
ghost use Rattle.std.specs.Prelude.{◌≡◌};
ghost use Rattle.prefq_c.specs.Ended.{done, numbered};

/// How a call ended, by the numbers of prefq.h, and its result, which is 0 of a call that was not done.
#[repr(C)]
#[derive(Clone, Copy)]
pub struct Ended {
    pub outcome: i32,
    pub amount: u64,
}

/// A call that was refused: the table is as the refusal leaves it.
pub const REFUSED: Ended = Ended {
    outcome: -1,
    amount: 0,
};

/// A call for which there was no memory: there is no table.
pub const OUT_OF_MEMORY: Ended = Ended {
    outcome: -2,
    amount: 0,
};

/// A place or a row that a refusal has not; to C it is -1.
const NOWHERE: u64 = u64::MAX;

/// Why a call was refused, in numbers.
#[repr(C)]
#[derive(Clone, Copy)]
pub struct Why {
    pub kind: u32,
    pub number: u32,
    pub place: u64,
    pub row: u64,
    pub amount: u64,
}

impl Why {
    /// The same with the place that it names, in a question, among names or among changes.
    pub fn at(self, place: u64) -> Why
        ensures { result ≡ record self { place = place } }
    {
        Why { place, ..self }
    }

    /// With the row of a table.
    pub fn in_row(self, row: u64) -> Why
        ensures { result ≡ record self { row = row } }
    {
        Why { row, ..self }
    }

    /// With an amount.
    pub fn of(self, amount: u64) -> Why
        ensures { result ≡ record self { amount = amount } }
    {
        Why { amount, ..self }
    }
}

/// The last refusal: what the program says behind its number, with a zero at the end, and its numbers.
#[repr(C)]
pub struct Refusal {
    pub text: [u8; 160],
    pub why: Why,
}

/// A call that was done, with this result.
pub fn done(amount: u64) -> Ended
    ensures { result ≡ done amount }
{
    Ended { outcome: 0, amount }
}

/// A refusal of this kind and number, which names nothing.
pub fn numbered(kind: u32, number: u32) -> Why
    ensures { result ≡ numbered kind number }
{
    Why {
        kind,
        number,
        place: NOWHERE,
        row: NOWHERE,
        amount: 0,
    }
}
