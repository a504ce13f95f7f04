// The types in which the pieces of a sheet are handed over. What the sheet is, and what its pieces are, stands in specs/; the crate above writes them.
#![tactic(auto)]

use records::Place;

// Where the writing of a sheet stands.
#[derive(Clone, Copy, Debug, PartialEq, Eq)]
pub enum Stand {
    // The trace is read, and has come to this place.
    Reads(Place),
    // The trace has ended with this number, and so many of the lines that follow the `h` lines are written. A number and no `Ending`: whoever hands one
    // over may hand over any.
    Closes(u32, u8),
}

// What the next piece waits for.
#[derive(Clone, Copy, Debug, PartialEq, Eq)]
pub enum Wants {
    // More bytes of the trace: those at hand have no whole record left.
    Input,
    // Room for one more line.
    Room,
    // Nothing: the sheet is whole.
    Nothing,
}

// What a piece has come to.
#[derive(Clone, Copy, Debug, PartialEq, Eq)]
pub struct Piece {
    // The bytes at hand that are used.
    pub used: usize,
    // The bytes of the buffer that are written.
    pub written: usize,
    pub stand: Stand,
    pub wants: Wants,
}
