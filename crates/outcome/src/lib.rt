// What a call gives: the state that comes after it, and its reply or the reason of its refusal.

#![tactic(auto)]

ghost use Rattle.std.specs.Prelude.{◌≡◌};
ghost use Rattle.outcome.specs.Numbers.{number_of};

// Why a call is refused, with the number that a host is given.
#[derive(Clone, Copy, Debug, PartialEq, Eq)]
pub enum Refusal {
    // The state is not well formed.
    Malformed = 1,
    // A number of the design lies outside its limits.
    OutsideLimits = 2,
    // A float of the design is not finite.
    NotFinite = 3,
    // Plan's frames lie outside their limits.
    Frames = 4,
    // A block is open, and the call is neither Mix nor a query.
    BlockOpen = 5,
    // No block is open for Mix.
    NoBlock = 6,
    // What was lent has not the exact length.
    LentLength = 7,
    // A new handle is due, and none is left.
    NoHandleLeft = 8,
    // The place lies beyond the stream, or the running status is none.
    NoSuchPlace = 9,
    // The stream ends inside a message.
    CutShort = 10,
}

impl Refusal {
    // The number that a host is given and a program prints.
    pub fn number(self) -> u8
        ensures { result ≡ number_of self }
    {
        self as u8
    }
}

// The state comes back in any case: a refusal gives the one that the call was given, or at a start one of zeros.
#[derive(Clone, Copy)]
pub struct Outcome<S, R> {
    pub state: S,
    pub reply: Result<R, Refusal>,
}

impl<S: Drop, R: Drop> Outcome<S, R> {
    pub fn answered(state: S, reply: R) -> Outcome<S, R>
        ensures { result ≡ record { state = state; reply = Ok reply } }
    {
        Outcome {
            state,
            reply: Ok(reply),
        }
    }

    pub fn refused(state: S, refusal: Refusal) -> Outcome<S, R>
        ensures { result ≡ record { state = state; reply = Err refusal } }
    {
        Outcome {
            state,
            reply: Err(refusal),
        }
    }
}
