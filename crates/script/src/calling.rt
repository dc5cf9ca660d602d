// The calls and the steps that a script can ask for, by their numbers in it.

ghost use Rattle.std.specs.Prelude.{◌≡◌};
ghost use Rattle.script.specs.Call.{IsCallOf, number_of};

// A call on the software, or a step of a season.
#[derive(Clone, Copy, PartialEq, Eq, Debug)]
pub enum Call {
    // Sets what holds for the lines that follow.
    With = 1,
    // On no book: the wall card's column, a book's length, a lot judged by the sheet.
    Card = 2,
    Length = 3,
    Judge = 4,
    // On a book, which it changes; what is received may be a lie, or a request that no house made.
    Open = 5,
    OpenWith = 6,
    Publish = 7,
    Receive = 8,
    Lie = 9,
    Ask = 10,
    // On a book, which stays as it is.
    Return = 11,
    ReturnUntold = 12,
    Sent = 13,
    Waiting = 14,
    // Shows a message laid as the numbers say.
    Show = 16,
    // The steps of a season.
    Begin = 20,
    Copy = 21,
    CopiesOn = 22,
    Request = 23,
    GoDown = 24,
    Stand = 25,
    Bounds = 26,
    StartAgain = 27,
    Spoil = 28,
}

// A number that no call and no step has.
#[derive(Clone, Copy, PartialEq, Eq, Debug)]
pub struct UnknownCall(pub u32);

impl TryFrom<u32> for Call {
    type Error = UnknownCall;

    ghost try_from_gives = { IsCallOf };

    fn try_from(number: u32) -> Result<Self, UnknownCall> {
        match number {
            1 => Ok(Call::With),
            2 => Ok(Call::Card),
            3 => Ok(Call::Length),
            4 => Ok(Call::Judge),
            5 => Ok(Call::Open),
            6 => Ok(Call::OpenWith),
            7 => Ok(Call::Publish),
            8 => Ok(Call::Receive),
            9 => Ok(Call::Lie),
            10 => Ok(Call::Ask),
            11 => Ok(Call::Return),
            12 => Ok(Call::ReturnUntold),
            13 => Ok(Call::Sent),
            14 => Ok(Call::Waiting),
            16 => Ok(Call::Show),
            20 => Ok(Call::Begin),
            21 => Ok(Call::Copy),
            22 => Ok(Call::CopiesOn),
            23 => Ok(Call::Request),
            24 => Ok(Call::GoDown),
            25 => Ok(Call::Stand),
            26 => Ok(Call::Bounds),
            27 => Ok(Call::StartAgain),
            28 => Ok(Call::Spoil),
            _ => Err(UnknownCall(number)),
        }
    }
}

impl From<Call> for u32 {
    ghost from_gives = { λ call number. number ≡ number_of call };

    fn from(call: Call) -> u32 {
        call as u32
    }
}
