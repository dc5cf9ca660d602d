// Why a call refuses, and the number that document 01 and the requests answer it with.
#![tactic(auto)]

ghost use Rattle.std.specs.Prelude.{◌≡◌};
ghost use Rattle.refusal.specs.Answer.{number_of, answer_of};

// Why a call refuses, in the order of the answers.
#[derive(Clone, Copy, Debug, PartialEq, Eq)]
pub enum Refusal {
    // The lent bytes are no legal book.
    NotLegal,
    // No message.
    Malformed,
    // Of another season than the book.
    OtherSeason,
    // No such sender, number or house in the book.
    NotThere,
    // Not plausible by the sheet.
    NotPlausible,
    // A SEND from another house than the entry's sender.
    NotFromSender,
    // This kind was accepted from this house, with the same declaration.
    SaidBefore,
    // This number was published before.
    PublishedBefore,
    // n, S, own number, f or d is not allowed.
    NotAllowed,
    // The bytes are no legal sheet.
    NotASheet,
    // The buffer is shorter or longer than the book.
    OtherLength,
    // This kind was accepted from this house, with another declaration.
    SaidOtherwise,
    // The asker was helped as often as may be.
    HelpedEnough,
    // The roll or the totals are not sound.
    NotSound,
    // A reading is NaN or infinite.
    NotFinite,
    // The lot is on the roll already.
    LotThere,
    // No line is free.
    NoneFree,
    // The lot is not on the roll.
    LotNotThere,
}

impl From<Refusal> for u8 {
    ghost from_gives = { λ refusal answer. answer ≡ number_of refusal };

    fn from(refusal: Refusal) -> u8 {
        match refusal {
            Refusal::NotLegal => 1,
            Refusal::Malformed => 2,
            Refusal::OtherSeason => 3,
            Refusal::NotThere => 4,
            Refusal::NotPlausible => 5,
            Refusal::NotFromSender => 6,
            Refusal::SaidBefore => 7,
            Refusal::PublishedBefore => 8,
            Refusal::NotAllowed => 9,
            Refusal::NotASheet => 10,
            Refusal::OtherLength => 11,
            Refusal::SaidOtherwise => 13,
            Refusal::HelpedEnough => 14,
            Refusal::NotSound => 20,
            Refusal::NotFinite => 21,
            Refusal::LotThere => 22,
            Refusal::NoneFree => 23,
            Refusal::LotNotThere => 24,
        }
    }
}

// The answer of a call that gives nothing but it: 0, or why it refuses.
pub fn answer_of(outcome: Result<(), Refusal>) -> u8
    ensures { result ≡ answer_of outcome }
{
    match outcome {
        Ok(()) => 0,
        Err(refusal) => u8::from(refusal),
    }
}
