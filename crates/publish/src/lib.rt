// Publishing.
#![tactic(auto)]

ghost use Rattle.std.specs.Prelude.{◌≡◌};
ghost use Rattle.calls.specs.Entered.{result_of};
ghost use Rattle.calls.specs.Call.{published};
ghost use Rattle.publish.specs.Given.{given};

use calls::Outcome;
use refusal::Refusal;

// 1, 4, 5, 8; else the own entry is marked, and its SEND given.
fn enter(book: &mut [u8], number: u32, declaration: &[u8; 20]) -> Result<Outcome, Refusal>
    ensures { result_of (given result) book.new ≡ published book.old number declaration.now }
{
    if !book::is_legal(book) {
        return Err(Refusal::NotLegal);
    }
    if number >= u32::from(layout::numbers_of(book)) {
        return Err(Refusal::NotThere);
    }
    if !gates::is_plausible(
        layout::sheet_of(book),
        octets::declaration_at(declaration, 0),
    ) {
        return Err(Refusal::NotPlausible);
    }
    // Kept: `as u8`, which here and below the test makes exact; try_from would bring a refusal that never comes.
    let at = layout::shape_of(book).published(number as u8);
    if slots::is_full(book, at) {
        return Err(Refusal::PublishedBefore);
    }
    let own = layout::own_of(book);
    let season = layout::season_of(book);
    slots::put_slot(book, at, *declaration);
    Ok(reply::announce(season, own, number as u8, *declaration))
}

// Publishing: 1, 4, 5, 8.
pub fn publish(book: &mut [u8], number: u32, declaration: &[u8; 20]) -> Outcome
    ensures { result_of result book.new ≡ published book.old number declaration.now }
{
    match enter(book, number, declaration) {
        Ok(outcome) => outcome,
        Err(refusal) => reply::refuse(refusal.into()),
    }
}
