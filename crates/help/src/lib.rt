// Helping: a request of the book's season, counted and answered.
#![tactic(auto)]

ghost use Rattle.std.specs.Prelude.{◌≡◌, true, ◌<◌};
ghost use Rattle.meaning.specs.Book.{season_of};
ghost use Rattle.meaning.specs.Legal.{head_legal};
ghost use Rattle.calls.specs.Entered.{result_of};
ghost use Rattle.calls.specs.Call.{requested};
ghost use Rattle.reply.specs.Handed.{help_of};

use refusal::Refusal;

// A request of the book's season: 4, then 14, else the asker is helped once more.
pub fn hear_request(book: &mut [u8], house: u32) -> Result<(), Refusal>
    requires { head_legal book.old ≡ true }
    ensures { result_of (help_of result) book.new ≡ requested book.old house (season_of book.old) }
{
    if house >= u32::from(layout::n_of(book)) {
        return Err(Refusal::NotThere);
    }
    // Kept: `as u8`, which the test before makes exact; try_from would bring a refusal that never comes.
    let asker = house as u8;
    if layout::helped_at(book, asker) >= layout::limit_of(book) {
        return Err(Refusal::HelpedEnough);
    }
    layout::count_help(book, asker);
    Ok(())
}
