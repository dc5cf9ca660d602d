// The fourteen calls that a house links, as they are exported to C and Rust.
// Kept: answers and kinds are numbers here, and receiving and the roll have two exports each, since the C interface has them so.
#![tactic(auto)]

ghost use Rattle.std.specs.Prelude.{◌≡◌};
ghost use Rattle.lot.specs.Declaration.{declaration_at};
ghost use Rattle.sheet.specs.Kept.{judged};
ghost use Rattle.message.specs.Message.{read_of, request_of, written_of};
ghost use Rattle.meaning.specs.Opening.{Opened, opened, Length, length_answer};
ghost use Rattle.calls.specs.Entered.{result_of};
ghost use Rattle.calls.specs.Call.{published, received};
ghost use Rattle.calls.specs.ByEntry.{received_entry};
ghost use Rattle.calls.specs.Search.{waiting};
ghost use Rattle.calls.specs.Again.{returned, sent_of};
ghost use Rattle.message.specs.Read.{read_answer};
ghost use Rattle.roll.specs.Roll.{line_of, outcome, entered, struck};

use calls::{Outcome, Returned, Sent, Waiting};
use message::{ReadAnswer, Written};
use opening::Asked;
use refusal::answer_of;
use roll::{Ask, Line, Totals};
use sizes::LengthAnswer;

// The length of a book, or answer 9.
#[unsafe(no_mangle)]
pub extern "C" fn gm_length(n: u32, numbers: u32) -> LengthAnswer
    ensures { ◌≡◌ {A = Length} (record { answer = result.answer; length = result.length }) (length_answer n numbers) }
{
    LengthAnswer::from(sizes::length_of(n, numbers))
}

// Opening: 9, 10, 11; else the whole buffer is written.
#[unsafe(no_mangle)]
pub extern "C" fn gm_open(
    book: &mut [u8],
    n: u32,
    numbers: u32,
    own: u32,
    f: u32,
    d: u32,
    season: u32,
    sheet: &[u8],
) -> u8
    ensures { ◌≡◌ {A = Opened} (record { answer = result; book = book.new })
        (opened book.old n numbers own f d season sheet.now) }
{
    let asked = Asked {
        n,
        numbers,
        own,
        f,
        d,
        season,
    };
    answer_of(opening::open_book(book, asked, sheet))
}

// Publishing: 1, 4, 5, 8.
#[unsafe(no_mangle)]
pub extern "C" fn gm_publish(book: &mut [u8], number: u32, declaration: &[u8; 20]) -> Outcome
    ensures { result_of result book.new ≡ published book.old number declaration.now }
{
    publish::publish(book, number, declaration)
}

// Receiving: 1 to 6 in order, then 7 or 13; a request 1 to 4, then 14.
#[unsafe(no_mangle)]
pub extern "C" fn gm_receive(book: &mut [u8], house: u32, message: &[u8]) -> Outcome
    ensures { result_of result book.new ≡ received book.old house message.now }
{
    receive::receive(book, house, message)
}

// Receiving by entry: the head and the named entry are tested, and not the rest. 1 for the head, 2, 3, 4 for the entry, 1 for its slots,
// 4 for the house, 5, 6, then 7 or 13; a request 1 for the head, 3, 4, then 14.
#[unsafe(no_mangle)]
pub extern "C" fn gm_receive_entry(book: &mut [u8], house: u32, message: &[u8]) -> Outcome
    ensures { result_of result book.new ≡ received_entry book.old house message.now }
{
    receive::receive_entry(book, house, message)
}

// The earliest waiting entry, or a plain none, or answer 1.
#[unsafe(no_mangle)]
pub extern "C" fn gm_waiting(book: &[u8]) -> Waiting
    ensures { result ≡ waiting book.now }
{
    waiting::earliest_waiting(book)
}

// A return: 1, else 0 and the request to all.
#[unsafe(no_mangle)]
pub extern "C" fn gm_return(book: &[u8]) -> Returned
    ensures { result ≡ returned book.now }
{
    again::come_back(book)
}

// What was sent: 1, 2 for a kind not 1 to 3, 4; else the message, or a plain none.
#[unsafe(no_mangle)]
pub extern "C" fn gm_sent(book: &[u8], kind: u8, sender: u32, number: u32) -> Sent
    ensures { result ≡ sent_of book.now kind sender number }
{
    again::sent_on(book, kind, sender, number)
}

// Judging: 10, then 5, else 0.
#[unsafe(no_mangle)]
pub extern "C" fn gm_judge(sheet: &[u8], declaration: &[u8; 20]) -> u8
    ensures { result ≡ judged sheet.now declaration.now }
{
    answer_of(judge::judge(sheet, declaration))
}

// The 36 bytes of a message, or answer 2.
#[unsafe(no_mangle)]
pub extern "C" fn gm_write(
    kind: u8,
    season: u32,
    sender: u8,
    number: u8,
    declaration: &[u8; 20],
) -> Written
    ensures { result ≡ written_of kind season sender number (declaration_at declaration.now 0) }
{
    let d = octets::declaration_at(declaration, 0);
    writer::write_message(kind, season, sender, number, d)
}

// The five things of a message, kind 9 and the season of a request, or answer 2.
#[unsafe(no_mangle)]
pub extern "C" fn gm_read(message: &[u8]) -> ReadAnswer
    ensures { result ≡ read_answer (request_of message.now) (read_of message.now) }
{
    reader::parts_of(message)
}

// The line of a declaration's 20 bytes, for the roll.
#[unsafe(no_mangle)]
pub extern "C" fn gm_roll_line(declaration: &[u8; 20]) -> Line
    ensures { result ≡ line_of (declaration_at declaration.now 0) }
{
    let d = octets::declaration_at(declaration, 0);
    lines::line_of(d)
}

// Entering a line on the roll, the totals brought up to date: 20, 21, 22, 23. Kept: the answer is a number, since C takes it so.
#[unsafe(no_mangle)]
pub extern "C" fn gm_roll_insert(roll: &mut [Line], totals: &mut Totals, line: Line) -> u8
    ensures { outcome result roll.new totals.new ≡ entered roll.old totals.old line }
{
    answer_of(sweep::change(roll, totals, Ask::Enter(line)))
}

// Striking a lot from the roll, the totals brought up to date: 20, 24. Kept: the answer is a number, since C takes it so.
#[unsafe(no_mangle)]
pub extern "C" fn gm_roll_strike(roll: &mut [Line], totals: &mut Totals, lot: u32) -> u8
    ensures { outcome result roll.new totals.new ≡ struck roll.old totals.old lot }
{
    answer_of(sweep::change(roll, totals, Ask::Strike(lot)))
}
