// The wall card as a constant table, and the counts that the steps compare with.
#![tactic(auto)]

ghost use Rattle.std.specs.Prelude.{◌≡◌, true};
ghost use Rattle.card.specs.Card.{houses_ok, down_ok, column_of, counts_of};

use card::{Column, Counts};

// The largest number of houses.
const LARGEST: usize = 31;

// The largest number of honest houses that may be down.
const MOST_DOWN: u32 = 4;

// The columns for 1 house, 2 houses and so on, to the largest number.
const CARD: [Column; LARGEST] = [
    Column { t: 0, quorum: 1 },
    Column { t: 0, quorum: 2 },
    Column { t: 0, quorum: 2 },
    Column { t: 1, quorum: 3 },
    Column { t: 1, quorum: 4 },
    Column { t: 1, quorum: 4 },
    Column { t: 2, quorum: 5 },
    Column { t: 2, quorum: 6 },
    Column { t: 2, quorum: 6 },
    Column { t: 3, quorum: 7 },
    Column { t: 3, quorum: 8 },
    Column { t: 3, quorum: 8 },
    Column { t: 4, quorum: 9 },
    Column { t: 4, quorum: 10 },
    Column { t: 4, quorum: 10 },
    Column { t: 5, quorum: 11 },
    Column { t: 5, quorum: 12 },
    Column { t: 5, quorum: 12 },
    Column { t: 6, quorum: 13 },
    Column { t: 6, quorum: 14 },
    Column { t: 6, quorum: 14 },
    Column { t: 7, quorum: 15 },
    Column { t: 7, quorum: 16 },
    Column { t: 7, quorum: 16 },
    Column { t: 8, quorum: 17 },
    Column { t: 8, quorum: 18 },
    Column { t: 8, quorum: 18 },
    Column { t: 9, quorum: 19 },
    Column { t: 9, quorum: 20 },
    Column { t: 9, quorum: 20 },
    Column { t: 10, quorum: 21 },
];

// Whether the card has a column for n houses.
#[tactic(auto, unfolding(card::specs::Card::houses_ok, card::specs::Card::largest))]
pub fn is_houses(n: u32) -> bool
    ensures { result ≡ houses_ok n }
{
    1 <= n && n as usize <= LARGEST
}

// The card's column for n houses. The card is borrowed, so that it stays among the constants: as a value it is laid on the stack first.
#[tactic(auto, unfolding(card::specs::Card::column_of))]
fn column_of(n: usize) -> Column
    requires { houses_ok n ≡ true }
    ensures { result ≡ column_of n }
{
    let card = &CARD;
    card[n - 1]
}

// Whether f houses of n may be down: 0 to 4, and some t fits.
// Kept: n and f as two numbers, since f is asked of n before there is a column of both.
#[tactic(auto, unfolding(card::specs::Card::down_ok, card::specs::Card::most_down))]
pub fn is_down(n: u32, f: u32) -> bool
    ensures { result ≡ down_ok n f }
{
    f <= MOST_DOWN && 2 * f < n
}

// The counts for n houses of which f may be down: the card's column for n - 2f, and f more to the quorum and to deliver.
pub fn counts_of(n: usize, f: usize) -> Counts
    requires { (houses_ok n ≡ true) × (down_ok n f ≡ true) }
    ensures { result ≡ counts_of n f }
{
    let column = column_of(n - 2 * f);
    Counts {
        t: column.t,
        quorum: column.quorum + f,
        amplify: column.t + 1,
        deliver: 2 * column.t + f + 1,
    }
}
