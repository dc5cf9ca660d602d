// Where a book's parts lie: the header's fields, its slots, the slots of an entry.
#![tactic(auto)]

ghost use Rattle.std.specs.Prelude.{◌≡◌, ◌*◌, ◌<◌, ◌≤◌, length, get_or};
ghost use Rattle.meaning.specs.Layout.{n_place, numbers_place, own_place, sheet_place, down_place, limit_place, helped_place, head_length};
ghost use Rattle.meaning.specs.Layout.{per_entry, slot_count, length_of, place_from, slot_place, published_slot, entry_slot};
ghost use Rattle.meaning.specs.Layout.{send_slot, echo_slot, ready_slot, ready_sent_slot, delivered_slot};
ghost use Rattle.meaning.specs.Book.{n_of, numbers_of, own_of, season_of, sheet_of, down_of, limit_of, count_help};
ghost use Rattle.meaning.specs.Legal.{Has};
ghost use Rattle.layout.specs.Places.{Within, Lies, Opens};

use sheet::Sheet;

// Where n, S, the own number, the season, the sheet, f, d and the help given to each house stand.
const N: usize = 0;

const NUMBERS: usize = 1;

const OWN: usize = 2;

const SEASON: usize = 3;

pub const SHEET: usize = 7;

pub const DOWN: usize = 29;

pub const LIMIT: usize = 30;

const HELPED: usize = 31;

// The houses n and the entry numbers S, on which alone a book's length and the places of its slots depend.
#[derive(Clone, Copy, PartialEq, Eq, Debug)]
pub struct Shape {
    pub n: u8,
    pub numbers: u8,
}

// The slots of an entry in a book of n houses.
#[tactic(auto, unfolding(meaning::specs::Layout::per_entry))]
fn per_entry(n: u8) -> usize
    ensures { (result ≡ per_entry n) × (result < 1024) }
{
    2 * usize::from(n) + 3
}

impl Shape {
    // The bytes before the slots.
    #[tactic(auto, unfolding(meaning::specs::Layout::head_length))]
    fn head_length(self) -> usize
        ensures { (result ≡ head_length self.n) × (result < 512) }
    {
        HELPED + usize::from(self.n)
    }

    // The entries of so many numbers, one for each sender.
    fn entries_of(self, numbers: u8) -> usize
        ensures { (result ≡ numbers * self.n) × (result ≤ 65025) }
    {
        usize::from(numbers) * usize::from(self.n)
    }

    // The slots of so many entries.
    fn slots_of(self, entries: usize) -> usize
        requires { entries < 65536 }
        ensures { (result ≡ entries * per_entry self.n) × (result < 67108864) }
    {
        entries * per_entry(self.n)
    }

    // The slots of a book.
    #[tactic(auto, unfolding(meaning::specs::Layout::slot_count))]
    pub fn slot_count(self) -> usize
        ensures { (result ≡ slot_count self.n self.numbers) × (result < 134217728) }
    {
        usize::from(self.numbers) + self.slots_of(self.entries_of(self.numbers))
    }

    // Where slot k begins.
    #[tactic(auto, unfolding(meaning::specs::Layout::slot_place))]
    pub fn slot_place(self, k: usize) -> usize
        requires { k < 134217728 }
        ensures { (result ≡ slot_place self.n k) × (result < 4294967296) }
    {
        self.head_length() + slots::LENGTH * k
    }

    // The bytes of a book.
    #[tactic(auto, unfolding(meaning::specs::Layout::slot_place, meaning::specs::Layout::length_of))]
    pub fn book_length(self) -> usize
        ensures { result ≡ length_of self.n self.numbers }
    {
        self.slot_place(self.slot_count())
    }

    // Where what this house published at a number stands.
    pub fn published(self, number: u8) -> usize
        ensures { result ≡ slot_place self.n (published_slot number) }
    {
        self.slot_place(usize::from(number))
    }

    // The entry of a sender and a number.
    #[tactic(auto, unfolding(meaning::specs::Layout::entry_slot))]
    pub fn entry(self, sender: u8, number: u8) -> EntryAt
        ensures { (result.base ≡ slot_place self.n (entry_slot self.n self.numbers number sender 0)) × (result.n ≡ self.n) }
    {
        let entries = self.entries_of(number) + usize::from(sender);
        let first = usize::from(self.numbers) + self.slots_of(entries);
        EntryAt {
            base: self.slot_place(first) as u32,
            n: self.n,
        }
    }
}

// An entry: where its slots begin, in a book of n houses.
// Kept: that it lies within a book (`Has`, `Opens`, `Within`, `Lies`, `Carries`) is a clause and no invariant, since the book is lent
// beside it and changes; and sender and number are handed in apart, since they come so from C and from a message, and may be none of the
// book's.
#[derive(Clone, Copy, PartialEq, Eq, Debug)]
pub struct EntryAt {
    pub base: u32,
    pub n: u8,
}

impl EntryAt {
    // The entry of this book that begins at the same place: n is read off the book, so that a function asks its caller for the place alone.
    pub fn in_book(self, book: &[u8]) -> EntryAt
        requires { Within book.now self.base }
        ensures { Lies book.now result × (result.base ≡ self.base) }
    {
        EntryAt {
            base: self.base,
            n: n_of(book),
        }
    }

    // How many slots it has.
    pub fn slots(self) -> usize
        ensures { result ≡ per_entry self.n }
    {
        per_entry(self.n)
    }

    // Where its slot i begins.
    fn slot(self, i: usize) -> usize
        requires { i < 1024 }
        ensures { result ≡ place_from self.base i }
    {
        self.base as usize + slots::LENGTH * i
    }

    // Where the SEND stands.
    pub fn send(self) -> usize
        ensures { result ≡ place_from self.base send_slot }
    {
        send_at(self.base as usize)
    }

    // Where a house's ECHO stands.
    pub fn echo(self, house: u8) -> usize
        ensures { result ≡ place_from self.base (echo_slot house) }
    {
        self.slot(1 + usize::from(house))
    }

    // Where a house's READY stands.
    pub fn ready(self, house: u8) -> usize
        ensures { result ≡ place_from self.base (ready_slot self.n house) }
    {
        self.slot(1 + usize::from(self.n) + usize::from(house))
    }

    // Where the READY that this house sent stands.
    pub fn ready_sent(self) -> usize
        ensures { result ≡ place_from self.base (ready_sent_slot self.n) }
    {
        self.slot(1 + 2 * usize::from(self.n))
    }

    // Where what was delivered stands.
    pub fn delivered(self) -> usize
        ensures { result ≡ place_from self.base (delivered_slot self.n) }
    {
        self.slot(2 + 2 * usize::from(self.n))
    }
}

// Where the SEND of an entry that begins at `base` stands.
// Kept beside `send`: it is asked of every usize, and an entry's base is below 2^32.
pub fn send_at(base: usize) -> usize
    ensures { result ≡ place_from base send_slot }
{
    base
}

// Kept: six names for six bytes of the header; one function generic in the place, as field::<N>(b), would say no more than b[N] does. And
// that a field stands in the bytes is a clause of each, since some are read before the head is known to be legal, and C lends bare bytes.

// Houses n.
pub fn n_of(b: &[u8]) -> u8
    requires { n_place < length b.now }
    ensures { result ≡ n_of b.now }
{
    b[N]
}

// Entry numbers S.
pub fn numbers_of(b: &[u8]) -> u8
    requires { numbers_place < length b.now }
    ensures { result ≡ numbers_of b.now }
{
    b[NUMBERS]
}

// The shape of a book.
pub fn shape_of(b: &[u8]) -> Shape
    requires { numbers_place < length b.now }
    ensures { (result.n ≡ n_of b.now) × (result.numbers ≡ numbers_of b.now) }
{
    Shape {
        n: n_of(b),
        numbers: numbers_of(b),
    }
}

// The own number.
pub fn own_of(b: &[u8]) -> u8
    requires { own_place < length b.now }
    ensures { result ≡ own_of b.now }
{
    b[OWN]
}

// The season.
pub fn season_of(b: &[u8]) -> u32
    requires { sheet_place ≤ length b.now }
    ensures { result ≡ season_of b.now }
{
    octets::word_at(b, SEASON)
}

// f, how many honest houses may be down.
pub fn down_of(b: &[u8]) -> u8
    requires { down_place < length b.now }
    ensures { result ≡ down_of b.now }
{
    b[DOWN]
}

// The recovery limit d.
pub fn limit_of(b: &[u8]) -> u8
    requires { limit_place < length b.now }
    ensures { result ≡ limit_of b.now }
{
    b[LIMIT]
}

// How often asker p was helped.
pub fn helped_at(b: &[u8], p: u8) -> u8
    requires { helped_place p < length b.now }
    ensures { result ≡ get_or b.now (helped_place p) 0 }
{
    b[HELPED + usize::from(p)]
}

// One more help for asker p.
#[tactic(auto, unfolding(meaning::specs::Book::count_help))]
pub fn count_help(b: &mut [u8], p: u8)
    requires { (helped_place p < length b.old) × (get_or b.old (helped_place p) 0 < 255) }
    ensures { b.new ≡ count_help b.old p }
{
    b[HELPED + usize::from(p)] += 1;
}

// The sheet.
pub fn sheet_of(b: &[u8]) -> Sheet
    requires { down_place ≤ length b.now }
    ensures { result ≡ sheet_of b.now }
{
    judge::sheet_at(b, SHEET)
}

// Where the entry of a sender and a number stands.
pub fn entry_at(book: &[u8], sender: u8, number: u8) -> EntryAt
    requires { Has book.now sender number }
    ensures { Opens book.now sender number result }
{
    shape_of(book).entry(sender, number)
}
