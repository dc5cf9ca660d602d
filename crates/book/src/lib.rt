// Which bytes are a legal book, which have a legal head, and which entries have slots of one form each.
#![tactic(auto)]

ghost use Rattle.std.specs.Prelude.{◌≡◌, ◌≤◌, length};
ghost use Rattle.meaning.specs.Layout.{helped_place, per_entry};
ghost use Rattle.meaning.specs.Book.{n_of};
ghost use Rattle.meaning.specs.Legal.{helps_ok, legal, head_legal, row_ok};
ghost use Rattle.layout.specs.Places.{Within};
ghost use Rattle.book.specs.Parts.{sized};

use layout::EntryAt;

// Each of the first k askers was helped at most d times.
fn are_helps_ok(b: &[u8], d: u8, k: u8) -> bool
    requires { helped_place k ≤ length b.now }
    ensures { result ≡ helps_ok b.now d k }
{
    (0..k).all(|p| layout::helped_at(b, p) <= d)
}

// n, S, own number, f and d are allowed, and there are as many bytes as n and S ask.
#[tactic(auto, using(crate::proofs::Legality::not_sized, crate::proofs::Legality::not_allowed, crate::proofs::Legality::sized_is))]
fn is_sized(b: &[u8]) -> bool
    ensures { result ≡ sized b.now }
{
    if b.len() <= layout::LIMIT {
        return false;
    }
    let shape = layout::shape_of(b);
    sizes::is_allowed(
        u32::from(shape.n),
        u32::from(shape.numbers),
        u32::from(layout::own_of(b)),
        u32::from(layout::down_of(b)),
        u32::from(layout::limit_of(b)),
    ) && b.len() == shape.book_length()
}

// Whether the head is a legal book's: all but the slots.
#[tactic(auto, using(crate::proofs::Legality::head_rules))]
pub fn is_head_legal(b: &[u8]) -> bool
    ensures { result ≡ head_legal b.now }
{
    is_sized(b)
        && are_helps_ok(b, layout::limit_of(b), layout::n_of(b))
        && judge::is_sheet_at(b, layout::SHEET)
}

// Whether the bytes are a legal book.
#[tactic(auto, using(crate::proofs::Legality::slots_rules))]
pub fn is_legal(b: &[u8]) -> bool
    ensures { result ≡ legal b.now }
{
    if !is_head_legal(b) {
        return false;
    }
    let shape = layout::shape_of(b);
    slots::are_slots_ok(b, shape.slot_place(0), shape.slot_count())
}

// Whether each slot of the entry has its one form.
pub fn is_entry_ok(b: &[u8], entry: EntryAt) -> bool
    requires { Within b.now entry.base }
    ensures { result ≡ row_ok b.now entry.base (per_entry (n_of b.now)) }
{
    let entry = entry.in_book(b);
    slots::are_slots_ok(b, entry.send(), entry.slots())
}
