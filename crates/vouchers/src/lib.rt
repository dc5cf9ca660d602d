// Counting vouchers: how many slots of a row hold the same declaration.
#![tactic(auto)]

ghost use Rattle.std.specs.Prelude.{◌≡◌, ◌≤◌, length};
ghost use Rattle.card.specs.Count.{count};
ghost use Rattle.entry.specs.Entry.{holds};
ghost use Rattle.meaning.specs.Layout.{place_from};
ghost use Rattle.meaning.specs.Slot.{slot_at};

// How many of the n slots from `at` on hold d. The slot that holds d is filled once, and its three numbers are taken once: bytes 0 to 7,
// with the presence byte and the lot; 5 to 12; 13 to 20. So an absent slot costs one test, and so does one that differs early.
pub fn count_same(b: &[u8], at: usize, n: usize, d: [u8; 20]) -> usize
    requires { place_from at n ≤ length b.now }
    ensures { (result ≡ count (λ p. holds (slot_at b.now (place_from at p)) d) n) × (result ≤ n) }
{
    let mut slot = [0; slots::LENGTH];
    slots::put_slot(&mut slot, 0, d);
    let first = slots::eight_at(&slot, 0);
    let second = slots::eight_at(&slot, 5);
    let third = slots::eight_at(&slot, 13);
    let mut found = 0;
    // Kept: tried as a filter and a count over the range, by which an absent slot takes 8 instructions for 4.
    // Kept: three numbers of eight bytes, and no == of slices, by which an absent slot and an equal one take more (MEASURES).
    for p in 0..n {
        let i = at + slots::LENGTH * p;
        if slots::eight_at(b, i) == first
            && slots::eight_at(b, i + 5) == second
            && slots::eight_at(b, i + 13) == third
        {
            found += 1;
        }
    }
    found
}
