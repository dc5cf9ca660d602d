// The sheet's 22 bytes, and judging a declaration at the bytes.
#![tactic(auto)]

ghost use Rattle.std.specs.Prelude.{◌≡◌, ◌+◌, ◌<◌, if◌then◌else◌, length};
ghost use Rattle.refusal.specs.Answer.{answer_of};
ghost use Rattle.sheet.specs.Kept.{gate_of, kept_legal, laid, sheet_at, sheet_legal_at, is_sheet, judged};

use refusal::Refusal;
use sheet::{Gate, Kept, Sheet};

// The legal gate that they are the one form of, if they are one's.
#[tactic(auto, unfolding(sheet::specs::Kept::kept_legal, sheet::specs::Sheet::gate_legal))]
fn legal_gate(k: Kept) -> Option<Gate>
    ensures { result ≡ (if kept_legal k then Some (gate_of k) else None) }
{
    let gate = kept::form_of(k)?;
    if kept::has_measurable_limits(k) && gates::is_ordered(gate) {
        Some(gate)
    } else {
        None
    }
}

// The legal sheet whose one form stands in the 22 bytes at i, if one's does.
#[tactic(auto, unfolding(sheet::specs::Kept::sheet_at, sheet::specs::Kept::sheet_legal_at))]
fn legal_sheet_at(bytes: &[u8], i: usize) -> Option<Sheet>
    requires { i + 21 < length bytes.now }
    ensures { result ≡ (if sheet_legal_at bytes.now i then Some (sheet_at bytes.now i) else None) }
{
    Some(Sheet {
        cap: octets::word_at(bytes, i),
        moisture: legal_gate(kept::kept_at(bytes, i + 4))?,
        conductivity: legal_gate(kept::kept_at(bytes, i + 13))?,
    })
}

// The legal sheet whose one form these bytes are, if they are one's.
#[tactic(auto, unfolding(sheet::specs::Kept::is_sheet))]
fn legal_sheet(bytes: &[u8]) -> Option<Sheet>
    ensures { result ≡ (if is_sheet bytes.now then Some (sheet_at bytes.now 0) else None) }
{
    if bytes.len() == 22 {
        legal_sheet_at(bytes, 0)
    } else {
        None
    }
}

// The sheet whose 22 bytes stand at i, whatever they are.
// Kept: beside `legal_sheet_at`, since the sheet of a book is read where its legality was tested, and is tested once.
#[tactic(auto, unfolding(sheet::specs::Kept::sheet_at))]
pub fn sheet_at(bytes: &[u8], i: usize) -> Sheet
    requires { i + 21 < length bytes.now }
    ensures { result ≡ sheet_at bytes.now i }
{
    Sheet {
        cap: octets::word_at(bytes, i),
        moisture: kept::gate_of(kept::kept_at(bytes, i + 4)),
        conductivity: kept::gate_of(kept::kept_at(bytes, i + 13)),
    }
}

// The 22 bytes at i are the one form of a legal sheet.
// Kept, this and the one below: a book's sheet stands at a place, and a sheet that is lent has to have its length.
pub fn is_sheet_at(bytes: &[u8], i: usize) -> bool
    requires { i + 21 < length bytes.now }
    ensures { result ≡ sheet_legal_at bytes.now i }
{
    legal_sheet_at(bytes, i).is_some()
}

// These bytes are the one form of a legal sheet.
pub fn is_sheet(bytes: &[u8]) -> bool
    ensures { result ≡ is_sheet bytes.now }
{
    legal_sheet(bytes).is_some()
}

// A sheet's 22 bytes: the cap, and each gate as it is kept.
#[tactic(auto, using(words::proofs::Laws::be32_to_be_bytes))]
pub fn lay_sheet(cap: u32, m: Kept, c: Kept) -> [u8; 22]
    ensures { result ≡ laid cap m c }
{
    let k = cap.to_be_bytes();
    let l = m.low.to_be_bytes();
    let h = m.high.to_be_bytes();
    let e = c.low.to_be_bytes();
    let f = c.high.to_be_bytes();
    [
        k[0], k[1], k[2], k[3], m.kind, l[0], l[1], l[2], l[3], h[0], h[1], h[2], h[3], c.kind,
        e[0], e[1], e[2], e[3], f[0], f[1], f[2], f[3],
    ]
}

// Judging: 10, then 5.
#[tactic(auto, using(crate::proofs::Judged::judging))]
pub fn judge(sheet: &[u8], declaration: &[u8; 20]) -> Result<(), Refusal>
    ensures { answer_of result ≡ judged sheet.now declaration.now }
{
    let Some(sheet) = legal_sheet(sheet) else {
        return Err(Refusal::NotASheet);
    };
    if !gates::is_plausible(sheet, octets::declaration_at(declaration, 0)) {
        return Err(Refusal::NotPlausible);
    }
    Ok(())
}
