// The record `sheet`: who holds how many particles of which subdomain. *Read sheet* stands here, the table of its counts in
// `table`, the totals of the subdomains in `totals`, the writer in `write`.
#![tactic(auto)]

ghost use Rattle.std.specs.Prelude.{◌≡◌, ◌+◌, ◌*◌, ◌≤◌, length};
ghost use Rattle.fold.specs.Rising.{rising};
ghost use Rattle.limit.specs.Limit.{max_nodes, max_tolerance};
ghost use Rattle.sheet.specs.Sheet.{cells_of, counts_of, cell_fine, running_sum, header_of, read_header, entries_answer, read_sheet, refusal_number, answer_of};

use words::Refusal;

pub mod table;
pub mod totals;
pub mod write;

// What an accepted sheet gives: N, t, E, P and L.
#[derive(Clone, Copy)]
pub struct Sheet {
    pub n: u32,
    pub t: u32,
    pub e: u32,
    pub p: u32,
    pub limit: u32,
}

// Why a sheet is refused, in the order of the checks.
#[derive(Clone, Copy, Debug, PartialEq, Eq)]
pub enum SheetRefusal {
    Short,
    Nodes,
    Tolerance,
    Entries,
    Length,
    Cell,
    Count,
}

// The three words of a header.
#[derive(Clone, Copy)]
pub struct Header {
    pub n: u32,
    pub t: u32,
    pub e: u32,
}

// The answer in document 01's numbers: 0 or the refusal's, and the values named, all 0 in a refusal.
#[repr(C)]
#[derive(Clone, Copy, Default)]
pub struct SheetAnswer {
    pub refusal: u32,
    pub n: u32,
    pub t: u32,
    pub e: u32,
    pub p: u32,
    pub limit: u32,
}

// Whether cell c names two nodes below n.
pub fn cell_fine(n: u32, c: u32) -> bool
    ensures { result ≡ cell_fine n c }
{
    c / 64 < n && c % 64 < n
}

// The running sum of the e counts of s, which stand after its e cells; None where one of them is refused.
#[tactic(auto, using(words::proofs::Words::part_more, words::proofs::Words::part_end), unfolding(crate::specs::Sheet::running_sum))]
fn sum_counts(s: &[u8], e: usize) -> Option<u32>
    requires { 4 * (3 + 2 * e) ≤ length s.now }
    ensures { result ≡ running_sum 0 (counts_of s.now e) }
{
    let mut sum = 0;
    for i in 0..e {
        let c = words::word_number(s, 3 + e + i);
        if c == 0 || limit::MAX_TOTAL - sum < c {
            return None;
        }
        sum += c;
    }
    Some(sum)
}

// The cells and counts of a sheet whose header is right.
fn read_entries(s: &[u8], h: Header) -> Result<Sheet, SheetRefusal>
    requires { (1 ≤ h.n) × (h.n ≤ max_nodes) × (h.t ≤ max_tolerance) }
    ensures { answer_of result ≡ entries_answer s.now h.n h.t h.e }
{
    let Header { n, t, e } = h;
    let k = e as usize;
    if s.len() != 4 * (3 + 2 * k) {
        return Err(SheetRefusal::Length);
    }
    if !words::lists::rising(s, 3, k, |c| cell_fine(n, c)) {
        return Err(SheetRefusal::Cell);
    }
    let p = sum_counts(s, k).ok_or(SheetRefusal::Count)?;
    Ok(Sheet {
        n,
        t,
        e,
        p,
        limit: limit::limit(p, n, t),
    })
}

// The header of a sheet: the checks that look at its three words alone.
#[tactic(auto, unfolding(crate::specs::Sheet::read_header))]
pub fn read_header(s: &[u8]) -> Result<Header, SheetRefusal>
    ensures { header_of result ≡ read_header s.now }
{
    if s.len() < 12 {
        return Err(SheetRefusal::Short);
    }
    let n = words::word_number(s, 0);
    let t = words::word_number(s, 1);
    let e = words::word_number(s, 2);
    if !limit::one_to(limit::MAX_NODES, n) {
        return Err(SheetRefusal::Nodes);
    }
    if !limit::one_to(limit::MAX_TOLERANCE, t) {
        return Err(SheetRefusal::Tolerance);
    }
    if n * n < e {
        return Err(SheetRefusal::Entries);
    }
    Ok(Header { n, t, e })
}

// *Read sheet*.
#[tactic(auto, unfolding(crate::specs::Sheet::read_sheet, crate::specs::Sheet::read_header))]
pub fn read_sheet(s: &[u8]) -> Result<Sheet, SheetRefusal>
    ensures { answer_of result ≡ read_sheet s.now }
{
    let h = read_header(s)?;
    read_entries(s, h)
}

impl Refusal for SheetRefusal {
    ghost number_of = { refusal_number };

    fn number(self) -> u32 {
        match self {
            SheetRefusal::Short => 1,
            SheetRefusal::Nodes => 2,
            SheetRefusal::Tolerance => 3,
            SheetRefusal::Entries => 4,
            SheetRefusal::Length => 5,
            SheetRefusal::Cell => 6,
            SheetRefusal::Count => 7,
        }
    }
}

impl From<Result<Sheet, SheetRefusal>> for SheetAnswer {
    ghost from_gives = { λ reading answer. answer ≡ answer_of reading };

    fn from(reading: Result<Sheet, SheetRefusal>) -> SheetAnswer {
        match reading {
            Ok(Sheet { n, t, e, p, limit }) => SheetAnswer {
                refusal: 0,
                n,
                t,
                e,
                p,
                limit,
            },
            Err(r) => SheetAnswer {
                refusal: r.number(),
                ..SheetAnswer::default()
            },
        }
    }
}
