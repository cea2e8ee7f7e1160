// Request 2026-08, arrivals between steps: a *tally* is opened from a sheet and a plan, and lent to each call, which adds or removes
// particles in a cell and says whether the plan's tree holds. What lies in a tally is in its caller's hands, so a call relies on nothing
// that it has not tested. The head goes by value; the cells are lent, and what changes of them is changed where it lies. The C boundary
// lends the whole.
#![tactic(auto)]

ghost use Rattle.std.specs.Prelude.{◌≡◌, suc, ◌+◌, ◌≤◌, ltb};
ghost use Rattle.limit.specs.Limit.{max_nodes, max_total};
ghost use Rattle.arrays.specs.Arrays.{at};
ghost use Rattle.weigh.specs.Checks.{check_number};
ghost use Rattle.weigh.specs.Weigh.{refused};
ghost use Rattle.weigh.specs.Inner.{Weighable};
ghost use Rattle.tally.specs.Call.{adding, call_of, counted};
ghost use Rattle.tally.specs.Renew.{renewed};
ghost use Rattle.tally.specs.Tally.{number_of, answer_of, no_tally, opened, open_result, counted_cells, holding};
ghost use Rattle.tally.specs.Tally.{tally_with, number_in, tally_after, call_result};
ghost use Rattle.tally.specs.Inner.{named, checked_number, amount_number, Countable, CellsChangeable};

use limit::{MAX_NODES, MAX_TOTAL};
use sheet::Sheet;
use tree::links::Helpers;
use weigh::WeighAnswer;
use weigh::check::CheckRefusal;
use words::Refusal;

pub mod lay;
pub mod renew;

// 64 totals, 64 leasts, and 4,096 counts at 64 × holder + subdomain: in C they are three arrays. As one they are lent together.
pub const CELLS: usize = 4224;

// What a tally has beside its cells.
#[repr(C)]
#[derive(Clone, Copy)]
pub struct Head {
    pub n: u32,
    pub limit: u32,
    pub total: u32,
    pub helpands: [u32; 64],
}

#[repr(C)]
#[derive(Drop)]
pub struct Tally {
    pub head: Head,
    pub cells: [u32; CELLS],
}

// What a call does with its particles.
#[derive(Clone, Copy, Debug, PartialEq, Eq)]
pub enum Operation {
    Add,
    Remove,
}

// Why an opening or a call is refused: as *weigh* up to 24; the call names no cell or no particles; it removes more than the cell has;
// it makes the total too large.
#[derive(Clone, Copy, Debug, PartialEq, Eq)]
pub enum TallyRefusal {
    Check(CheckRefusal),
    NoCell,
    TooFew,
    TooMany,
}

impl Refusal for TallyRefusal {
    ghost number_of = { number_of };

    fn number(self) -> u32 {
        match self {
            TallyRefusal::Check(r) => r.number(),
            TallyRefusal::NoCell => 58,
            TallyRefusal::TooFew => 59,
            TallyRefusal::TooMany => 60,
        }
    }
}

// What an opening gives: its answer, and the head of the tally.
#[derive(Drop)]
pub struct Opened {
    pub answer: WeighAnswer,
    pub head: Head,
}

// What a call gives: its answer, and the total as it is then.
#[derive(Drop)]
pub struct Called {
    pub answer: WeighAnswer,
    pub total: u32,
}

// Whether the tree holds, or why there is no answer, in document 02's numbers.
fn answer(holding: Result<bool, TallyRefusal>) -> WeighAnswer
    ensures { result ≡ answer_of holding }
{
    weigh::answer(holding)
}

// Opens a tally from a sheet and a plan that were read.
fn open_read(sheet: &[u8], plan: &[u8], s: Sheet, cells: &mut [u32; CELLS]) -> Opened
    requires { Weighable sheet.now plan.now s }
    ensures { (result ≡ open_result sheet.now plan.now)
        × (cells.new ≡ (opened sheet.now plan.now).cells) }
{
    let nodes = s.n as usize;
    let table = sheet::table::unpack(sheet, s.e as usize);
    let totals = sheet::totals::totals(&table, nodes);
    let helpands = words::words_64(plan, 3, nodes);
    let leasts = weigh::tree_leasts(totals, helpands, nodes, s.limit);
    let holds = tree::least::holds(leasts, nodes, s.limit);
    *cells = lay::lay_out(&totals, &leasts, &table);
    Opened {
        answer: answer(Ok(holds)),
        head: Head {
            n: s.n,
            limit: s.limit,
            total: s.p,
            helpands,
        },
    }
}

// A refused opening: "a tally with N 0".
fn open_refused(r: CheckRefusal, cells: &mut [u32; CELLS]) -> Opened
    ensures { (result ≡ record { answer = refused (check_number r); head = no_tally.head }) × (cells.new ≡ no_tally.cells) }
{
    *cells = [0u32; CELLS];
    Opened {
        answer: answer(Err(TallyRefusal::Check(r))),
        head: Head {
            n: 0,
            limit: 0,
            total: 0,
            helpands: [0u32; 64],
        },
    }
}

// Opens a tally.
pub fn open(sheet: &[u8], plan: &[u8], cells: &mut [u32; CELLS]) -> Opened
    ensures { (result ≡ open_result sheet.now plan.now)
        × (cells.new ≡ (opened sheet.now plan.now).cells) }
{
    match weigh::check::read_pair(sheet, plan) {
        Err(r) => open_refused(r, cells),
        Ok(s) => open_read(sheet, plan, s, cells),
    }
}

// Whether a call names a cell and some particles, in a tally of helpands that are nodes.
fn is_named(n: u32, helpands: [u32; 64], holder: u32, subdomain: u32, count: u32) -> bool
    ensures { result ≡ named n (at helpands) holder subdomain count }
{
    n <= MAX_NODES
        && holder < n
        && subdomain < n
        && count != 0
        && plan::tree::helpands_below(helpands, n)
}

// Whether so many more make the total too large. The sum may take more than 32 bits.
fn exceeds(total: u32, count: u32) -> bool
    ensures { result ≡ ltb max_total (total + count) }
{
    total as u64 + count as u64 > MAX_TOTAL as u64
}

// Checks a call by what its cell has, what its subdomain has, and the total.
fn check_amounts(
    has: u32,
    own: u32,
    total: u32,
    count: u32,
    operation: Operation,
) -> Result<(), TallyRefusal>
    ensures { checked_number result ≡ amount_number has own total count (adding operation) }
{
    if has > own || own > total {
        return Err(TallyRefusal::NoCell);
    }
    match operation {
        Operation::Add if exceeds(total, count) => Err(TallyRefusal::TooMany),
        Operation::Remove if has < count => Err(TallyRefusal::TooFew),
        _ => Ok(()),
    }
}

// Checks a call, and the tally that it is lent.
fn check_call(
    h: &Head,
    cells: &[u32; CELLS],
    holder: u32,
    subdomain: u32,
    count: u32,
    operation: Operation,
) -> Result<(), TallyRefusal>
    ensures { checked_number result
        ≡ number_in (tally_with h.now cells.now) (call_of (adding operation) holder subdomain count) }
{
    if !is_named(h.n, h.helpands, holder, subdomain, count) {
        return Err(TallyRefusal::NoCell);
    }
    let n = subdomain as usize;
    let has = cells[128 + sheet::table::cell(holder as usize, n)];
    check_amounts(has, cells[n], h.total, count, operation)
}

// What a call makes of a number of particles.
fn count_in(x: u32, count: u32, operation: Operation) -> u32
    requires { Countable (adding operation) count x }
    ensures { result ≡ counted (adding operation) count x }
{
    match operation {
        Operation::Add => x + count,
        Operation::Remove => x - count,
    }
}

// Counts the particles of an accepted call, and renews the leasts. The helpands are those of the head, and n is the subdomain.
fn change_cells(
    cells: &mut [u32; CELLS],
    helpands: &[u32; 64],
    nodes: usize,
    limit: u32,
    holder: usize,
    n: usize,
    count: u32,
    operation: Operation,
)
    requires { CellsChangeable nodes (at helpands.now) cells.old (call_of (adding operation) holder n count) }
    ensures { cells.new
        ≡ renewed nodes (at helpands.now) limit (suc nodes) n
        (counted_cells cells.old (call_of (adding operation) holder n count)) }
{
    let cell = 128 + sheet::table::cell(holder, n);
    let has = cells[cell];
    let own = cells[n];
    cells[cell] = count_in(has, count, operation);
    cells[n] = count_in(own, count, operation);
    let helpers = Helpers::of(helpands, nodes);
    renew::renew_from(&helpers, limit, n, cells);
}

// "The tree holds if no least is above L." It looks at all of them, which takes less time than to stop at the first.
fn holds(cells: &[u32; CELLS], nodes: usize, limit: u32) -> bool
    requires { nodes ≤ max_nodes }
    ensures { result ≡ holding nodes limit cells.now }
{
    let mut fine = true;
    for least in &cells[64..64 + nodes] {
        fine &= *least <= limit;
    }
    fine
}

// A call that adds or removes particles in the cell of a holder and a subdomain.
pub fn change(
    h: Head,
    cells: &mut [u32; CELLS],
    holder: u32,
    subdomain: u32,
    count: u32,
    operation: Operation,
) -> Called
    ensures { (result ≡ call_result (tally_with h cells.old) (call_of (adding operation) holder subdomain count))
        × (cells.new ≡ (tally_after (tally_with h cells.old) (call_of (adding operation) holder subdomain count)).cells) }
{
    match check_call(&h, cells, holder, subdomain, count, operation) {
        Err(r) => Called {
            answer: answer(Err(r)),
            total: h.total,
        },
        Ok(()) => {
            let nodes = h.n as usize;
            let k = holder as usize;
            let n = subdomain as usize;
            change_cells(cells, &h.helpands, nodes, h.limit, k, n, count, operation);
            Called {
                answer: answer(Ok(holds(cells, nodes, h.limit))),
                total: count_in(h.total, count, operation),
            }
        }
    }
}
