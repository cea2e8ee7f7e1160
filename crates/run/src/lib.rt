// One run of the bench program, document 01, 'The bench program': from the bytes of its input to the text that it prints. Reading and
// writing are the program's own.
#![tactic(auto)]

ghost use Rattle.std.specs.Prelude.{◌≡◌, ◌+◌, ◌*◌, ◌≤◌, length, replicate};
ghost use Rattle.limit.specs.Limit.{table_size};
ghost use Rattle.words.specs.Words.{words, part};
ghost use Rattle.words.specs.Buffer.{placed};
ghost use Rattle.sheet.specs.Sheet.{read_sheet};
ghost use Rattle.arrays.specs.Arrays.{at};
ghost use Rattle.sheet.specs.Totals.{totals_in};
ghost use Rattle.transfer.specs.Inner.{Allotted};
ghost use Rattle.run.specs.Run.{own_in, records_text, text_in, run_text, front_size, text_size};
ghost use Rattle.run.specs.Inner.{Printable};

use limit::TABLE_SIZE;
use words::Refusal;

// The longest input that can be accepted, and one byte: a longer one prints what its first bytes print (proofs/LongInput.antt).
pub const FRONT_SIZE: usize = 33_305;

// Buffers that are long enough for every plan and for all moves.
const PLAN_SIZE: usize = 524;

const MOVES_SIZE: usize = 32_264;

// No run prints more bytes: at most 64 for each of 1 + 64 + 64 × 63 lines.
pub const TEXT_SIZE: usize = 262_208;

// A buffer for the front of the input.
pub fn input_front() -> [u8; FRONT_SIZE]
    ensures { length result ≡ front_size }
{
    [0u8; FRONT_SIZE]
}

// What each node of an accepted sheet is left of its own subdomain: its total less its helpers' shares.
fn own_of(sheet: &[u8], nodes: usize, helpands: [u32; 64], shares: [u32; 64]) -> [u32; 64]
    requires { ((read_sheet sheet.now).refusal ≡ 0) × (nodes ≡ (read_sheet sheet.now).n)
        × Allotted nodes (at helpands) (at (totals_in sheet.now)) (at shares) }
    ensures { result ≡ own_in sheet.now nodes helpands shares }
{
    let e = words::word_number(sheet, 2) as usize;
    let table = sheet::table::unpack(sheet, e);
    let totals = sheet::totals::totals(&table, nodes);
    transfer::due::own_amounts(totals, helpands, shares, nodes)
}

// The k words of s from number first on, and zeros behind them.
fn read_words(s: &[u8], first: usize, k: usize) -> [u32; TABLE_SIZE]
    requires { (4 * (first + k) ≤ length s.now) × (k ≤ table_size) }
    ensures { result ≡ placed (part first k (words s.now)) (replicate table_size 0) }
{
    let mut out = [0u32; TABLE_SIZE];
    words::get_words(s, first, &mut out[..k]);
    out
}

// Writes the lines of a plan and moves to the front of out, and gives their length.
fn write_records(sheet: &[u8], plan: &[u8], moves: &[u8], out: &mut [u8]) -> usize
    requires { Printable sheet.now plan.now moves.now × (text_size ≤ length out.old) }
    ensures size { result ≡ length (records_text sheet.now plan.now moves.now) }
    ensures bytes { out.new ≡ placed (records_text sheet.now plan.now moves.now) out.old }
{
    let nodes = words::word_number(plan, 0) as usize;
    let kind = words::word_number(plan, 1);
    let limit = words::word_number(plan, 2);
    let helpands = words::words_64(plan, 3, nodes);
    let shares = words::words_64(plan, 3 + nodes, nodes);
    let own = own_of(sheet, nodes, helpands, shares);
    let e = words::word_number(moves, 1) as usize;
    let routes = read_words(moves, 2, e);
    let counts = read_words(moves, 2 + e, e);
    text::write_step(
        out,
        kind,
        limit,
        nodes,
        helpands,
        shares,
        own,
        &routes[..e],
        &counts[..e],
    )
}

// Plans a step and writes its text to the front of out.
fn step(sheet: &[u8], old: &[u8], out: &mut [u8]) -> usize
    requires { text_size ≤ length out.old }
    ensures size { result ≡ length (text_in sheet.now old.now) }
    ensures bytes { out.new ≡ placed (text_in sheet.now old.now) out.old }
{
    let mut plan = [0u8; PLAN_SIZE];
    let mut moves = [0u8; MOVES_SIZE];
    match planner::plan_step(sheet, old, &mut plan, &mut moves) {
        Err(r) => text::write_refused(out, r.number()),
        Ok(p) => {
            let a = p.plan as usize;
            let b = p.moves as usize;
            write_records(sheet, &plan[..a], &moves[..b], out)
        }
    }
}

// Writes what the bench program prints for this input to the front of out, and gives its length.
pub fn run(input: &[u8], out: &mut [u8]) -> usize
    requires { text_size ≤ length out.old }
    ensures size { result ≡ length (run_text input.now) }
    ensures bytes { out.new ≡ placed (run_text input.now) out.old }
{
    let at = text::split::split(input);
    step(&input[..at], &input[at..], out)
}
