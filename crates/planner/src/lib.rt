// *Plan a step*: from a sheet and an old plan to the new plan and the moves, in two lent buffers.
#![tactic(auto)]

ghost use Rattle.std.specs.Prelude.{◌≡◌, ◌≢◌, true, cond, ℕ, ◌+◌, ◌*◌, ◌≤◌, length, IfSome, is_some, unwrap_or};
ghost use Rattle.fold.specs.Sum.{sum};
ghost use Rattle.arrays.specs.Arrays.{at};
ghost use Rattle.limit.specs.Limit.{max_nodes, max_total, table_size};
ghost use Rattle.words.specs.Buffer.{placed, after_call};
ghost use Rattle.plan.specs.Kinds.{kind_number};
ghost use Rattle.plan.specs.Tree.{helpands_below, Tree};
ghost use Rattle.sheet.specs.Sheet.{answer_of as sheet_answer};
ghost use Rattle.sheet.specs.Totals.{totals_of};
ghost use Rattle.transfer.specs.List.{routes_in, counts_in};
ghost use Rattle.decide.specs.Decide.{own_numbers, decided};
ghost use Rattle.planner.specs.Step.{refused, number_of, answer_of, old_of, read_old, old_helpands, plan_record, moves_record, written_answer, step_answer, plan_after, moves_after};
ghost use Rattle.planner.specs.Inner.{StepRead, OldTreeRead};
ghost use Rattle.planner.specs.declared.StepRefusal.TheVariants.{Plan as OfPlan};

use decide::Decision;
use limit::TABLE_SIZE;
use plan::{Kind, PlanRefusal};
use sheet::{Sheet, SheetRefusal};
use transfer::list::MoveList;
use transfer::matching::list_moves;
use words::Refusal;

// Why planning is refused, in the order of the checks.
#[derive(Clone, Copy, Debug, PartialEq, Eq)]
pub enum StepRefusal {
    Sheet(SheetRefusal),
    Plan(PlanRefusal),
    NodesDiffer,
    PlanBuffer,
    MovesBuffer,
}

impl From<PlanRefusal> for StepRefusal {
    ghost from_gives = { λ r made. made ≡ OfPlan r };

    fn from(r: PlanRefusal) -> StepRefusal {
        StepRefusal::Plan(r)
    }
}

impl Refusal for StepRefusal {
    ghost number_of = { number_of };

    fn number(self) -> u32 {
        match self {
            StepRefusal::Sheet(r) => r.number(),
            StepRefusal::Plan(r) => r.number(),
            StepRefusal::NodesDiffer => 21,
            StepRefusal::PlanBuffer => 22,
            StepRefusal::MovesBuffer => 23,
        }
    }
}

// What a planned step gives: kind, L, and the lengths of the plan and of the moves in bytes.
#[derive(Clone, Copy)]
pub struct PlannedStep {
    pub kind: Kind,
    pub limit: u32,
    pub plan: u32,
    pub moves: u32,
}

// The answer in document 01's numbers: 0 or the refusal's, and the values named, all 0 in a refusal. The last two are lengths in bytes.
#[repr(C)]
#[derive(Clone, Copy)]
pub struct StepAnswer {
    pub refusal: u32,
    pub kind: u32,
    pub limit: u32,
    pub plan: u32,
    pub moves: u32,
}

// The refusal of a sheet that was not accepted.
fn not_read(reading: Result<Sheet, SheetRefusal>) -> Result<PlannedStep, StepRefusal>
    requires { (sheet_answer reading).refusal ≢ 0 }
    ensures { answer_of result ≡ refused (sheet_answer reading).refusal }
{
    match reading {
        Err(r) => Err(StepRefusal::Sheet(r)),
        // never: such a sheet has no refusal
        Ok(_) => Err(StepRefusal::NodesDiffer),
    }
}

// Reads an old plan for a sheet of n nodes, and says whether it has a tree. "An empty or kind 0 old plan has no old tree."
fn read_old(old: &[u8], n: u32) -> Result<bool, StepRefusal>
    ensures { old_of result ≡ read_old old.now n }
{
    if old.is_empty() {
        return Ok(false);
    }
    let p = plan::read_plan(old)?;
    if p.n != n {
        return Err(StepRefusal::NodesDiffer);
    }
    Ok(!p.kind.is_primary())
}

// The helpands of the old tree, if there is one.
fn old_helpands(old: &[u8], tree: bool, nodes: usize) -> Option<[u32; 64]>
    requires { (nodes ≤ max_nodes) × (tree ≡ true → OldTreeRead old.now nodes) }
    ensures helpands { result ≡ cond tree (Some (old_helpands old.now tree nodes)) None }
    ensures has_tree { is_some result ≡ tree }
    ensures known { unwrap_or result (own_numbers nodes) ≡ old_helpands old.now tree nodes }
    ensures below { IfSome result (λ h. helpands_below nodes (at h) ≡ true) }
    ensures rooted { IfSome result (λ h. (r : ℕ) × Tree nodes (at h) r) }
{
    if tree {
        return Some(words::words_64(old, 3, nodes));
    }
    None
}

// What is decided with the totals of a sheet and an old plan that has a tree or none.
fn decide_read(
    table: &[u32; TABLE_SIZE],
    totals: [u32; 64],
    old: &[u8],
    tree: bool,
    s: Sheet,
) -> Decision
    requires { (1 ≤ s.n) × (s.n ≤ max_nodes) × (totals ≡ totals_of s.n table.now) × (sum s.n (at totals) ≡ s.p) × (s.p ≤ max_total)
        × (tree ≡ true → OldTreeRead old.now s.n) }
    ensures { result ≡ decided s.n s.p s.limit table.now totals tree (old_helpands old.now tree s.n) }
{
    let nodes = s.n as usize;
    let helpands = old_helpands(old, tree, nodes);
    decide::decide_step(table, totals, helpands, nodes, s.p, s.limit)
}

// Writes the plan and the moves to buffers that are long enough.
fn put_records(plan: &mut [u8], moves: &mut [u8], n: u32, limit: u32, d: Decision, found: &MoveList)
    requires { (n ≤ max_nodes) × (length (routes_in found.now) ≤ table_size) × (length (routes_in found.now) ≡ length (counts_in found.now))
        × (4 * (3 + 2 * n) ≤ length plan.old) × (4 * (2 + 2 * length (routes_in found.now)) ≤ length moves.old) }
    ensures plan { plan.new ≡ placed (plan_record n limit d) plan.old }
    ensures moves { moves.new ≡ placed (moves_record n (routes_in found.now) (counts_in found.now)) moves.old }
{
    plan::write::put_plan(plan, n, d.kind.into(), limit, d.helpands, d.shares);
    moves::write::put_moves(moves, n, found.routes(), found.counts());
}

// The same to any buffers: both lengths are tested before the first store.
fn write_records(
    plan: &mut [u8],
    moves: &mut [u8],
    n: u32,
    limit: u32,
    d: Decision,
    found: &MoveList,
) -> Result<PlannedStep, StepRefusal>
    requires { n ≤ max_nodes }
    ensures answer { answer_of result ≡ written_answer (kind_number d.kind) limit (plan_record n limit d)
        (moves_record n (routes_in found.now) (counts_in found.now)) (length plan.old) (length moves.old) }
    ensures plan { plan.new ≡ after_call (answer_of result).refusal (plan_record n limit d) plan.old }
    ensures moves { moves.new
        ≡ after_call (answer_of result).refusal (moves_record n (routes_in found.now) (counts_in found.now)) moves.old }
{
    let plan_size = 4 * (3 + 2 * n as usize);
    if plan.len() < plan_size {
        return Err(StepRefusal::PlanBuffer);
    }
    let moves_size = 4 * (2 + 2 * found.len());
    if moves.len() < moves_size {
        return Err(StepRefusal::MovesBuffer);
    }
    put_records(plan, moves, n, limit, d, found);
    Ok(PlannedStep {
        kind: d.kind,
        limit,
        plan: plan_size as u32,
        moves: moves_size as u32,
    })
}

// Plans a step for a sheet that was read and an old plan with a tree or none.
fn plan_read(
    sheet: &[u8],
    old: &[u8],
    s: Sheet,
    tree: bool,
    plan: &mut [u8],
    moves: &mut [u8],
) -> Result<PlannedStep, StepRefusal>
    requires { StepRead sheet.now old.now s tree }
    ensures answer { answer_of result ≡ step_answer sheet.now old.now (length plan.old) (length moves.old) }
    ensures plan { plan.new ≡ plan_after sheet.now old.now plan.old (length moves.old) }
    ensures moves { moves.new ≡ moves_after sheet.now old.now moves.old (length plan.old) }
{
    let nodes = s.n as usize;
    let table = sheet::table::unpack(sheet, s.e as usize);
    let totals = sheet::totals::totals(&table, nodes);
    let d = decide_read(&table, totals, old, tree, s);
    let mut found = MoveList::new();
    list_moves(&table, totals, d.helpands, d.shares, nodes, &mut found);
    write_records(plan, moves, s.n, s.limit, d, &found)
}

// *Plan a step*. "A refused sheet ends planning before the old plan is looked at."
pub fn plan_step(
    sheet: &[u8],
    old: &[u8],
    plan: &mut [u8],
    moves: &mut [u8],
) -> Result<PlannedStep, StepRefusal>
    ensures answer { answer_of result ≡ step_answer sheet.now old.now (length plan.old) (length moves.old) }
    ensures plan { plan.new ≡ plan_after sheet.now old.now plan.old (length moves.old) }
    ensures moves { moves.new ≡ moves_after sheet.now old.now moves.old (length plan.old) }
{
    let reading = sheet::read_sheet(sheet);
    let Ok(s) = reading else {
        return not_read(reading);
    };
    let tree = read_old(old, s.n)?;
    plan_read(sheet, old, s, tree, plan, moves)
}

impl From<Result<PlannedStep, StepRefusal>> for StepAnswer {
    ghost from_gives = { λ step answer. answer ≡ answer_of step };

    fn from(step: Result<PlannedStep, StepRefusal>) -> StepAnswer {
        match step {
            Ok(p) => StepAnswer {
                refusal: 0,
                kind: p.kind.into(),
                limit: p.limit,
                plan: p.plan,
                moves: p.moves,
            },
            Err(r) => StepAnswer {
                refusal: r.number(),
                kind: 0,
                limit: 0,
                plan: 0,
                moves: 0,
            },
        }
    }
}
