// The functions of the C boundary, one for each operation, as the crates above call them. `firrozka_c` hands each to C under the same name
// and with the same clauses. Nothing checks what a foreign caller passes, so no function here requires anything.
#![tactic(auto)]

ghost use Rattle.std.specs.Prelude.{◌≡◌, true, false, length};
ghost use Rattle.sheet.specs.Sheet.{read_sheet};
ghost use Rattle.plan.specs.Plan.{read_plan};
ghost use Rattle.moves.specs.Moves.{read_moves};
ghost use Rattle.weigh.specs.Weigh.{weigh_answer, weigh_bytes};
ghost use Rattle.planner.specs.Step.{step_answer, plan_after, moves_after};
ghost use Rattle.carry.specs.Carry.{carry_answer, next_after};
ghost use Rattle.inlet.specs.Join.{join_answer, joined_after};
ghost use Rattle.traffic.specs.Page.{page_answer, page_after};
ghost use Rattle.archive.specs.Archive.{write_answer, archive_after, read_answer, sheet_after};
ghost use Rattle.groups.specs.Groups.{groups_answer, groups_after};
ghost use Rattle.tally.specs.Call.{call_of};
ghost use Rattle.tally.specs.Tally.{open_answer, opened, call_answer, tally_after};
ghost use Rattle.in_force.specs.InForce.{in_force, part_of};
ghost use Rattle.firrozka.specs.Version.{version};

use in_force::PartAnswer;
use moves::MovesAnswer;
use plan::PlanAnswer;
use planner::StepAnswer;
use sheet::SheetAnswer;
use tally::{Operation, Tally};
use weigh::WeighAnswer;
use words::WrittenAnswer;

// The version, so that a caller can hold the header that it was compiled with to the library that it was linked with.
pub fn firrozka_version() -> u32
    ensures { result ≡ version }
{
    109
}

// *Read sheet*.
pub fn firrozka_read_sheet(sheet: &[u8]) -> SheetAnswer
    ensures { result ≡ read_sheet sheet.now }
{
    sheet::read_sheet(sheet).into()
}

// *Read plan*.
pub fn firrozka_read_plan(plan: &[u8]) -> PlanAnswer
    ensures { result ≡ read_plan plan.now }
{
    plan::read_plan(plan).into()
}

// *Read moves*.
pub fn firrozka_read_moves(moves: &[u8]) -> MovesAnswer
    ensures { result ≡ read_moves moves.now }
{
    moves::read_moves(moves).into()
}

// *Weigh*.
pub fn firrozka_weigh(sheet: &[u8], plan: &[u8], least: &mut [u8]) -> WeighAnswer
    ensures answer { result ≡ weigh_answer sheet.now plan.now (length least.old) }
    ensures bytes { least.new ≡ weigh_bytes sheet.now plan.now least.old }
{
    weigh::answer(weigh::weigh(sheet, plan, least))
}

// *Plan a step*.
pub fn firrozka_plan_step(sheet: &[u8], old: &[u8], plan: &mut [u8], moves: &mut [u8]) -> StepAnswer
    ensures answer { result ≡ step_answer sheet.now old.now (length plan.old) (length moves.old) }
    ensures plan { plan.new ≡ plan_after sheet.now old.now plan.old (length moves.old) }
    ensures moves { moves.new ≡ moves_after sheet.now old.now moves.old (length plan.old) }
{
    planner::plan_step(sheet, old, plan, moves).into()
}

// *Carry out*.
pub fn firrozka_carry_out(sheet: &[u8], moves: &[u8], next: &mut [u8]) -> WrittenAnswer
    ensures answer { result ≡ carry_answer sheet.now moves.now (length next.old) }
    ensures bytes { next.new ≡ next_after sheet.now moves.now next.old }
{
    words::answer(carry::carry_out(sheet, moves, next))
}

// *Join sheets*.
pub fn firrozka_join_sheets(first: &[u8], second: &[u8], out: &mut [u8]) -> WrittenAnswer
    ensures answer { result ≡ join_answer first.now second.now (length out.old) }
    ensures bytes { out.new ≡ joined_after first.now second.now out.old }
{
    words::answer(inlet::join_sheets(first, second, out))
}

// *Traffic page*.
pub fn firrozka_traffic_page(sheet: &[u8], moves: &[u8], page: &mut [u8]) -> WrittenAnswer
    ensures answer { result ≡ page_answer sheet.now moves.now (length page.old) }
    ensures bytes { page.new ≡ page_after sheet.now moves.now page.old }
{
    words::answer(traffic::traffic_page(sheet, moves, page))
}

// *Write archive*.
pub fn firrozka_write_archive(sheet: &[u8], archive: &mut [u8]) -> WrittenAnswer
    ensures answer { result ≡ write_answer sheet.now (length archive.old) }
    ensures bytes { archive.new ≡ archive_after sheet.now archive.old }
{
    archive::write::answer(archive::write::write_archive(sheet, archive))
}

// *Read archive*.
pub fn firrozka_read_archive(archive: &[u8], sheet: &mut [u8]) -> WrittenAnswer
    ensures answer { result ≡ read_answer archive.now (length sheet.old) }
    ensures bytes { sheet.new ≡ sheet_after archive.now sheet.old }
{
    words::answer(archive::read::read_archive(archive, sheet))
}

// *Groups*.
pub fn firrozka_groups(plan: &[u8], groups: &mut [u8]) -> WrittenAnswer
    ensures answer { result ≡ groups_answer plan.now (length groups.old) }
    ensures bytes { groups.new ≡ groups_after plan.now groups.old }
{
    words::answer(groups::groups(plan, groups))
}

// Opens a tally: the whole of it is written, also where opening is refused.
pub fn firrozka_open_tally(sheet: &[u8], plan: &[u8], t: &mut Tally) -> WeighAnswer
    ensures { (result ≡ open_answer sheet.now plan.now)
        × (t.new ≡ opened sheet.now plan.now) }
{
    let done = tally::open(sheet, plan, &mut t.cells);
    t.head = done.head;
    done.answer
}

// Adds particles in a cell of a tally.
pub fn firrozka_tally_add(t: &mut Tally, holder: u32, subdomain: u32, count: u32) -> WeighAnswer
    ensures { (result ≡ call_answer t.old (call_of true holder subdomain count))
        × (t.new ≡ tally_after t.old (call_of true holder subdomain count)) }
{
    let adding = Operation::Add;
    let done = tally::change(t.head, &mut t.cells, holder, subdomain, count, adding);
    t.head.total = done.total;
    done.answer
}

// Removes particles from a cell of a tally.
pub fn firrozka_tally_remove(t: &mut Tally, holder: u32, subdomain: u32, count: u32) -> WeighAnswer
    ensures { (result ≡ call_answer t.old (call_of false holder subdomain count))
        × (t.new ≡ tally_after t.old (call_of false holder subdomain count)) }
{
    let removing = Operation::Remove;
    let done = tally::change(t.head, &mut t.cells, holder, subdomain, count, removing);
    t.head.total = done.total;
    done.answer
}

// *Tree in force*: the stretch by its place, since no reference can be handed back over the boundary.
pub fn firrozka_tree_in_force(old: &[u8], new: &[u8]) -> PartAnswer
    ensures { result ≡ part_of (in_force old.now new.now) }
{
    in_force::part_in_force(old, new)
}
