// The C boundary: the library libfirrozka.a, whose functions include/firrozka.h declares. Each calls the function of `firrozka` that has its
// name, and promises the same. Nothing checks what a foreign caller passes, so no function here requires anything. A slice crosses as a
// pointer and a length.
#![tactic(auto)]

ghost use Rattle.std.specs.Prelude.{◌≡◌, true, false, length};
ghost use Rattle.sheet.specs.Sheet.{read_sheet};
ghost use Rattle.plan.specs.Plan.{read_plan};
ghost use Rattle.moves.specs.Moves.{read_moves};
ghost use Rattle.weigh.specs.Weigh.{weigh_answer, weigh_bytes};
ghost use Rattle.planner.specs.Step.{step_answer, plan_after, moves_after};
ghost use Rattle.carry.specs.Carry.{carry_answer, next_after};
ghost use Rattle.inlet.specs.Join.{join_answer, joined_after};
ghost use Rattle.traffic.specs.Page.{page_answer, page_after};
ghost use Rattle.archive.specs.Archive.{write_answer, archive_after, read_answer, sheet_after};
ghost use Rattle.groups.specs.Groups.{groups_answer, groups_after};
ghost use Rattle.tally.specs.Call.{call_of};
ghost use Rattle.tally.specs.Tally.{open_answer, opened, call_answer, tally_after};
ghost use Rattle.in_force.specs.InForce.{in_force, part_of};
ghost use Rattle.firrozka.specs.Version.{version};

use in_force::PartAnswer;
use moves::MovesAnswer;
use plan::PlanAnswer;
use planner::StepAnswer;
use sheet::SheetAnswer;
use tally::Tally;
use weigh::WeighAnswer;
use words::WrittenAnswer;

// The version, so that a caller can hold the header that it was compiled with to the library that it was linked with.
#[unsafe(no_mangle)]
pub extern "C" fn firrozka_version() -> u32
    ensures { result ≡ version }
{
    firrozka::firrozka_version()
}

// *Read sheet*.
#[unsafe(no_mangle)]
pub extern "C" fn firrozka_read_sheet(sheet: &[u8]) -> SheetAnswer
    ensures { result ≡ read_sheet sheet.now }
{
    firrozka::firrozka_read_sheet(sheet)
}

// *Read plan*.
#[unsafe(no_mangle)]
pub extern "C" fn firrozka_read_plan(plan: &[u8]) -> PlanAnswer
    ensures { result ≡ read_plan plan.now }
{
    firrozka::firrozka_read_plan(plan)
}

// *Read moves*.
#[unsafe(no_mangle)]
pub extern "C" fn firrozka_read_moves(moves: &[u8]) -> MovesAnswer
    ensures { result ≡ read_moves moves.now }
{
    firrozka::firrozka_read_moves(moves)
}

// *Weigh*.
#[unsafe(no_mangle)]
pub extern "C" fn firrozka_weigh(sheet: &[u8], plan: &[u8], least: &mut [u8]) -> WeighAnswer
    ensures answer { result ≡ weigh_answer sheet.now plan.now (length least.old) }
    ensures bytes { least.new ≡ weigh_bytes sheet.now plan.now least.old }
{
    firrozka::firrozka_weigh(sheet, plan, least)
}

// *Plan a step*.
#[unsafe(no_mangle)]
pub extern "C" fn firrozka_plan_step(
    sheet: &[u8],
    old: &[u8],
    plan: &mut [u8],
    moves: &mut [u8],
) -> StepAnswer
    ensures answer { result ≡ step_answer sheet.now old.now (length plan.old) (length moves.old) }
    ensures plan { plan.new ≡ plan_after sheet.now old.now plan.old (length moves.old) }
    ensures moves { moves.new ≡ moves_after sheet.now old.now moves.old (length plan.old) }
{
    firrozka::firrozka_plan_step(sheet, old, plan, moves)
}

// *Carry out*.
#[unsafe(no_mangle)]
pub extern "C" fn firrozka_carry_out(sheet: &[u8], moves: &[u8], next: &mut [u8]) -> WrittenAnswer
    ensures answer { result ≡ carry_answer sheet.now moves.now (length next.old) }
    ensures bytes { next.new ≡ next_after sheet.now moves.now next.old }
{
    firrozka::firrozka_carry_out(sheet, moves, next)
}

// *Join sheets*.
#[unsafe(no_mangle)]
pub extern "C" fn firrozka_join_sheets(first: &[u8], second: &[u8], out: &mut [u8]) -> WrittenAnswer
    ensures answer { result ≡ join_answer first.now second.now (length out.old) }
    ensures bytes { out.new ≡ joined_after first.now second.now out.old }
{
    firrozka::firrozka_join_sheets(first, second, out)
}

// *Traffic page*.
#[unsafe(no_mangle)]
pub extern "C" fn firrozka_traffic_page(
    sheet: &[u8],
    moves: &[u8],
    page: &mut [u8],
) -> WrittenAnswer
    ensures answer { result ≡ page_answer sheet.now moves.now (length page.old) }
    ensures bytes { page.new ≡ page_after sheet.now moves.now page.old }
{
    firrozka::firrozka_traffic_page(sheet, moves, page)
}

// *Write archive*.
#[unsafe(no_mangle)]
pub extern "C" fn firrozka_write_archive(sheet: &[u8], archive: &mut [u8]) -> WrittenAnswer
    ensures answer { result ≡ write_answer sheet.now (length archive.old) }
    ensures bytes { archive.new ≡ archive_after sheet.now archive.old }
{
    firrozka::firrozka_write_archive(sheet, archive)
}

// *Read archive*.
#[unsafe(no_mangle)]
pub extern "C" fn firrozka_read_archive(archive: &[u8], sheet: &mut [u8]) -> WrittenAnswer
    ensures answer { result ≡ read_answer archive.now (length sheet.old) }
    ensures bytes { sheet.new ≡ sheet_after archive.now sheet.old }
{
    firrozka::firrozka_read_archive(archive, sheet)
}

// *Groups*.
#[unsafe(no_mangle)]
pub extern "C" fn firrozka_groups(plan: &[u8], groups: &mut [u8]) -> WrittenAnswer
    ensures answer { result ≡ groups_answer plan.now (length groups.old) }
    ensures bytes { groups.new ≡ groups_after plan.now groups.old }
{
    firrozka::firrozka_groups(plan, groups)
}

// Opens a tally: the whole of it is written, also where opening is refused.
#[unsafe(no_mangle)]
pub extern "C" fn firrozka_open_tally(sheet: &[u8], plan: &[u8], t: &mut Tally) -> WeighAnswer
    ensures { (result ≡ open_answer sheet.now plan.now)
        × (t.new ≡ opened sheet.now plan.now) }
{
    firrozka::firrozka_open_tally(sheet, plan, t)
}

// Adds particles in a cell of a tally.
#[unsafe(no_mangle)]
pub extern "C" fn firrozka_tally_add(
    t: &mut Tally,
    holder: u32,
    subdomain: u32,
    count: u32,
) -> WeighAnswer
    ensures { (result ≡ call_answer t.old (call_of true holder subdomain count))
        × (t.new ≡ tally_after t.old (call_of true holder subdomain count)) }
{
    firrozka::firrozka_tally_add(t, holder, subdomain, count)
}

// Removes particles from a cell of a tally.
#[unsafe(no_mangle)]
pub extern "C" fn firrozka_tally_remove(
    t: &mut Tally,
    holder: u32,
    subdomain: u32,
    count: u32,
) -> WeighAnswer
    ensures { (result ≡ call_answer t.old (call_of false holder subdomain count))
        × (t.new ≡ tally_after t.old (call_of false holder subdomain count)) }
{
    firrozka::firrozka_tally_remove(t, holder, subdomain, count)
}

// *Tree in force*: the stretch by its place, since no reference can be handed back over the boundary.
#[unsafe(no_mangle)]
pub extern "C" fn firrozka_tree_in_force(old: &[u8], new: &[u8]) -> PartAnswer
    ensures { result ≡ part_of (in_force old.now new.now) }
{
    firrozka::firrozka_tree_in_force(old, new)
}
