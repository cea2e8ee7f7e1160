// A step planned and carried out, by the two functions of `firrozka` one after the other, which the C boundary exports. Its contract is
// demand 3: nothing stands between what is claimed and what the functions of the library do.
#![tactic(auto)]

ghost use Rattle.std.specs.Prelude.{◌≡◌, length, take};
ghost use Rattle.planner.specs.Step.{step_answer, plan_after, moves_after};
ghost use Rattle.carry.specs.Carry.{carry_answer, next_after};
ghost use Rattle.claim.specs.Claim.{Demand3};

use planner::StepAnswer;
use words::WrittenAnswer;

// What the two operations answered.
#[derive(Drop)]
pub struct Answers {
    pub step: StepAnswer,
    pub carry: WrittenAnswer,
}

// Plans a step, and carries out the moves just written on the same sheet. A refused step gives length 0 for its moves: no bytes are
// handed on, and carrying out is refused too.
pub fn plan_and_carry_out(
    sheet: &[u8],
    old: &[u8],
    plan: &mut [u8],
    moves: &mut [u8],
    next: &mut [u8],
) -> Answers
    ensures step { result.step ≡ step_answer sheet.now old.now (length plan.old) (length moves.old) }
    ensures plan { plan.new ≡ plan_after sheet.now old.now plan.old (length moves.old) }
    ensures moves { moves.new ≡ moves_after sheet.now old.now moves.old (length plan.old) }
    ensures carry { result.carry ≡ carry_answer sheet.now (take result.step.moves moves.new) (length next.old) }
    ensures next { next.new ≡ next_after sheet.now (take result.step.moves moves.new) next.old }
    ensures demand { Demand3 sheet.now old.now plan.old moves.old next.old result.step result.carry
        plan.new next.new }
{
    let step = firrozka::firrozka_plan_step(sheet, old, plan, moves);
    let size = step.moves as usize;
    let carry = firrozka::firrozka_carry_out(sheet, &moves[..size], next);
    Answers {
        step: step,
        carry: carry,
    }
}
