// Half a list first: one part of the moves carried out, and then the other on the sheet that follows, by the function of `firrozka` that
// the C boundary exports. Its contract is request 2026-10: nothing stands between what is shown and what the library does.
#![tactic(auto)]

ghost use Rattle.std.specs.Prelude.{◌≡◌, length, take};
ghost use Rattle.carry.specs.Carry.{carry_answer, next_after};
ghost use Rattle.halves.specs.Halves.{HalfFirst};

use words::WrittenAnswer;

// What the two calls answered.
#[derive(Drop)]
pub struct Answers {
    pub first: WrittenAnswer,
    pub second: WrittenAnswer,
}

// Carries out the first part, and then the second on the sheet just written. A refused call gives length 0 for its sheet: no bytes are
// handed on, and the second call is refused too.
pub fn carry_out_halves(
    sheet: &[u8],
    first: &[u8],
    second: &[u8],
    between: &mut [u8],
    next: &mut [u8],
) -> Answers
    ensures first { result.first ≡ carry_answer sheet.now first.now (length between.old) }
    ensures between { between.new ≡ next_after sheet.now first.now between.old }
    ensures second { result.second ≡ carry_answer (take result.first.bytes between.new) second.now (length next.old) }
    ensures next { next.new ≡ next_after (take result.first.bytes between.new) second.now next.old }
    ensures halves { HalfFirst sheet.now first.now second.now between.old next.old result.first
        result.second next.new }
{
    let a = firrozka::firrozka_carry_out(sheet, first, between);
    let size = a.bytes as usize;
    let b = firrozka::firrozka_carry_out(&between[..size], second, next);
    Answers {
        first: a,
        second: b,
    }
}
