//! Which calls stay since others do: the last partner of a call whose channel doesn't balance.

use balance::Imbalance;

/// The unit of a call; none where there is no such call.
fn unit_of(of_calls: &[usize], call: usize) -> Option<usize> {
    of_calls.get(call).copied()
}

/// Whether the call's unit is marked.
fn is_out(of_calls: &[usize], marks: &[bool], call: usize) -> bool {
    unit_of(of_calls, call).is_some_and(|unit| marks.get(unit).copied().unwrap_or(false))
}

/// Takes the mark off the unit of the last of these calls, where all of them are marked and one of
/// the others isn't. Answers whether it did.
fn keep_last(of_calls: &[usize], marks: &mut [bool], calls: &[usize], others: &[usize]) -> bool {
    let is_needed = others.iter().any(|call| !is_out(of_calls, marks, *call))
        && calls.iter().all(|call| is_out(of_calls, marks, *call));
    if is_needed
        && let Some(last) = calls.last()
        && let Some(unit) = unit_of(of_calls, *last)
        && let Some(mark) = marks.get_mut(unit)
    {
        *mark = false;
        return true;
    }
    false
}

/// Takes marks off units that are to be left out, so that each call that stays keeps a partner: of
/// a channel whose sends and takers differ in number the last send stays as long as a taker does,
/// and the last taker as long as a send does. Answers whether it took one off. `of_calls` has the
/// unit of each call.
pub fn keep_partners(unbalanced: &[Imbalance], of_calls: &[usize], marks: &mut [bool]) -> bool {
    let mut kept = false;
    for _turn in 0..unbalanced.len() {
        let mut more = false;
        for sides in unbalanced {
            more |= keep_last(of_calls, marks, &sides.sends, &sides.takers);
            more |= keep_last(of_calls, marks, &sides.takers, &sides.sends);
        }
        if !more {
            break;
        }
        kept = true;
    }
    kept
}
