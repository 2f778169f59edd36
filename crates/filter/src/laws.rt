ghost use Rattle.std.specs.Prelude.{◌≡◌, ◌-◌, vec_items};
ghost use Rattle.filter.specs.Histories.{Says, AnswersBy, TakesRefusedAsRecorded, set_says, turning_says};
ghost use Rattle.filter.specs.Orders.{ListsInOrder, GoesOverInOrder};
ghost use Rattle.filter.specs.Sets.{set_means, SetRecords, SetEmpties};
ghost use Rattle.filter.specs.Turning.{Turns, Returns};
ghost use Rattle.filter.specs.declared.exact.ExactSet.{ExactSet};
ghost use Rattle.filter.specs.declared.turning.TurningFilter.{TurningFilter};

use crate::{ExactSet, Filter, HEADS_PER_PLACE, ListingFilter, TurningFilter};

/// A place takes as many bucket heads as the rules say.
pub fn the_limits_are_those_of_the_rules()
    ensures { HEADS_PER_PLACE ≡ 4 }
{}

/// Once it is emptied, an exact set refuses what it recorded since, and everything when full.
pub fn sets_answer_by_what_they_recorded()
    ensures { (s : ExactSet) → AnswersBy (⟦<ExactSet as Filter>⟧.records) (⟦<ExactSet as Filter>⟧.empties) (set_says s.capacity) s }
{}

/// Once it is emptied, a turning filter over an exact set and any other filter refuses just what it recorded since, while that
/// is at most its sure count; and then it answers as the other one would that recorded all of it. The other one takes what it
/// refuses as recorded.
pub fn turning_filters_answer_by_what_they_recorded<B: Filter>(_other: &B)
    ensures { (t : TurningFilter ExactSet B) (other : Says) → AnswersBy B.records B.empties other t.other → TakesRefusedAsRecorded other → AnswersBy (Turns set_means (λ s. vec_items s.held) SetRecords B.records B.empties) (Returns SetEmpties) (turning_says (t.set.capacity - 1) other) t }
{}

/// Whatever calls of its own a listing filter got that told nothing before, it tells just the fingerprints it accepted since it was
/// last emptied, each once, the first recorded first; or none, where it has gone over. It has not while some are sure.
pub fn listing_filters_tell_in_order<S: ListingFilter>(_filter: &S)
    ensures { ListsInOrder S.meaning S.lists S.listed S.records_listed S.empties_listed }
{}

/// A turning filter that goes over records in the other filter, emptied, what it accepted since it was last emptied, the first
/// recorded first, and the new one last. The set may be any that lists, and the other one any filter.
pub fn turning_filters_go_over_in_order<S: ListingFilter, B: Filter>(_set: &S, _other: &B)
    ensures { GoesOverInOrder S.meaning S.listed S.records_listed S.empties_listed B.records B.empties }
{}
