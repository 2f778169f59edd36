ghost use Rattle.std.specs.Prelude.{◌≡◌, ℕ};
ghost use Rattle.filter.specs.Histories.{Says, AnswersBy, set_says, turning_says};
ghost use Rattle.filter.specs.Sets.{SetEmpties};
ghost use Rattle.filter.specs.declared.exact.ExactSet.{ExactSet};
ghost use Rattle.token_log.specs.declared.two_generations.TwoGenerationLog.{TwoGenerationLog};
ghost use Rattle.bloom.specs.Marks.{bloom_says};
ghost use Rattle.bloom.specs.Means.{bits_of, BloomEmpties};
ghost use Rattle.bloom.specs.Sizes.{bits_for};
ghost use Rattle.token_log.specs.Budgets.{Budgeted};
ghost use Rattle.token_log.specs.Generations.{Begun, Logs};
ghost use Rattle.token_log.specs.Machine.{AnswersAsItsMachine};

use crate::{BloomTokenLog, TokenLog, TwoGenerationLog};
use bloom::{BloomFilter, Words};
use filter::{ExactSet, Filter};

/// Over any filter: a new log over two that answer alike, once emptied, answers every succession of calls as its machine.
pub fn a_log_answers_as_its_machine<F: Filter>(_log: &TwoGenerationLog<F>)
    ensures { (says : Says) (one two : F) → AnswersBy F.records F.empties says one → AnswersBy F.records F.empties says two → (s : TwoGenerationLog F) → Begun F.empties one two s → AnswersAsItsMachine (Logs F.records F.empties) says s }
{}

/// A new log over two exact sets of one capacity.
pub fn a_log_over_sets_answers_as_its_machine()
    ensures { (one two : ExactSet) → two.capacity ≡ one.capacity → (s : TwoGenerationLog ExactSet) → Begun SetEmpties one two s → AnswersAsItsMachine (⟦<TwoGenerationLog<ExactSet> as TokenLog>⟧.logs) (set_says one.capacity) s }
{}

/// A new log over two Bloom filters of as many bits and positions, over any memory.
pub fn a_log_over_bloom_filters_answers_as_its_machine<W: Words>(
    _log: &TwoGenerationLog<BloomFilter<W>>,
)
    ensures { (one two : _) → two.count ≡ one.count → two.k ≡ one.k → (s : _) → Begun BloomEmpties one two s → AnswersAsItsMachine (⟦<TwoGenerationLog<BloomFilter<W>> as TokenLog>⟧.logs) (bloom_says (bits_of one) one.k) s }
{}

/// An unused log from a budget, over any memory for words: a generation refuses just what it recorded while that is at most the
/// sure count, and then just what has all its positions among those of what it recorded.
pub fn a_log_from_a_budget_over_any_memory_answers_as_its_machine<W: Words>(_log: &BloomTokenLog<W>)
    ensures { (budget k c : ℕ) (s : _) → Budgeted budget k c s → AnswersAsItsMachine (⟦<BloomTokenLog<W> as TokenLog>⟧.logs) (turning_says c (bloom_says (bits_for budget) k)) s }
{}

/// The same over the usual memory.
pub fn a_log_from_a_budget_answers_as_its_machine()
    ensures { (budget k c : ℕ) (s : _) → Budgeted budget k c s → AnswersAsItsMachine (⟦<BloomTokenLog as TokenLog>⟧.logs) (turning_says c (bloom_says (bits_for budget) k)) s }
{}
