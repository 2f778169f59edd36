ghost use Rattle.std.specs.Prelude.{ℕ};
ghost use Rattle.filter.specs.Histories.{turning_says};
ghost use Rattle.bloom.specs.Marks.{bloom_says};
ghost use Rattle.bloom.specs.Sizes.{bits_for};
ghost use Rattle.token_log.specs.Budgets.{Budgeted};
ghost use Rattle.gate.specs.Successions.{terms};
ghost use Rattle.gate.specs.declared.Gate.{Gate};
ghost use Rattle.gate.specs.Machine.{AGateAnswersAsItsLog, EveryVerdictIsItsMachines};
ghost use Rattle.gate.specs.Laws.{NoTokenIsHonouredTwice, EveryIssuedTokenInDateIsHonoured, NoTwoWithOneTokenAreHonoured, AnIssuedTokenIsHonouredUnlessBarred, AnIssuedTokenSaysItsIpAndSecond, AnIssuedTokenCarriesItsPair, ARetryTokenValidatesItsAddress};

use crate::Gate;
use filter::Filter;
use sealing::SealingScheme;
use token_log::{BloomTokenLog, TokenLog, TwoGenerationLog};

/// Over every scheme and every log, used before or not: of all arrivals at a gate, no two are honoured whose tokens
/// carry one low nonce half and issue time.
pub fn no_token_is_honoured_twice<S: SealingScheme, L: TokenLog>(gate: &Gate<S, L>)
    ensures { NoTokenIsHonouredTwice S.image S.opened L.logs gate.now }
{
    token_log::no_pair_is_accepted_twice(&gate.log);
}

/// Over every scheme and every log, used before or not: of any two arrivals at a gate that brought the same bytes as a token, not
/// both are honoured.
pub fn no_two_arrivals_with_one_token_are_honoured<S: SealingScheme, L: TokenLog>(gate: &Gate<S, L>)
    ensures { NoTwoWithOneTokenAreHonoured S.image S.opened L.logs gate.now }
{
    no_token_is_honoured_twice(gate);
}

/// Over every scheme and every log: a token that an earlier issue wrote, arriving in date from its IP, is honoured, if it gets a
/// verdict, just if the log does not then bar its low nonce half and second under the validation lifetime.
pub fn an_issued_token_is_honoured_unless_barred<S: SealingScheme, L: TokenLog>(gate: &Gate<S, L>)
    ensures { AnIssuedTokenIsHonouredUnlessBarred S.image S.opened L.bars L.logs gate.now }
{
    sealing::a_written_token_says_its_content(&gate.scheme);
}

/// Over every scheme and every filter, where the log was unused when the gate was made and the validation lifetime is
/// above zero: every token that an earlier issue wrote, arriving in date from its IP, is honoured if it gets a verdict,
/// unless an earlier honoured arrival has its low nonce half or an issue time past its expiry, or as many as the
/// filters' sure count were honoured before.
pub fn every_issued_token_in_date_is_honoured<S: SealingScheme, F: Filter>(
    gate: &Gate<S, TwoGenerationLog<F>>,
)
    ensures { EveryIssuedTokenInDateIsHonoured S.image S.opened F.meaning F.records F.empties gate.now }
{
    an_issued_token_is_honoured_unless_barred(gate);
    token_log::every_fresh_pair_is_accepted(&gate.log);
}

/// A token that a gate issues says the IP it was issued for and the second it was issued in, and carries the low half of its
/// nonce.
pub fn an_issued_token_carries_its_low_half_and_second<S: SealingScheme, L: TokenLog>(
    gate: &Gate<S, L>,
)
    ensures says { AnIssuedTokenSaysItsIpAndSecond (terms S.image S.opened gate.now) }
    ensures pair { AnIssuedTokenCarriesItsPair (terms S.image S.opened gate.now) }
{
    sealing::a_written_token_says_its_content(&gate.scheme);
}

/// A retry token that a gate wrote for a slip, arriving in date from the slip's address, validates it.
pub fn a_retry_token_in_date_validates_its_address<S: SealingScheme, L: TokenLog>(gate: &Gate<S, L>)
    ensures { ARetryTokenValidatesItsAddress (terms S.image S.opened gate.now) }
{
    sealing::a_written_token_says_its_content(&gate.scheme);
}

/// Over every scheme and every log: where each call on the log is answered as by a machine on plain values, each call on the
/// gate is, refused ones included; so what the calls brought fixes every verdict.
pub fn a_gate_answers_as_its_log<S: SealingScheme, L: TokenLog>(gate: &Gate<S, L>)
    ensures { AGateAnswersAsItsLog S.image S.opened L.logs gate.now }
{}

/// The same of a gate over a log from a budget, which was unused when the gate was made: while a generation recorded at most
/// the sure count it bars just these, and then just what has all its positions among those of what it recorded.
pub fn a_gate_over_a_budget_answers_as_its_machine<S: SealingScheme>(gate: &Gate<S, BloomTokenLog>)
    ensures { (budget k c : ℕ) (start : Gate S _) → Budgeted budget k c start.log → EveryVerdictIsItsMachines S.image S.opened (⟦<BloomTokenLog as TokenLog>⟧.logs) (turning_says c (bloom_says (bits_for budget) k)) start gate.now }
{
    a_gate_answers_as_its_log(gate);
    token_log::a_log_from_a_budget_answers_as_its_machine();
}
