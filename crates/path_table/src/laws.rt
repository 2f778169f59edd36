// Laws of tables. The functions do nothing: what they ensure holds of every table.
ghost use Rattle.std.specs.Prelude.{◌≡◌, ◌^◌};
ghost use Rattle.answers.specs.Sameness.{ClonesAreTheSame, ClonesNeverFail};
ghost use Rattle.path_table.specs.Laws.{AlwaysFair, NeverTooMuch};

use crate::meter::{
    AMPLIFICATION_FACTOR, MAX_COUNTED_BYTES, MAX_GRANTED_BYTES, MAX_OPEN_GRANTS, Meter,
};
use crate::table::PathTable;

/// At every moment of every succession of calls on one table from new, refused ones and handles of other tables among them: on a path
/// that is not validated, the bytes sent and those in open grants are together at most three times the bytes counted. All are sums
/// over what was asked and answered since the path was opened.
pub fn an_unvalidated_path_is_never_sent_too_much(table: &PathTable)
    ensures { NeverTooMuch table.now }
{}

/// The same successions: where a call is not refused by 42, on a path validated or not, a grant is given just where its bytes are few enough, fewer grants
/// are open than may be, and, where it is not validated, its bytes are within the allowance too; and a path closes just where as many
/// grants were used up as were given.
pub fn grants_and_closings_go_by_what_was_done(table: &PathTable)
    ensures { AlwaysFair table.now }
{}

/// The constants are those of the rules.
pub fn the_limits_are_those_of_the_rules()
    ensures factor { AMPLIFICATION_FACTOR ≡ 3 }
    ensures counted { MAX_COUNTED_BYTES ≡ 2 ^ 40 }
    ensures granted { MAX_GRANTED_BYTES ≡ 65535 }
    ensures open { MAX_OPEN_GRANTS ≡ 1000 }
{}

/// A clone of what a record of a table holds is what it was made of, and never fails.
pub fn clones_are_the_same()
    ensures meters { ClonesAreTheSame (⟦<Meter as Clone>⟧.is_clone) }
    ensures meters_come { ClonesNeverFail (⟦<Meter as Clone>⟧.is_infallible) }
{}
