ghost use Rattle.answers.specs.Sameness.{TellsSameness, ClonesAreTheSame, ClonesNeverFail};
ghost use Rattle.std.specs.Prelude.{◌≡◌, MatchOption};
ghost use Rattle.filter.specs.Turning.{turned, telling, listing, Poured, Turns, Returns};
ghost use Rattle.filter.specs.TurningLaws.{turns_mean, returns_mean, turns_append, returns_begin};
ghost use Rattle.std.proofs.Common.{rules};

use crate::{Filter, ListingFilter};
use answers::FilterCause;

/// Which of its two filters a turning filter records in.
#[derive(Clone, Copy, PartialEq, Eq, Debug)]
pub enum Form {
    /// The set, which lists.
    Listing,
    /// The other filter: it has gone over.
    Over,
}

/// A set that lists, with another filter to go over to: it does so at a new fingerprint once the set has but one sure place
/// left, and records in the other one all that the set listed. Emptied, it lists again. Its sure count is one below the set's.
// The form stands beside both, as neither gives its memory up: emptied, the filter lists again.
#[derive(Drop)]
pub struct TurningFilter<S, B> {
    set: S,
    other: B,
    form: Form,
}

// Records each fingerprint that the set tells in the other filter.
fn pour<S: ListingFilter, B: Filter>(set: &S, other: &mut B)
    ensures { Poured B.records (S.listed set.now) other.old other.new }
{
    // By index: for a `for` over `(0..set.told()).filter_map(|i| set.tell(i))` in a generic function no proof is made, since
    // the check's own definition `iterator-loop-f` has the wrong type.
    for i in 0..set.told() {
        if let Some(f) = set.tell(i) {
            let _ = other.record(f);
        }
    }
}

impl<S: ListingFilter, B: Filter> TurningFilter<S, B> {
    /// A filter that lists, over a set, which is emptied, and the filter to go over to, which is left as it is: it is emptied as
    /// the turning filter goes over. A set of the sure count 1 or 0 leaves the sure count 0.
    pub fn new(mut set: S, other: B) -> TurningFilter<S, B>
        ensures { Returns S.empties_listed (record { set = set; other = other; form = Form.Listing }) result }
    {
        set.empty_listed();
        TurningFilter {
            set,
            other,
            form: Form::Listing,
        }
    }

    /// Takes the filter apart: the set and the other filter come back as they stand, whichever of the two recorded last.
    pub fn into_parts(self) -> (S, B)
        ensures { result ≡ (self.set, self.other) }
    {
        let TurningFilter { set, other, .. } = self;
        (set, other)
    }

    // The set, while it lists.
    fn listing(&self) -> Option<&S>
        ensures { MatchOption result (self.now.form ≡ Form.Over) (λ s. (self.now.form ≡ Form.Listing) × (s.now ≡ self.now.set)) }
    {
        match self.form {
            Form::Listing => Some(&self.set),
            Form::Over => None,
        }
    }
}

impl<S: ListingFilter, B: Filter> Filter for TurningFilter<S, B> {
    ghost meaning = { turned S.meaning B.meaning };

    ghost records = { Turns S.meaning S.listed S.records_listed B.records B.empties };

    ghost empties = { Returns S.empties_listed };

    ghost recorded = { turns_mean S.meaning S.listed S.records_listed B.meaning B.records B.empties (λ s s' f r w. S.recorded s s' f r (S.recorded_listed s s' f r w)) B.recorded S.just };

    ghost emptied = { returns_mean S.meaning S.empties_listed B.meaning (λ s s' w. S.emptied s s' (S.emptied_listed s s' w)) };

    fn record(&mut self, f: u64) -> Result<(), FilterCause> {
        match (self.form, self.set.sure()) {
            (Form::Over, _) => self.other.record(f),
            (Form::Listing, 1) if !self.set.holds(f) => {
                self.other.empty();
                pour(&self.set, &mut self.other);
                let _ = self.other.record(f);
                self.form = Form::Over;
                Ok(())
            }
            (Form::Listing, _) => self.set.record_listed(f),
        }
    }

    fn empty(&mut self) {
        self.set.empty_listed();
        self.form = Form::Listing;
    }
}

impl<S: ListingFilter, B: Filter> ListingFilter for TurningFilter<S, B> {
    ghost listed = { telling S.listed };

    ghost lists = { listing S.lists };

    ghost records_listed = { Turns S.meaning S.listed S.records_listed B.records B.empties };

    ghost empties_listed = { Returns S.empties_listed };

    ghost recorded_listed = { λ t t' f r w. w };

    ghost emptied_listed = { λ t t' w. w };

    ghost appends = { turns_append S.meaning S.lists S.listed S.records_listed B.meaning B.records B.empties S.appends };

    ghost begins = { returns_begin S.lists S.listed S.empties_listed S.begins };

    ghost gone = { Prim.search rules };

    ghost once = { Prim.search rules };

    ghost just = { Prim.search rules };

    fn record_listed(&mut self, f: u64) -> Result<(), FilterCause> {
        self.record(f)
    }

    fn empty_listed(&mut self) {
        self.empty();
    }

    fn sure(&self) -> usize {
        self.listing().map_or(0, |s| s.sure().saturating_sub(1))
    }

    fn told(&self) -> usize {
        self.listing().map_or(0, |s| s.told())
    }

    fn tell(&self, i: usize) -> Option<u64> {
        self.listing().and_then(|s| s.tell(i))
    }

    fn holds(&self, f: u64) -> bool {
        self.listing().is_some_and(|s| s.holds(f))
    }
}

/// Two forms are equal just if they are the same, and a clone of one is the same.
pub fn equal_forms_are_the_same()
    ensures equal { TellsSameness (⟦<Form as PartialEq>⟧.eq) }
    ensures cloned { ClonesAreTheSame (⟦<Form as Clone>⟧.is_clone) }
    ensures come { ClonesNeverFail (⟦<Form as Clone>⟧.is_infallible) }
{}
