ghost use Rattle.std.specs.Prelude.{◌≡◌, ◌<◌, ◌+◌, ◌^◌, ℕ, [], ◌∷◌, drop, IfSome};
ghost use Rattle.std.specs.Prelude.{MatchOption};
ghost use Rattle.period_join.specs.Pairs.{with_each};

use crate::relation::relates;
use prima_base::Period;
use prima_base_rows::TimedRows;
use std::marker::Model;
use temporal_lang_types::Relation;

/// The pairs of places at which two lists of rows have periods that are related. A contract sees
/// the pairs that are still to be handed out.
#[derive(Drop)]
pub struct Pairs<'b, 'a> {
    left: &'b TimedRows<'a>,
    right: &'b TimedRows<'a>,
    relation: Relation,
    // the place on the left that is gone through, and the next one on the right
    place: usize,
    next: usize,
}

impl<'b, 'a> Model for Pairs<'b, 'a> {
    ghost use Rattle.std.specs.Prelude.{ℕ, List};

    ghost Value = { List (ℕ × ℕ) };

    ghost use Rattle.period_join.specs.Pairs.{left_to_give};

    ghost view = { left_to_give };
}

// The first place on the right, from this one on, whose period the given one is related to.
fn next_related(
    relation: Relation,
    period: Period,
    right: &TimedRows<'_>,
    from: usize,
) -> Option<usize>
    ensures few { IfSome result (λ j. j < 2 ^ 63) }
    ensures first { MatchOption result
        ((i : ℕ) → with_each relation i period from (drop from right.now.items) ≡ [])
        (λ j. (i : ℕ) → with_each relation i period from (drop from right.now.items)
        ≡ (i, j) ∷ with_each relation i period (j + 1) (drop (j + 1) right.now.items)) }
{
    for place in from..right.len() {
        if relates(relation, period, right.period(place)) {
            return Some(place);
        }
    }
    None
}

impl<'b, 'a> Pairs<'b, 'a> {
    ghost use Rattle.std.specs.Prelude.{◌≡◌};
    ghost use Rattle.period_join.specs.Pairs.{related, IsNext};

    /// All pairs of places whose periods stand in the relation, the left one to the right one. It
    /// takes no memory.
    pub fn new(
        left: &'b TimedRows<'a>,
        right: &'b TimedRows<'a>,
        relation: Relation,
    ) -> Pairs<'b, 'a>
        ensures { result ≡ related relation left.now.items right.now.items }
    {
        Pairs {
            left,
            right,
            relation,
            place: 0,
            next: 0,
        }
    }

    /// The next pair, by the left place, then the right one: `None` exactly behind the last. It
    /// takes no memory.
    pub fn next_pair(&mut self) -> Option<(usize, usize)>
        ensures { IsNext self.old result self.new }
    {
        'places: while self.place < self.left.len() {
            let period = self.left.period(self.place);
            if let Some(next) = next_related(self.relation, period, self.right, self.next) {
                self.next = next + 1;
                return Some((self.place, next));
            }
            self.place += 1;
            self.next = 0;
        }
        None
    }
}
