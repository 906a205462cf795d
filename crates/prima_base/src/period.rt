ghost use Rattle.relations_spec.specs.Spans.{covers, common};
ghost use Rattle.std.specs.Prelude.{◌≡◌, ℕ, false, ◌&&◌, IfNone, ◌<◌, ◌↔◌, max, IsSome, IfSome};

use std::marker::Model;

/// The end of a period that still goes on. No stamp is as late.
pub const FOREVER: u64 = u64::MAX;

/// The moments from `start` up to, and not at, `end`. There is at least one.
#[derive(Clone, Copy, PartialEq, Eq)]
pub struct Period {
    start: u64,
    end: u64,
}

impl Model for Period {
    ghost use Rattle.std.specs.Prelude.{◌<◌};
    ghost use Rattle.relations_spec.specs.Spans.{Span};

    ghost Value = { Span };

    ghost view = { λ p. record { start = p.start; end = p.end } };

    ghost invariant = { λ p. p.start < p.end };

    ghost inverse = { λ s. record { start = s.start; end = s.end } };
}

impl Period {
    /// The period of these moments: `None` exactly where there are none. It takes no memory.
    pub fn new(start: u64, end: u64) -> Option<Period>
        ensures some { IsSome result ↔ (start < end) }
        ensures value { IfSome result (λ p. (p.start ≡ start) × (p.end ≡ end)) }
    {
        if start < end {
            Some(Period { start, end })
        } else {
            None
        }
    }

    /// The moments from the start up to, and not at, the end, of which there is one at least. It
    /// takes no memory.
    pub fn between(start: u64, end: u64) -> Period
        requires { start < end }
        ensures start { result.start ≡ start }
        ensures end { result.end ≡ end }
    {
        Period { start, end }
    }

    /// The moments from the start on.
    pub fn from(start: u64) -> Period
        requires { start < FOREVER }
        ensures start { result.start ≡ start }
        ensures end { result.end ≡ FOREVER }
    {
        Period {
            start,
            end: FOREVER,
        }
    }

    /// The first moment.
    pub fn start(self) -> u64
        ensures start { result ≡ self.start }
        ensures ordered { self.start < self.end }
    {
        self.start
    }

    /// The first moment after the period, or `FOREVER`.
    pub fn end(self) -> u64
        ensures end { result ≡ self.end }
        ensures ordered { self.start < self.end }
    {
        self.end
    }

    /// The same start, and the later of the two ends.
    pub fn until(self, end: u64) -> Period
        ensures start { result.start ≡ self.start }
        ensures end { result.end ≡ max self.end end }
    {
        Period {
            start: self.start,
            end: self.end.max(end),
        }
    }
}

/// The common moments of two periods: `None` exactly where there are none. It takes no memory.
pub fn meet(p: Period, q: Period) -> Option<Period>
    ensures common { result ≡ common p q }
    ensures moments { (m : ℕ) → IfSome result (λ r. covers r m ≡ (covers p m && covers q m)) }
    ensures none { IfNone result ((m : ℕ) → (covers p m && covers q m) ≡ false) }
{
    Period::new(p.start.max(q.start), p.end.min(q.end))
}
