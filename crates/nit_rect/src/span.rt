//! Columns or rows that follow one another.

ghost use Rattle.std.specs.Prelude.{◌≡◌, ℤ, ◌+◌, ◌≤◌, ◌&&◌, pos, negsuc, ◌+ℤ◌, ◌≤ℤ◌, int_le};
ghost use Rattle.nit_rect.specs.Below.{int_lt};
ghost use Rattle.nit_rect.specs.Rectangle.{spans};
ghost use Rattle.nit_rect.specs.Strips.{times_among};
ghost use Rattle.nit_rect.specs.Limits.{most_length, most_edge, most_width};

/// The `long` places from `from` on.
#[derive(Clone, Copy)]
pub struct Span {
    pub from: i16,
    pub long: u16,
    ghost short: { long ≤ most_length },
}

/// What is left of a span round a cut.
#[derive(Clone, Copy)]
pub struct SpansLeft {
    pub before: Span,
    pub after: Span,
}

impl Span {
    /// The first place behind the span.
    fn end(self) -> i32
        ensures { result ≡ self.from +ℤ pos self.long }
    {
        self.from as i32 + self.long as i32
    }

    /// The places of the span that lie before `end`.
    fn before(self, end: i32) -> Span
        requires low { negsuc most_edge ≤ℤ end }
        requires high { end ≤ℤ pos most_edge }
        ensures { (at : ℤ)
            → spans result.from result.long at ≡ (spans self.from self.long at && int_lt at end) }
    {
        let room = end - self.from as i32;
        if room <= 0 {
            Span {
                from: self.from,
                long: 0,
            }
        } else if room < self.long as i32 {
            Span {
                from: self.from,
                long: room as u16,
            }
        } else {
            self
        }
    }

    /// The places that both spans have.
    pub fn meet(self, other: Span) -> Span
        ensures { (at : ℤ)
            → spans result.from result.long at
            ≡ (spans self.from self.long at && spans other.from other.long at) }
    {
        if self.from < other.from {
            other.before(self.end())
        } else {
            self.before(other.end())
        }
    }

    /// Whether the span neither begins before the other nor ends behind it.
    pub fn is_within(self, other: Span) -> bool
        ensures { result ≡ (int_le other.from self.from
            && int_le (self.from +ℤ pos self.long) (other.from +ℤ pos other.long)) }
    {
        other.from <= self.from && self.end() <= other.end()
    }

    /// What is left of the span round the cut, which lies within it.
    pub fn without(self, cut: Span) -> SpansLeft
        requires screen { (self.from +ℤ pos self.long) ≤ℤ pos most_width }
        requires begins { self.from ≤ℤ cut.from }
        requires ends { (cut.from +ℤ pos cut.long) ≤ℤ (self.from +ℤ pos self.long) }
        ensures { (at : ℤ)
            → times_among self.from self.long at
            ≡ times_among result.before.from result.before.long at
            + times_among result.after.from result.after.long at
            + times_among cut.from cut.long at }
    {
        let before = cut.from as i32 - self.from as i32;
        let after = self.end() - cut.end();
        SpansLeft {
            before: Span {
                from: self.from,
                long: before as u16,
            },
            after: Span {
                from: cut.end() as i16,
                long: after as u16,
            },
        }
    }
}
