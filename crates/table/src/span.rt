// Containment.
ghost use Rattle.std.specs.Prelude.{◌≡◌};
ghost use Rattle.order.specs.Rank.{inside};

use order::Span;

// Whether `place` lies from the span's start up to its end, which is outside.
pub fn contains<S: Span>(span: &S, place: u32) -> bool
    ensures { result ≡ inside (S.Span.low span.now) (S.Span.high span.now) place }
{
    (span.start()..span.end()).contains(&u64::from(place))
}
