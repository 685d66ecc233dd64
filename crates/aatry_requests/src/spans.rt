//! When something occurred first and last.

ghost use Rattle.std.specs.Prelude.{◌≡◌};
ghost use Rattle.aatry_requests.specs.Spans.{widened};

/// When something occurred first and last, in seconds since 1970.
#[derive(Clone, Copy)]
pub struct Span {
    /// The first time.
    pub first: u64,
    /// The last time.
    pub last: u64,
}

/// A span with one time more, where that is known; `None` before the first.
pub fn widened(time: Option<u64>, span: Option<Span>) -> Option<Span>
    ensures { result ≡ widened time span }
{
    match (time, span) {
        (None, span) => span,
        (Some(time), None) => Some(Span {
            first: time,
            last: time,
        }),
        (Some(time), Some(span)) => Some(Span {
            first: time.min(span.first),
            last: time.max(span.last),
        }),
    }
}
