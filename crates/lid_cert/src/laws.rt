//! What follows from a certificate. Each function here does nothing; its contract is a law for all
//! graphs and certificates.

ghost use Rattle.lid_cert.specs.Laws.{EachIsShown, WalksMeetRatio, RatioIsShown, LagsAreShown, LeadsBoundFirings, LagsBoundFirings, CapsAreReached};

/// Each transition of a certified graph stands in a part.
pub fn each_is_shown()
    ensures { EachIsShown }
{}

/// Each closed walk of a part has `tokens*q >= p*edges`, and p/q is the ratio of its component. A lag
/// is at least `p*edges - q*tokens` of each walk that ends at its transition.
pub fn ratio_is_shown()
    ensures walks { WalksMeetRatio }
    ensures ratio { RatioIsShown }
    ensures lags { LagsAreShown }
{}

/// A transition has fired at most `(p*k + lead)/q` times after k cycles.
pub fn leads_bound_firings()
    ensures { LeadsBoundFirings }
{}

/// A transition that is below its cap after k cycles has fired at least `(p*k - lag)/q` times.
pub fn lags_bound_firings()
    ensures { LagsBoundFirings }
{}

/// Where p is not 0, a transition has first fired as often as its cap after at most
/// `(q*cap + lag)/p` cycles, rounded up.
pub fn caps_are_reached()
    ensures { CapsAreReached }
{}
