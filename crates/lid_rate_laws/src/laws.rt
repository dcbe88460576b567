//! That there are certificates. Each function here does nothing; its contract is a law for all graphs, or for all
//! systems and placements.

ghost use Rattle.lid_rate_laws.specs.Laws.{RateableGraphsHaveCertificates, MarkingsHaveCertificates, MarkingsHaveRateTexts};

/// A graph that has a transition, is paired and has at most 262,144 transitions, fewer than 524,288 edges and at most
/// 16 tokens on an edge has a certificate: the ratio of each component, the least lags, and closed walks that meet no
/// transition twice, with all numbers in the ranges of a certificate's text.
pub fn rateable_graphs_have_certificates()
    ensures { RateableGraphsHaveCertificates }
{}

/// The marked graph of a system with its stations has such a certificate, and no ratio of it is 0.
pub fn markings_have_certificates()
    ensures { MarkingsHaveCertificates }
{}

/// And there is a text that `rate` may answer for it: that of such a certificate, which is read back as the
/// certificate.
pub fn markings_have_rate_texts()
    ensures { MarkingsHaveRateTexts }
{}
