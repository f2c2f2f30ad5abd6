//! Laws of classic texts, classic sets and their digraphs: each function does nothing, and its contract is the law.
ghost use Rattle.drt_classic.specs.ClassicLaws.{DigraphsKeepLimits, FaultlessClassicTextsRead, ReleasesAgree, ClassicTextsReadAsOneSet};

/// A list of releases is legal for the digraphs of a classic set exactly where it is a classic list of that set.
pub fn releases_agree()
    ensures { ReleasesAgree }
{}

/// The digraphs of a classic set keep the limits of version 1, and their deadlines are constrained.
pub fn digraphs_keep_limits()
    ensures { DigraphsKeepLimits }
{}

/// A text has no fault by the tables of codes exactly where it reads as some classic set.
pub fn faultless_texts_read()
    ensures { FaultlessClassicTextsRead }
{}

/// A text reads as one classic set at most.
pub fn texts_read_as_one_set()
    ensures { ClassicTextsReadAsOneSet }
{}
