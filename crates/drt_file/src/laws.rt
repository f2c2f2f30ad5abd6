//! Laws of texts and sets: each function does nothing, and its contract is the law.
ghost use Rattle.drt_file.specs.trusted.Laws.{
  TextsAreCutAsMade,
  TextsTellSets,
  FaultlessTextsRead,
  TextsReadAsOneSet,
  CanonicalTextsRead,
  FrontsTellSets,
};

/// The canonical text of a set is cut into the lines and fields that it was made of.
pub fn texts_are_cut_as_made()
    ensures { TextsAreCutAsMade }
{}

/// Two sets with one canonical text are one set.
pub fn texts_tell_sets()
    ensures { TextsTellSets }
{}

/// A text has no fault by the tables of codes exactly where it reads as some set.
pub fn faultless_texts_read()
    ensures { FaultlessTextsRead }
{}

/// A text reads as one set at most.
pub fn texts_read_as_one_set()
    ensures { TextsReadAsOneSet }
{}

/// What is printed reads as the set that was printed, and as no other: `read(print(S)) = S`.
pub fn canonical_texts_read()
    ensures { CanonicalTextsRead }
{}

/// No text begins with the canonical texts of two sets.
pub fn fronts_tell_sets()
    ensures { FrontsTellSets }
{}
