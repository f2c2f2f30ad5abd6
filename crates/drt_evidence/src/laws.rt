//! Laws of texts and dossiers: each function does nothing, and its contract is the law.
ghost use Rattle.drt_evidence.specs.Laws.{PrintedIsRead, TextsTellDossiers};

/// Bytes are the text of one dossier at most.
pub fn texts_tell_dossiers()
    ensures { TextsTellDossiers }
{}

/// What is printed of a dossier is read as that dossier, and as no other.
pub fn printed_is_read()
    ensures { PrintedIsRead }
{}
