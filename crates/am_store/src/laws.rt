//! Laws over the definitions. Each function does nothing; its contract is the law.
ghost use Rattle.am_store.specs.Inversion.{DocumentsAreReadBack, DocumentsTellSets, FilesAreReadBack};
ghost use Rattle.am_store.specs.Laws.{OneReading};

/// Bytes are a file of one list of changes at most, or have one first bad chunk with one fault, and not both.
pub fn one_reading()
    ensures { OneReading }
{
    am_frame::one_fault();
    am_frame::one_reading();
    am_change::one_judgement();
    am_doc::one_judgement();
    am_histories::one_history();
}

/// What a store saves is read back: of a valid set whose changes stand beside their own hashes, and of both sets of a store.
/// Whoever reads the file into an empty store has each change again, and nothing is rejected.
pub fn documents_are_read_back()
    ensures documents { DocumentsAreReadBack }
    ensures files { FilesAreReadBack }
{
    am_doc::canonical_contents_spell();
    am_doc::one_judgement();
    am_histories::document_is_history();
    am_laws::listing_is_free();
    am_laws::valid_sets_keep_rules();
    am_delivery::both_come_back();
    one_reading();
}

/// The file of the canonical document tells the set: two valid sets whose changes stand beside their own hashes have one
/// file exactly where they are one set.
pub fn documents_tell_sets()
    ensures { DocumentsTellSets }
{
    documents_are_read_back();
    am_histories::tables_tell_sets();
}
