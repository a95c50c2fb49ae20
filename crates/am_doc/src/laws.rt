//! Laws about the tables of documents. Each function does nothing; its contract is the law.
ghost use Rattle.std.specs.Prelude.{◌≡◌, ◌<◌, ◌^◌, ℕ, List, Result, length};
ghost use Rattle.am_types.specs.declared.Table.{Table};
ghost use Rattle.am_types.specs.Documents.{table};
ghost use Rattle.am_types.specs.Members.{Member};
ghost use Rattle.am_types.specs.ValidSets.{Valid};
ghost use Rattle.am_doc.specs.declared.fault.DocFault.{DocFault};
ghost use Rattle.am_doc.specs.Conditions.{IsWritable, IsReadable};
ghost use Rattle.am_doc.specs.Contents.{body};
ghost use Rattle.am_doc.specs.Sound.{IsSound};
ghost use Rattle.am_doc.specs.Spelling.{SpellsTable, Judges};

/// The canonical table of a valid set can be written.
pub fn sets_are_writable()
    ensures { (C : List Member) → Valid C → IsWritable (table C) }
{
    am_laws::table_is_within();
}

/// Contents spell one table at most.
pub fn one_table()
    ensures { (bytes : List ℕ) (t u : Table) → SpellsTable bytes t → SpellsTable bytes u → t ≡ u }
{}

/// Contents are judged in one way. So contents that spell a table never count as compressed.
pub fn one_judgement()
    ensures { (bytes : List ℕ) (x y : Result Table DocFault) → Judges bytes x → Judges bytes y → x ≡ y }
{}

/// In a table that contents spell, rows and change rows are within their limits, heads ascend, actors have 1 to 1,024 bytes,
/// and those that rows name are listed.
pub fn spelled_tables_are_sound()
    ensures { (bytes : List ℕ) (t : Table) → SpellsTable bytes t → IsSound t }
{}

/// The canonical contents of a table spell it, if it can be written and read; and the canonical table of a valid set is
/// such. The length of the contents fits 64 bits, as that of all bytes that a program has does: with it the number of
/// actors and the lengths of the columns, which the contents tell.
pub fn canonical_contents_spell()
    ensures tables { (t : Table) → IsWritable t → IsReadable t → length (body t) < 2 ^ 64 → SpellsTable (body t) t }
    ensures sets { (C : List Member) → Valid C → length (body (table C)) < 2 ^ 64 → SpellsTable (body (table C)) (table C) }
{
    am_laws::table_is_within();
    am_laws::valid_sets_keep_rules();
    am_laws::actors_are_authors();
}
