// Laws over the lines of notes. They speak of no code, so the functions do nothing.
ghost use Rattle.std.specs.Prelude.{◌≡◌, List};
ghost use Rattle.std.specs.List.{AllByRecursion};
ghost use Rattle.ms_lits.specs.declared.note.Note.{Note};
ghost use Rattle.ms_log.specs.NoteText.{note_text, notes_text, IsReadable};

/// No two readable notes have one line.
pub fn one_note()
    ensures { (one other : Note) → IsReadable one → IsReadable other → note_text one ≡ note_text other → one ≡ other }
{}

/// A log has one meaning: no two lists of readable notes have one text.
pub fn one_log()
    ensures { (some others : List Note) → AllByRecursion IsReadable some → AllByRecursion IsReadable others
        → notes_text some ≡ notes_text others → some ≡ others }
{}
