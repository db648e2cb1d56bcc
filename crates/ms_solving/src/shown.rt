use ms_base::seq::Seq;
use ms_term::TermId;

/// The shown atoms of each listed answer set, by their names in the table of terms.
pub type Shown = Seq<Seq<TermId>>;
