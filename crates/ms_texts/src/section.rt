// The sections of texts.
ghost use Rattle.std.specs.Prelude.{◌≡◌, [], ◌∷◌, IfOk};
ghost use Rattle.ms_core.specs.Texts.{base_part, check_part, query_external};
ghost use Rattle.ms_texts.specs.Sections.{part_of, said_in, constant_t};

use crate::duplicate::{duplicate_bytes, duplicate_names};
use ms_base::memory::OutOfMemory;
use ms_base::seq::{Bytes, Seq};
use ms_grammar::statement::{Form, Names};
use ms_grammar::term::TextTerm;
use sqlite_items::Items;
use std::alloc::Global;

/// The statements that stand under one `#program` with this name and these parameters, in their order.
#[derive(Debug, Drop)]
pub struct Section {
    pub name: Bytes,
    pub params: Names,
    pub forms: Seq<Form>,
}

impl Section {
    /// The section with which each text begins, without a statement.
    pub(crate) fn base(alloc: Global) -> Result<Section, OutOfMemory>
        ensures part { IfOk result (λ section. part_of section ≡ base_part) }
        ensures forms { IfOk result (λ section. section.forms ≡ []) }
    {
        Ok(Section {
            name: Seq::copied(alloc, b"base")?,
            params: Seq::new(alloc),
            forms: Seq::new(alloc),
        })
    }

    /// The section that asks whether the incremental mode goes on.
    pub(crate) fn check(alloc: Global) -> Result<Section, OutOfMemory>
        ensures { IfOk result (λ section. said_in section ≡ (check_part, query_external) ∷ []) }
    {
        let mut params = Seq::new(alloc);
        params.push(Seq::copied(alloc, b"t")?)?;
        let mut forms = Seq::new(alloc);
        forms.push(query_external(alloc)?)?;
        Ok(Section {
            name: Seq::copied(alloc, b"check")?,
            params,
            forms,
        })
    }

    /// A section with this name and these parameters, without a statement.
    pub(crate) fn under(
        alloc: Global,
        name: &Bytes,
        params: &[Bytes],
    ) -> Result<Section, OutOfMemory>
        ensures { IfOk result (λ section. section ≡ record { name = name.now; params = params.now; forms = [] }) }
    {
        Ok(Section {
            name: duplicate_bytes(alloc, name)?,
            params: duplicate_names(alloc, params)?,
            forms: Seq::new(alloc),
        })
    }
}

/// `#external query(t).`
fn query_external(alloc: Global) -> Result<Form, OutOfMemory>
    ensures { IfOk result (λ form. form ≡ query_external) }
{
    let mut args = Items::new(alloc);
    args.push(constant_t(alloc)?)?;
    let mut lists = Items::new(alloc);
    lists.push(args)?;
    let name = Seq::copied(alloc, b"query")?;
    Ok(Form::External {
        atom: TextTerm::Function(name, lists),
    })
}

fn constant_t(alloc: Global) -> Result<TextTerm, OutOfMemory>
    ensures { IfOk result (λ term. term ≡ constant_t) }
{
    let mut lists = Items::new(alloc);
    lists.push(Items::new(alloc))?;
    Ok(TextTerm::Function(Seq::copied(alloc, b"t")?, lists))
}
