//! The search for the instances of one qualifier.

ghost use Rattle.std.specs.Prelude.{◌≡◌, ◌++◌, ◌≤◌, [], ◌∷◌, length, if◌then◌else◌, IfOk, OnOk, IfErr};
ghost use Rattle.lq_quals.specs.Qualifier.{rows_of};
ghost use Rattle.lq_templates.specs.Rows.{same_row};
ghost use Rattle.lq_instances.specs.Instances.{chosen_rows};
ghost use Rattle.lq_instances.specs.Search.{gathered};
ghost use Rattle.lq_instances.specs.Faults.{Tells};
ghost use Rattle.lq_instances.specs.Cuts as spec;

use crate::TemplateFault;
use crate::row::put_rows;
use crate::table::{Candidate, Wanting, either, goes_on, marks_of, narrowed, no_marks};
use lq_linear::Row;
use lq_quals::Qualifier;
use lq_templates::Template;
use lq_text::Atom;
use lq_tree::Name;
use sqlite_items::Items;
use std::alloc::{AllocError, Global};

// What is searched: the rows of a qualifier at a template, over choices among these locals.
#[derive(Drop)]
pub(crate) struct Search<'a> {
    pub(crate) alloc: Global,
    pub(crate) atoms: &'a [Atom],
    pub(crate) template: &'a Template,
    pub(crate) qualifier: &'a Qualifier,
    pub(crate) all: &'a [Candidate],
    // Whether one of the rows can stand at the template.
    pub(crate) stands: bool,
}

// A part of a choice, and what is still to be chosen: for a placeholder, and then for others.
#[derive(Drop)]
struct Level<'a> {
    choice: &'a [(Name, Name)],
    // Whether what has to be mentioned is mentioned.
    mentioned: bool,
    first: &'a Wanting,
    rest: &'a [Wanting],
    // What the others may get.
    table: &'a [Items<bool>],
}

impl Search<'_> {
    // Puts down what comes behind a part of a choice.
    #[cycle(search)]
    pub(crate) fn put_below(
        &self,
        choice: &[(Name, Name)],
        mentioned: bool,
        wanting: &[Wanting],
        table: &[Items<bool>],
        found: &mut Items<Row>,
    ) -> Result<(), TemplateFault>
        requires { length found.old ≤ 256 }
        ensures rows { OnOk result (found.new ≡ gathered same_row found.old (spec.found_behind self.now.atoms.now self.now.template.now self.now.qualifier.now
            self.now.stands self.now.all.now choice.now mentioned wanting.now table.now)) }
        ensures few { OnOk result (length found.new ≤ 256) }
        ensures limit { IfErr result (λ fault. Tells fault (gathered same_row found.old (spec.found_behind self.now.atoms.now self.now.template.now self.now.qualifier.now
            self.now.stands self.now.all.now choice.now mentioned wanting.now table.now))) }
    {
        let Some((first, rest)) = wanting.split_first() else {
            let (atoms, template) = (self.atoms, self.template);
            return put_rows(self.alloc, choice, atoms, template, self.qualifier, found);
        };
        let Some((row, later)) = table.split_first() else {
            return Ok(());
        };
        if !goes_on(self.stands, mentioned, self.all, table) {
            return Ok(());
        }
        let level = Level {
            choice,
            mentioned,
            first,
            rest,
            table: later,
        };
        self.try_each(&level, row.as_slice(), found)
    }

    // Puts down what comes of each candidate that a placeholder may get.
    #[cycle(search)]
    fn try_each(
        &self,
        level: &Level,
        row: &[bool],
        found: &mut Items<Row>,
    ) -> Result<(), TemplateFault>
        requires { length found.old ≤ 256 }
        ensures rows { OnOk result (found.new ≡ gathered same_row found.old (spec.tried_behind self.now.atoms.now self.now.template.now self.now.qualifier.now
            self.now.stands self.now.all.now level.now.choice.now level.now.mentioned level.now.first.now level.now.rest.now level.now.table.now (spec.no_marks self.now.all.now) row.now self.now.all.now)) }
        ensures few { OnOk result (length found.new ≤ 256) }
        ensures limit { IfErr result (λ fault. Tells fault (gathered same_row found.old (spec.tried_behind self.now.atoms.now self.now.template.now self.now.qualifier.now
            self.now.stands self.now.all.now level.now.choice.now level.now.mentioned level.now.first.now level.now.rest.now level.now.table.now (spec.no_marks self.now.all.now) row.now self.now.all.now))) }
    {
        let mut passed = no_marks(self.alloc, self.all)?;
        let mut marks = row;
        let mut candidates = self.all;
        while let Some((may, marks_behind)) = marks.split_first() {
            let Some((candidate, behind)) = candidates.split_first() else {
                return Ok(());
            };
            let here = marks_of(self.alloc, self.all, candidate)?;
            let gone = either(self.alloc, &here, &passed)?;
            self.try_one(level, *may, candidate, &gone, &here, found)?;
            passed = gone;
            marks = marks_behind;
            candidates = behind;
        }
        Ok(())
    }

    // Puts down what comes of a candidate, if the placeholder may get it.
    #[cycle(search)]
    fn try_one(
        &self,
        level: &Level,
        may: bool,
        candidate: &Candidate,
        gone: &Items<bool>,
        here: &Items<bool>,
        found: &mut Items<Row>,
    ) -> Result<(), TemplateFault>
        requires { length found.old ≤ 256 }
        ensures rows { OnOk result (found.new ≡ gathered same_row found.old (if may then spec.below_one self.now.atoms.now self.now.template.now self.now.qualifier.now
            self.now.stands self.now.all.now level.now.choice.now level.now.mentioned level.now.first.now level.now.rest.now level.now.table.now gone.now here.now candidate.now else [])) }
        ensures few { OnOk result (length found.new ≤ 256) }
        ensures limit { IfErr result (λ fault. Tells fault (gathered same_row found.old (if may then spec.below_one self.now.atoms.now self.now.template.now self.now.qualifier.now
            self.now.stands self.now.all.now level.now.choice.now level.now.mentioned level.now.first.now level.now.rest.now level.now.table.now gone.now here.now candidate.now else []))) }
    {
        if !may {
            return Ok(());
        }
        let alike = level.first.alike.as_slice();
        let table = narrowed(self.alloc, alike, gone, here, level.table)?;
        let placeholder = &level.first.placeholder;
        let choice = extended(self.alloc, level.choice, placeholder, &candidate.name)?;
        let mentioned = level.mentioned || candidate.wanted;
        let narrow = table.as_slice();
        self.put_below(choice.as_slice(), mentioned, level.rest, narrow, found)
    }
}

// A part of a choice with one local more.
fn extended(
    alloc: Global,
    choice: &[(Name, Name)],
    placeholder: &Name,
    local: &Name,
) -> Result<Items<(Name, Name)>, AllocError>
    ensures { IfOk result (λ longer. longer ≡ choice.now ++ (placeholder.now, local.now) ∷ []) }
{
    let mut longer = Items::new(alloc);
    for pair in choice {
        push_pair(alloc, &mut longer, &pair.0, &pair.1)?;
    }
    push_pair(alloc, &mut longer, placeholder, local)?;
    Ok(longer)
}

// Puts down a placeholder and its local.
fn push_pair(
    alloc: Global,
    choice: &mut Items<(Name, Name)>,
    placeholder: &Name,
    local: &Name,
) -> Result<(), AllocError>
    ensures { OnOk result (choice.new ≡ choice.old ++ (placeholder.now, local.now) ∷ []) }
{
    let placeholder = Name::from_slice(alloc, placeholder.as_bytes())?;
    let local = Name::from_slice(alloc, local.as_bytes())?;
    choice.push((placeholder, local))
}
