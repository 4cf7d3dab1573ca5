//! The references that were called before they came to something, and the embargoes.

ghost use Rattle.std.specs.Prelude.{◌≡◌, ◌∷◌, Some, IsSome, IfOk, IfNone, OnSome, option_copied};
ghost use Rattle.std.specs.List.{list_any};
ghost use Rattle.std.specs.FinMap as map;
ghost use Rattle.cp_vat_machine.specs.InUse.{is_object, is_promise};
ghost use Rattle.cp_vat_machine.specs.Resolving.{is_under};
ghost use Rattle.cp_vat_state.specs.Under.{unmarked};

use crate::counted_embargoes::CountedEmbargoes;
use crate::path_marks::PathMarks;
use crate::step_fault::StepFault;
use cp_refs::{Cap, Path, PromiseId};
use cp_tables::{Entries, LIMIT};
use cp_vat_machine::PeerFault;
use slab::Iter;
use std::alloc::Global;
use std::marker::Model;

/// The marks of references: of imports by their number, of questions' paths by their question and
/// their fields, each with its embargo once one was asked for. And the open embargoes, with what each
/// leads to. An embargo's mark is found by the embargo.
pub struct Marks {
    alloc: Global,
    imports: Entries<Option<u32>>,
    paths: PathMarks,
    embargoes: CountedEmbargoes,
    /// Whose embargo it is.
    references: Entries<MarkKey>,
}

// Not derived: a crate that lets one go calls this function, and need not prove the drop of all that it holds.
impl Drop for Marks {
    fn drop(self) {
        let Marks {
            alloc: _,
            imports: _,
            paths: _,
            embargoes: _,
            references: _,
        } = self;
    }
}

impl Model for Marks {
    ghost use Rattle.cp_vat_machine.specs.State.{Marks as MarksValue};
    ghost use Rattle.cp_vat_state.specs.MarksCode.{marks_code};

    ghost Value = { MarksValue };

    ghost coded = { marks_code };

    ghost use Rattle.cp_vat_state.specs.Marking.{AreUnder};

    ghost view = { λ m. record { imports = m.imports; paths = m.paths; embargoes = m.embargoes } };

    ghost invariant = { λ m. AreUnder m.imports m.paths m.embargoes m.references };
}

impl Marks {
    ghost use Rattle.std.specs.Prelude.{not};
    ghost use Rattle.cp_vat_machine.specs.State.{State};
    ghost use Rattle.cp_vat_machine.specs.Capacity.{Fresh};
    ghost use Rattle.cp_vat_machine.specs.Give.{is_path_of};
    ghost use Rattle.cp_vat_machine.specs.Calling.{mark_of, with_mark, marked};
    ghost use Rattle.cp_vat_state.specs.Halts.{Meets, Becomes, IfFault};
    ghost use Rattle.cp_vat_state.specs.Marking.{with_marks, with_embargo, without_embargo, without_mark};

    /// No marks and no embargoes.
    pub fn new(alloc: Global) -> Marks
        ensures { result ≡ record { imports = map.empty; paths = map.empty; embargoes = map.empty } }
    {
        Marks {
            alloc,
            imports: Entries::new(alloc),
            paths: PathMarks::new(alloc),
            embargoes: CountedEmbargoes::new(alloc),
            references: Entries::new(alloc),
        }
    }

    /// What the embargo under this number leads to.
    pub fn embargo(&self, id: u32) -> Option<&Cap>
        ensures { option_copied result ≡ map.get self.now.embargoes id }
    {
        self.embargoes.get(id)
    }

    /// What the embargoes lead to, with their numbers, rising.
    pub fn embargoes(&self) -> Iter<'_, Cap>
        ensures { result ≡ map.entries self.now.embargoes }
    {
        self.embargoes.iter()
    }

    /// Whether an embargo leads to the promise.
    pub(crate) fn lead_to(&self, id: PromiseId) -> bool
        ensures { result ≡ list_any (is_promise id) (map.values self.now.embargoes) }
    {
        self.embargoes.lead_to(id)
    }

    /// Whether an embargo leads to the object.
    pub(crate) fn lead_to_object(&self, id: u32) -> bool
        ensures { result ≡ list_any (is_object id) (map.values self.now.embargoes) }
    {
        self.embargoes.lead_to_object(id)
    }

    /// The mark of a reference, with its embargo once one was asked for.
    pub fn mark(&self, reference: &Cap) -> Option<Option<u32>>
        ensures { (s : State) → result ≡ mark_of (with_marks s self.now) reference.now }
    {
        match reference {
            Cap::Import(id) => self.imports.get(*id).copied(),
            Cap::Pipelined(question, path) => self.paths.get(*question, path.fields()),
            Cap::None | Cap::Object(_) | Cap::Promise(_) | Cap::Broken(_) => None,
        }
    }

    /// Marks a reference, unless it is marked.
    pub fn put_mark(&mut self, reference: &Cap) -> Result<(), StepFault>
        ensures marked { (s : State) → Becomes (marked (with_marks s self.old) reference.now (mark_of (with_marks s self.old) reference.now)) result (with_marks s self.new) }
        ensures unchanged { IfFault result (self.new ≡ self.old) }
    {
        if self.mark(reference).is_some() {
            return Ok(());
        }
        match reference {
            Cap::Import(id) => Ok(self.imports.put(*id, None)?),
            Cap::Pipelined(question, path) => {
                // The marks of imports are bounded by the imports; those of paths need a bound of their own.
                if self.paths.len() >= LIMIT {
                    return Err(StepFault::Fault(PeerFault::TableFull));
                }
                Ok(self.paths.mark(*question, path.fields())?)
            }
            Cap::None | Cap::Object(_) | Cap::Promise(_) | Cap::Broken(_) => Ok(()),
        }
    }

    /// Takes the mark of a reference out.
    pub fn remove_mark(&mut self, reference: &Cap)
        ensures { self.new ≡ without_mark self.old reference.now }
    {
        match reference {
            Cap::Import(id) => drop(self.imports.remove(*id)),
            Cap::Pipelined(question, path) => {
                if self.paths.get(*question, path.fields()).is_some() {
                    self.paths.remove(*question, path.fields());
                }
            }
            Cap::None | Cap::Object(_) | Cap::Promise(_) | Cap::Broken(_) => {}
        }
    }

    /// Opens an embargo under a free number, for a reference that is marked. It leads to `value`.
    pub fn open_embargo(&mut self, reference: &Cap, value: Cap) -> Result<u32, StepFault>
        requires { (s : State) → IsSome (mark_of (with_marks s self.old) reference.now) }
        ensures fresh { Meets (Fresh self.old.embargoes) result }
        ensures opened { IfOk result (λ n. (s : State) → with_marks s self.new ≡ with_mark (with_marks s (with_embargo self.old n value)) reference.now (Some n)) }
        ensures unchanged { IfFault result (self.new ≡ self.old) }
    {
        if self.embargoes.len() == LIMIT {
            return Err(StepFault::Fault(PeerFault::TableFull));
        }
        let id = self.embargoes.open(value)?;
        match reference {
            Cap::Import(import) => {
                self.references.put(id, MarkKey::Import(*import))?;
                *self.imports.entry_mut(*import) = Some(id);
                Ok(id)
            }
            Cap::Pipelined(question, path) => {
                let copied = path.copy(self.alloc)?;
                self.references.put(id, MarkKey::Path(*question, copied))?;
                self.paths.set(*question, path.fields(), id);
                Ok(id)
            }
            Cap::None | Cap::Object(_) | Cap::Promise(_) | Cap::Broken(_) => Ok(id),
        }
    }

    /// Ends an embargo, and gives what it led to. Its reference isn't marked any more.
    pub fn end_embargo(&mut self, id: u32) -> Option<Cap>
        ensures value { result ≡ map.get self.old.embargoes id }
        ensures ended { OnSome result (self.new ≡ without_embargo self.old id) }
        ensures unchanged { IfNone result (self.new ≡ self.old) }
    {
        let Ok(cap) = self.embargoes.close(id) else {
            return None;
        };
        match self.references.remove(id) {
            Some(MarkKey::Import(import)) => {
                unmark_import(&mut self.imports, import, id);
                Some(cap)
            }
            Some(MarkKey::Path(question, path)) => {
                unmark_path(&mut self.paths, question, path.fields(), id);
                Some(cap)
            }
            None => Some(cap),
        }
    }

    /// Takes the mark of an import out.
    pub fn remove_import(&mut self, id: u32)
        ensures { self.new ≡ record self.old { imports = map.remove self.old.imports id } }
    {
        drop(self.imports.remove(id));
    }

    /// Takes the marks of a question's paths out.
    pub fn remove_question(&mut self, id: u32)
        ensures { self.new ≡ record self.old { paths = map.retain_keys self.old.paths (λ key. not (is_path_of id key)) } }
    {
        self.paths.remove_question(id);
    }
}

/// A reference, as an embargo finds its mark.
#[derive(Drop)]
enum MarkKey {
    Import(u32),
    Path(u32, Path),
}

/// Takes the mark of an import out, if it is under this embargo.
fn unmark_import(imports: &mut Entries<Option<u32>>, import: u32, id: u32)
    ensures { imports.new ≡ unmarked imports.old import id }
{
    // The import may have been released, and its number marked anew.
    if is_under(imports.get(import).copied(), id) {
        drop(imports.remove(import));
    }
}

/// Takes the mark of a path out, if it is under this embargo.
fn unmark_path(paths: &mut PathMarks, question: u32, path: &[u16], id: u32)
    ensures { paths.new ≡ unmarked paths.old (question ∷ path.now) id }
{
    // The question may be gone, and its number marked anew.
    if is_under(paths.get(question, path), id) {
        paths.remove(question, path);
    }
}

/// Whether it is a mark under this embargo.
fn is_under(mark: Option<Option<u32>>, id: u32) -> bool
    ensures { result ≡ is_under id mark }
{
    match mark {
        Some(Some(other)) => other == id,
        _ => false,
    }
}
