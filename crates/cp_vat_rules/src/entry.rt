//! How entries of questions and answers change.

ghost use Rattle.std.specs.Prelude.{◌≡◌, Some, true};
ghost use Rattle.cp_tables.specs.Table.{with_change};
ghost use Rattle.cp_vat_machine.specs.Answering.{without_answer};
ghost use Rattle.cp_vat_machine.specs.Give.{without_question};
ghost use Rattle.cp_vat_machine.specs.Go.{delivered};
ghost use Rattle.cp_vat_machine.specs.declared.entry.AnswerEntry.{AnswerEntry};
ghost use Rattle.cp_vat_state.specs.StateOf.{state_of};
ghost use Rattle.cp_vat_rules.specs.Giving.{NotesGiven};

use cp_refs::Origin;
use cp_tables::{Answers, Questions};
use cp_vat_machine::{AnswerEntry, Mentions, QuestionEntry, TiedPromises};
use cp_vat_state::Core;
use std::alloc::Global;

/// Takes a question out, with the marks of its paths.
pub fn remove_question(core: &mut Core, id: u32)
    ensures { state_of core.new ≡ without_question (state_of core.old) id }
{
    core.values.remove_question(id);
    core.marks.remove_question(id);
    core.questions.close(id);
}

/// Takes an answer out.
pub fn remove_answer(core: &mut Core, id: u32)
    ensures { state_of core.new ≡ without_answer (state_of core.old) id }
{
    core.values.remove_answer(id);
    core.answers.close(id);
}

/// Notes that a call was delivered to an object of the application.
pub(crate) fn note_delivered(core: &mut Core, origin: Origin)
    ensures { state_of core.new ≡ delivered (state_of core.old) origin }
{
    match origin {
        Origin::Answer(id) => {
            if let Some(kept) = core.answers.kept_mut(id) {
                kept.is_delivered = true;
            }
        }
        Origin::Own(id) => {
            if let Some(kept) = core.questions.kept_mut(id) {
                kept.is_delivered = true;
            }
        }
    }
}

/// Notes the exports that a question's params name.
pub(crate) fn note_mentions(questions: &mut Questions<QuestionEntry>, id: u32, mentions: Mentions)
    ensures { questions.new ≡ with_change questions.old id (λ entry. record entry { kept = record entry.kept { mentions = mentions } }) }
{
    if let Some(kept) = questions.kept_mut(id) {
        kept.mentions = mentions;
    }
}

/// Notes that the Call of a question was sent, and the exports that its params name.
pub(crate) fn note_sent(questions: &mut Questions<QuestionEntry>, id: u32, mentions: Mentions)
    ensures { questions.new ≡ with_change questions.old id (λ entry. record entry { kept = record entry.kept { is_sent = true; mentions = mentions } }) }
{
    if let Some(kept) = questions.kept_mut(id) {
        kept.is_sent = true;
        kept.mentions = mentions;
    }
}

/// Notes that an open answer was given, and the exports that its results name. No promise is tied to it
/// any more.
pub(crate) fn note_given(
    alloc: Global,
    answers: &mut Answers<AnswerEntry>,
    id: u32,
    mentions: Mentions,
)
    ensures { NotesGiven answers.old id mentions answers.new }
{
    let Some(kept) = answers.kept_mut(id) else {
        return;
    };
    kept.mentions = mentions;
    kept.tied = TiedPromises::new(Vec::new(alloc));
    let _ = answers.note_return(id);
}
