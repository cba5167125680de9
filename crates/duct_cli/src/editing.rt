//! What `edit` answers: a project designed, and designed again after each edit of a script.
ghost use Rattle.std.specs.Prelude.{◌≡◌, ◌≢◌, ℕ, ◌+◌, ◌<◌, ◌≤◌, ◌++◌, ◌∷◌, [], All, length, map, slice_index, IfOk, IfSome, OnOk};
ghost use Rattle.std.specs.Fmt.{decimal};
ghost use Rattle.duct_units.specs.Lines.{line};
ghost use Rattle.duct_definitions.specs.Tree.{section_count};
ghost use Rattle.name_index.specs.Places.{place_of};
ghost use Rattle.project_file.specs.Projects.{IsProject};
ghost use Rattle.design_rules.specs.Meanings.{SameRules};
ghost use Rattle.net_build.specs.Catalogues.{HasFriction};
ghost use Rattle.edit_script.specs.Scripts.{IsChange};
ghost use Rattle.edit_session.specs.declared.limits.TheConstants.{MAX_EDITS};
ghost use Rattle.edit_session.specs.Current.{IsCurrent, basis};
ghost use Rattle.duct_cli.specs.DesignBytes.{bytes_at};
ghost use Rattle.duct_cli.specs.Designing.{rules_of};
ghost use Rattle.duct_cli.specs.Editing.{AddsStep, AddsSteps, AnswersEdit, AnswersEdits, AnswersLines, AnswersScript, Applies, before_edits};
ghost use Rattle.duct_cli.specs.TakingOff.{names_of};

use crate::answers::{Answer, design_answer, refused, unread_answer};
use crate::crew::Crew;
use crate::designing::{DesignBytes, DesignData, read_files};
use crate::status::{FOUND, READ_FAULT, REFUSED_WORDS};
use crate::taking_off::names_of;
use command_words::FileKind;
use design_rules::{MAX_RULES, SizeRule};
use duct_definitions::MAX_SECTIONS;
use duct_ports::Gate;
use duct_units::{Fault, List, Name, NoMemory, ReadError, Reason};
use edit_script::{ScriptLine, read_script};
use edit_session::{Edit, EditError, Session};
use std::alloc::Global;
use std::thread::Threads;
use text_lines::Text;

/// The answer for the bytes of a project, its catalogues and a script.
pub fn answer_edit<T: Threads + Sync, G: Gate, R: SizeRule>(
    alloc: Global,
    crew: &Crew<'_, T, G>,
    files: &[List<u8>],
    script: &[u8],
    rules: Vec<R>,
) -> Result<Answer, NoMemory>
    requires few { length rules.items ≤ MAX_RULES }
    requires fresh { (i : ℕ) → slice_index (map R.count rules.items) i ≡ 0 }
    requires files { 5 ≤ length files.now }
    ensures answer { IfOk result (λ a. AnswersEdit (rules_of R.allows R.label rules.items) (bytes_at files.now) script.now a.status a.text) }
    ensures status { IfOk result (λ a. (a.status < READ_FAULT) × (a.status ≢ REFUSED_WORDS)) }
{
    match read_files(alloc, &DesignBytes::of_files(files)) {
        Ok(read) => answer_edits(alloc, crew, read, script, rules),
        Err(unread) => unread_answer(alloc, &unread),
    }
}

/// The answer for what the files of a project say, and for the bytes of a script.
fn answer_edits<T: Threads + Sync, G: Gate, R: SizeRule>(
    alloc: Global,
    crew: &Crew<'_, T, G>,
    read: DesignData,
    script: &[u8],
    rules: Vec<R>,
) -> Result<Answer, NoMemory>
    requires few { length rules.items ≤ MAX_RULES }
    requires fresh { (i : ℕ) → slice_index (map R.count rules.items) i ≡ 0 }
    requires project { IsProject read.project }
    requires friction { HasFriction read.sizes read.friction }
    ensures answer { IfOk result (λ a. AnswersEdits (rules_of R.allows R.label rules.items) (before_edits read) script.now a.status a.text) }
    ensures status { IfOk result (λ a. (a.status < READ_FAULT) × (a.status ≢ REFUSED_WORDS)) }
{
    match read_script(alloc, script) {
        Ok(lines) => answer_script(alloc, crew, read, lines.as_slice(), rules),
        Err(ReadError::Refused(fault)) => refused(alloc, FileKind::Script, &fault),
        Err(ReadError::NoMemory) => Err(NoMemory),
    }
}

/// The answer for what the files of a project say, and for the lines of a script.
fn answer_script<T: Threads + Sync, G: Gate, R: SizeRule>(
    alloc: Global,
    crew: &Crew<'_, T, G>,
    read: DesignData,
    lines: &[ScriptLine],
    rules: Vec<R>,
) -> Result<Answer, NoMemory>
    requires few { length rules.items ≤ MAX_RULES }
    requires fresh { (i : ℕ) → slice_index (map R.count rules.items) i ≡ 0 }
    requires project { IsProject read.project }
    requires friction { HasFriction read.sizes read.friction }
    requires lines { All (λ l. IsChange l.change) lines.now }
    requires few_lines { length lines.now ≤ MAX_EDITS }
    ensures answer { IfOk result (λ a. AnswersScript (rules_of R.allows R.label rules.items) (before_edits read) lines.now a.status a.text) }
    ensures status { IfOk result (λ a. (a.status < READ_FAULT) × (a.status ≢ REFUSED_WORDS)) }
{
    let names = names_of(alloc, read.project.sections.as_slice())?;
    let count = read.project.tree.len();
    match Session::start(
        crew.rt,
        alloc,
        read.project,
        read.sizes,
        read.friction,
        read.fittings,
        read.fans,
        rules,
        crew.workers,
        crew.gate,
    ) {
        Ok(session) => answer_begun(alloc, session, names.as_slice(), count as usize, lines),
        Err(ReadError::Refused(fault)) => refused(alloc, FileKind::Project, &fault),
        Err(ReadError::NoMemory) => Err(NoMemory),
    }
}

/// The answer of a session that has begun.
fn answer_begun<R: SizeRule>(
    alloc: Global,
    mut session: Session<R>,
    names: &[Name],
    count: usize,
    lines: &[ScriptLine],
) -> Result<Answer, NoMemory>
    requires current { IsCurrent R.allows R.label R.count session.rules.items session.state }
    requires names { IfSome (basis session.state) (λ now. names.now ≡ names_of now.project) }
    requires count { IfSome (basis session.state) (λ now. count ≡ section_count now.project.tree) }
    requires lines { All (λ l. IsChange l.change) lines.now }
    requires few { IfSome (basis session.state) (λ now. now.edits + length lines.now ≤ MAX_EDITS) }
    ensures answer { IfOk result (λ a. IfSome (basis session.state) (λ now.
        AnswersLines (rules_of R.allows R.label session.rules.items) now lines.now a.status a.text)) }
    ensures status { IfOk result (λ a. (a.status < READ_FAULT) × (a.status ≢ REFUSED_WORDS)) }
{
    answer_lines(alloc, &mut session, names, count, lines)
}

/// The texts of a project before and after each line; or the line that is refused.
fn answer_lines<R: SizeRule>(
    alloc: Global,
    session: &mut Session<R>,
    names: &[Name],
    count: usize,
    lines: &[ScriptLine],
) -> Result<Answer, NoMemory>
    requires current { IsCurrent R.allows R.label R.count session.old.rules.items session.old.state }
    requires names { IfSome (basis session.old.state) (λ now. names.now ≡ names_of now.project) }
    requires count { IfSome (basis session.old.state) (λ now. count ≡ section_count now.project.tree) }
    requires lines { All (λ l. IsChange l.change) lines.now }
    requires few { IfSome (basis session.old.state) (λ now. now.edits + length lines.now ≤ MAX_EDITS) }
    ensures answer { IfOk result (λ a. IfSome (basis session.old.state) (λ now.
        AnswersLines (rules_of R.allows R.label session.old.rules.items) now lines.now a.status a.text)) }
    ensures status { IfOk result (λ a. (a.status < READ_FAULT) × (a.status ≢ REFUSED_WORDS)) }
{
    let mut text = Vec::new(alloc);
    match add_steps(alloc, &mut text, session, names, count, lines) {
        Ok(()) => Ok(Answer {
            status: FOUND,
            text: List::from_vec(text),
        }),
        Err(ReadError::Refused(fault)) => refused(alloc, FileKind::Script, &fault),
        Err(ReadError::NoMemory) => Err(NoMemory),
    }
}

/// Adds the text of the project as it is now, `again` sections of which were condensed for it, and those after each
/// line.
fn add_steps<R: SizeRule>(
    alloc: Global,
    text: &mut Vec<u8>,
    session: &mut Session<R>,
    names: &[Name],
    again: usize,
    lines: &[ScriptLine],
) -> Result<(), ReadError>
    requires current { IsCurrent R.allows R.label R.count session.old.rules.items session.old.state }
    requires names { IfSome (basis session.old.state) (λ now. names.now ≡ names_of now.project) }
    requires lines { All (λ l. IsChange l.change) lines.now }
    requires few { IfSome (basis session.old.state) (λ now. now.edits + length lines.now ≤ MAX_EDITS) }
    ensures { IfSome (basis session.old.state) (λ now.
        AddsSteps (rules_of R.allows R.label session.old.rules.items) now again lines.now text.old.items text.new.items result) }
{
    let mut again = again;
    for line in lines {
        add_step(alloc, text, session, again)?;
        again = apply_line(alloc, session, names, line)?;
    }
    add_step(alloc, text, session, again)?;
    Ok(())
}

/// Applies the edit of a line, and answers how many sections it touches.
fn apply_line<R: SizeRule>(
    alloc: Global,
    session: &mut Session<R>,
    names: &[Name],
    line: &ScriptLine,
) -> Result<usize, ReadError>
    requires current { IsCurrent R.allows R.label R.count session.old.rules.items session.old.state }
    requires names { IfSome (basis session.old.state) (λ now. names.now ≡ names_of now.project) }
    requires change { IsChange line.now.change }
    requires edits { IfSome (basis session.old.state) (λ now. now.edits < MAX_EDITS) }
    ensures value { IfSome (basis session.old.state) (λ now. Applies now line.now (basis session.new.state) result) }
    ensures current { OnOk result (IsCurrent R.allows R.label R.count session.new.rules.items session.new.state) }
    ensures same { SameRules R.allows R.label session.old.rules.items session.new.rules.items }
{
    let n = session.edits() + 1;
    let Some(section) = place_of(names, &line.section) else {
        return Err(Fault::of_line(n, Reason::UnknownSection).into());
    };
    let edit = Edit {
        section,
        change: line.change,
    };
    match session.apply(alloc, &edit) {
        Ok(touched) => Ok(touched.as_slice().len()),
        Err(EditError::Refused(reason)) => Err(Fault::of_line(n, reason).into()),
        Err(EditError::NoMemory) => Err(ReadError::NoMemory),
    }
}

/// The number of the section of this name.
fn place_of(names: &[Name], name: &Name) -> Option<u32>
    requires { length names.now ≤ MAX_SECTIONS }
    ensures value { result ≡ place_of name.now names.now }
    ensures within { IfSome result (λ s. s < length names.now) }
{
    for i in 0..names.len() {
        if names[i] == *name {
            return Some(i as u32);
        }
    }
    None
}

/// Adds the text of the project as it is now, `again` sections of which were condensed for it.
fn add_step<R: SizeRule>(
    alloc: Global,
    text: &mut Vec<u8>,
    session: &Session<R>,
    again: usize,
) -> Result<(), NoMemory>
    requires current { IsCurrent R.allows R.label R.count session.now.rules.items session.now.state }
    ensures { OnOk result (IfSome (basis session.now.state) (λ now.
        AddsStep (rules_of R.allows R.label session.now.rules.items) now again text.old.items text.new.items)) }
{
    let net = session.network();
    let refusals = session.refusals().as_slice();
    let answer = design_answer(alloc, net, session.best(), refusals)?;
    add_number(alloc, text, b"edit", u64::from(session.edits()))?;
    text.extend_from_slice(answer.text.as_slice())?;
    add_number(alloc, text, b"again", again as u64)
}

/// Adds a line of a word and a number.
fn add_number(alloc: Global, text: &mut Vec<u8>, word: &[u8], n: u64) -> Result<(), NoMemory>
    ensures { OnOk result (text.new.items ≡ text.old.items ++ line word.now (decimal n ∷ [])) }
{
    let mut added = Text::new(alloc);
    added.numbers(alloc, word, &[n])?;
    text.extend_from_slice(added.into_list().as_slice())?;
    Ok(())
}
