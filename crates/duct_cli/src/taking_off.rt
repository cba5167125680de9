//! What `takeoff` answers.
ghost use Rattle.std.specs.Prelude.{◌≡◌, ◌≢◌, ◌<◌, ◌≤◌, length, map, All, IfOk};
ghost use Rattle.duct_definitions.specs.declared.duct.TheConstants.{MAX_LENGTH};
ghost use Rattle.duct_definitions.specs.declared.limits.TheConstants.{MAX_SECTIONS};
ghost use Rattle.project_file.specs.Projects.{IsProject};
ghost use Rattle.duct_cli.specs.TakingOff.{AnswersMaterial, AnswersTakeoff, AnswersText};

use crate::answers::{Answer, refused};
use crate::status::{FOUND, NONE_FOUND, READ_FAULT, REFUSED_WORDS};
use command_words::FileKind;
use design_text::read as read_design;
use duct_definitions::Listed;
use duct_units::{Fault, List, Name, NoMemory, ReadError, Reason};
use material_takeoff::{TakeOffError, print_no_cost, print_takeoff, takeoff};
use project_file::{Project, SectionRow, read_project};
use std::alloc::Global;

/// The answer for the bytes of a project file and of the text of its design.
pub fn answer_takeoff(alloc: Global, project: &[u8], text: &[u8]) -> Result<Answer, NoMemory>
    ensures answer { IfOk result (λ a. AnswersTakeoff project.now text.now a.status a.text) }
    ensures status { IfOk result (λ a. (a.status < READ_FAULT) × (a.status ≢ REFUSED_WORDS)) }
{
    match read_project(alloc, project) {
        Ok(project) => answer_text(alloc, &project, text),
        Err(ReadError::Refused(fault)) => refused(alloc, FileKind::Project, &fault),
        Err(ReadError::NoMemory) => Err(NoMemory),
    }
}

/// The answer for the bytes of the text of a design of the project.
fn answer_text(alloc: Global, project: &Project, text: &[u8]) -> Result<Answer, NoMemory>
    requires { IsProject project.now }
    ensures answer { IfOk result (λ a. AnswersText project.now text.now a.status a.text) }
    ensures status { IfOk result (λ a. (a.status < READ_FAULT) × (a.status ≢ REFUSED_WORDS)) }
{
    match read_design(alloc, text) {
        Ok(listed) => answer_listed(alloc, project, &listed),
        Err(ReadError::Refused(fault)) => refused(alloc, FileKind::Design, &fault),
        Err(ReadError::NoMemory) => Err(NoMemory),
    }
}

/// The answer for the fields of a design of the project.
fn answer_listed(alloc: Global, project: &Project, listed: &Listed) -> Result<Answer, NoMemory>
    requires { IsProject project.now }
    ensures answer { IfOk result (λ a. AnswersMaterial project.now listed.now a.status a.text) }
    ensures status { IfOk result (λ a. (a.status < READ_FAULT) × (a.status ≢ REFUSED_WORDS)) }
{
    let names = names_of(alloc, project.sections.as_slice())?;
    let lengths = lengths_of(alloc, project.sections.as_slice())?;
    match takeoff(alloc, &names, &lengths, listed) {
        Ok(material) => Ok(Answer {
            status: FOUND,
            text: print_takeoff(alloc, &material, listed)?,
        }),
        Err(TakeOffError::Names(n)) => refused(
            alloc,
            FileKind::Design,
            &Fault::of_section(n, Reason::UnknownSection),
        ),
        Err(TakeOffError::Total) => Ok(Answer {
            status: NONE_FOUND,
            text: print_no_cost(alloc)?,
        }),
        Err(TakeOffError::NoMemory) => Err(NoMemory),
    }
}

/// The names of the sections.
pub fn names_of(alloc: Global, sections: &[SectionRow]) -> Result<List<Name>, NoMemory>
    ensures { IfOk result (λ names. names ≡ map (λ row. row.name) sections.now) }
{
    let mut names = Vec::new(alloc);
    for row in sections {
        names.push(row.name)?;
    }
    Ok(List::from_vec(names))
}

/// The lengths of the sections, mm.
fn lengths_of(alloc: Global, sections: &[SectionRow]) -> Result<List<u64>, NoMemory>
    ensures { IfOk result (λ lengths. lengths ≡ map (λ row. row.length) sections.now) }
{
    let mut lengths = Vec::new(alloc);
    for row in sections {
        lengths.push(row.length)?;
    }
    Ok(List::from_vec(lengths))
}
