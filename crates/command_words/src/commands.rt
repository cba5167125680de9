//! The commands, and which files each of them names.
ghost use Rattle.std.specs.Prelude.{◌≡◌, ◌++◌, ◌∷◌, [], map, IfOk, OnOk};
ghost use Rattle.command_words.specs.Commands.{files_of, catalogue_files, project_files, verify_files, named};
ghost use Rattle.command_words.specs.WordsSeen.{command_seen, design_seen, file_seen, verify_seen};

use duct_units::NoMemory;
use std::alloc::Global;

/// What a named file is; the FILE word of a refusal.
#[derive(Clone, Copy, Debug, PartialEq, Eq)]
pub enum FileKind {
    Network,
    Project,
    Sizes,
    Ducts,
    Friction,
    Fittings,
    Fans,
    ReturnFans,
    /// The text of a design.
    Design,
    /// The text of a certificate.
    Certificate,
    /// The lines of an edit script.
    Script,
}

/// A file that a word names.
#[derive(Clone, Copy)]
pub struct FileWord<'w> {
    pub kind: FileKind,
    pub name: &'w str,
}

/// The files of a project, by name.
#[derive(Clone, Copy)]
pub struct DesignWords<'w> {
    pub project: &'w str,
    pub sizes: &'w str,
    pub friction: &'w str,
    pub fittings: &'w str,
    pub fans: &'w str,
    /// The fans that are offered to the return side, where they are named.
    pub return_fans: Option<&'w str>,
}

/// The words of `friction`: a catalogue, its ducts, and the air that they carry.
#[derive(Clone, Copy)]
pub struct FrictionWords<'w> {
    pub sizes: &'w str,
    pub ducts: &'w str,
    /// g/m3.
    pub density: u64,
    /// nPa s.
    pub viscosity: u64,
}

/// The words of `verify`.
#[derive(Clone, Copy)]
pub struct VerifyWords<'w> {
    pub network: &'w str,
    pub certificate: &'w str,
    /// The text of a design that is tested with the certificate, where it is named.
    pub design: Option<&'w str>,
}

/// The words of `takeoff`.
#[derive(Clone, Copy)]
pub struct TakeoffWords<'w> {
    pub project: &'w str,
    /// The text of its design.
    pub design: &'w str,
}

/// A command, with the names of its files.
#[derive(Clone, Copy)]
pub enum Command<'w> {
    /// The least-cost design of a network file.
    Pick(&'w str),
    /// A project file in format 2.
    Migrate(&'w str),
    /// A friction file for a catalogue.
    Friction(FrictionWords<'w>),
    /// The least-cost design of a project.
    Design(DesignWords<'w>),
    /// What a design text says otherwise than the design of a project that it names.
    Check(DesignWords<'w>, &'w str),
    /// The summary of the made network of so many sections.
    Make(u32),
    /// A certificate of a network file.
    Certify(&'w str),
    /// Whether a certificate of a network file is sound, and whether a design is certified by it.
    Verify(VerifyWords<'w>),
    /// What to buy for a design of a project.
    Takeoff(TakeoffWords<'w>),
    /// The least-cost design of a project, and the one after each line of a script that it names.
    Edit(DesignWords<'w>, &'w str),
}

impl<'w> Command<'w> {
    /// The files that the command names, in the order in which they are taken.
    pub fn files(&self, alloc: Global) -> Result<Vec<FileWord<'w>>, NoMemory>
        ensures { IfOk result (λ files. map file_seen files.items ≡ files_of (command_seen self.now)) }
    {
        match self {
            Command::Pick(network) | Command::Certify(network) => {
                one(alloc, FileKind::Network, network)
            }
            Command::Migrate(project) => one(alloc, FileKind::Project, project),
            Command::Friction(words) => two(
                alloc,
                FileKind::Sizes,
                words.sizes,
                FileKind::Ducts,
                words.ducts,
            ),
            Command::Design(words) => project_files(alloc, words),
            Command::Make(_) => Ok(Vec::new(alloc)),
            Command::Check(words, text) => {
                let mut files = project_files(alloc, words)?;
                add(&mut files, FileKind::Design, text)?;
                Ok(files)
            }
            Command::Edit(words, script) => {
                let mut files = project_files(alloc, words)?;
                add(&mut files, FileKind::Script, script)?;
                Ok(files)
            }
            Command::Verify(words) => verify_files(alloc, words),
            Command::Takeoff(words) => two(
                alloc,
                FileKind::Project,
                words.project,
                FileKind::Design,
                words.design,
            ),
        }
    }
}

/// The one file of a command.
fn one<'w>(alloc: Global, kind: FileKind, name: &'w str) -> Result<Vec<FileWord<'w>>, NoMemory>
    ensures { IfOk result (λ files. map file_seen files.items ≡ named kind name.now ∷ []) }
{
    Ok(vec![in alloc; FileWord { kind, name }]?)
}

/// The two files of a command.
fn two<'w>(
    alloc: Global,
    kind: FileKind,
    name: &'w str,
    other: FileKind,
    second: &'w str,
) -> Result<Vec<FileWord<'w>>, NoMemory>
    ensures { IfOk result (λ files. map file_seen files.items ≡ named kind name.now ∷ named other second.now ∷ []) }
{
    let mut files = one(alloc, kind, name)?;
    add(&mut files, other, second)?;
    Ok(files)
}

/// Adds the next file.
fn add<'w>(files: &mut Vec<FileWord<'w>>, kind: FileKind, name: &'w str) -> Result<(), NoMemory>
    ensures { OnOk result (map file_seen files.new.items ≡ map file_seen files.old.items ++ named kind name.now ∷ []) }
{
    Ok(files.push(FileWord { kind, name })?)
}

/// The files of `verify`.
fn verify_files<'w>(alloc: Global, words: &VerifyWords<'w>) -> Result<Vec<FileWord<'w>>, NoMemory>
    ensures { IfOk result (λ files. map file_seen files.items ≡ verify_files (verify_seen words.now)) }
{
    let mut files = two(
        alloc,
        FileKind::Network,
        words.network,
        FileKind::Certificate,
        words.certificate,
    )?;
    if let Some(name) = words.design {
        add(&mut files, FileKind::Design, name)?;
    }
    Ok(files)
}

/// The files of a project, its catalogues and the return fans.
fn project_files<'w>(alloc: Global, words: &DesignWords<'w>) -> Result<Vec<FileWord<'w>>, NoMemory>
    ensures { IfOk result (λ files. map file_seen files.items ≡ project_files (design_seen words.now)) }
{
    let mut files = catalogue_files(alloc, words)?;
    if let Some(name) = words.return_fans {
        add(&mut files, FileKind::ReturnFans, name)?;
    }
    Ok(files)
}

/// The same but for the return fans.
fn catalogue_files<'w>(
    alloc: Global,
    words: &DesignWords<'w>,
) -> Result<Vec<FileWord<'w>>, NoMemory>
    ensures { IfOk result (λ files. map file_seen files.items ≡ catalogue_files (design_seen words.now)) }
{
    let files = [
        FileWord {
            kind: FileKind::Project,
            name: words.project,
        },
        FileWord {
            kind: FileKind::Sizes,
            name: words.sizes,
        },
        FileWord {
            kind: FileKind::Friction,
            name: words.friction,
        },
        FileWord {
            kind: FileKind::Fittings,
            name: words.fittings,
        },
        FileWord {
            kind: FileKind::Fans,
            name: words.fans,
        },
    ];
    Ok(files.to_vec(alloc)?)
}
