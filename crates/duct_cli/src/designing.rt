//! The network of a project and its catalogues, by the rules that are handed in.
ghost use Rattle.std.specs.Prelude.{◌≡◌, ℕ, ◌≤◌, [], length, map, slice_index, IfOk, Ok, Result, option_map};
ghost use Rattle.duct_units.specs.declared.fault.Fault.{Fault};
ghost use Rattle.duct_units.specs.Rules.{Gives};
ghost use Rattle.project_file.specs.Projects.{IsProject};
ghost use Rattle.net_build.specs.Catalogues.{HasFriction};
ghost use Rattle.duct_cli.specs.declared.designing.Unread.TheVariants.{NoMemory as out_of_memory};
ghost use Rattle.duct_cli.specs.Checking.{checking};
ghost use Rattle.duct_cli.specs.Designing.{Yields, data_of, designing, joined, of_file, return_fans_of, rules_of, with_return_fans};
ghost use Rattle.duct_cli.specs.DesignBytes.{bytes_seen, bytes_at};

use command_words::{DesignWords, FileKind};
use design_rules::{MAX_RULES, SizeRule};
use design_text::read as read_design;
use duct_definitions::Listed;
use duct_units::{Fault, List, NoMemory, ReadError, Side};
use fan_points::{Fans, read_fans};
use fitting_tables::{Fittings, read_fittings};
use friction_table::{Friction, read_friction};
use net_build::{Refusals, build, offer};
use net_model::Network;
use project_file::{Project, read_project};
use size_catalogue::{Sizes, read_sizes};
use std::alloc::Global;

/// The refusal of a file.
#[derive(Drop)]
pub struct Refusal {
    pub file: FileKind,
    pub fault: Fault,
}

/// Why files give no network.
#[derive(Drop)]
pub enum Unread {
    Refused(Refusal),
    NoMemory,
}

/// What the files of a design say.
#[derive(Drop)]
pub struct DesignData {
    pub project: Project,
    pub sizes: Sizes,
    pub friction: Friction,
    pub fittings: Fittings,
    pub fans: Fans,
    /// The fans that are offered to the return side, where they are named.
    pub return_fans: Option<Fans>,
}

/// The bytes of the files of a design.
#[derive(Clone, Copy)]
pub struct DesignBytes<'b> {
    pub project: &'b [u8],
    pub sizes: &'b [u8],
    pub friction: &'b [u8],
    pub fittings: &'b [u8],
    pub fans: &'b [u8],
    pub return_fans: Option<&'b [u8]>,
}

impl<'b> DesignBytes<'b> {
    /// The bytes of files that were taken in the order of the words.
    pub fn of_files(files: &'b [List<u8>]) -> DesignBytes<'b>
        requires { 5 ≤ length files.now }
        ensures { bytes_seen result ≡ bytes_at files.now }
    {
        DesignBytes {
            project: files[0].as_slice(),
            sizes: files[1].as_slice(),
            friction: files[2].as_slice(),
            fittings: files[3].as_slice(),
            fans: files[4].as_slice(),
            return_fans: match files.get(5) {
                Some(bytes) => Some(bytes.as_slice()),
                None => None,
            },
        }
    }
}

/// The network of the files, with how many pairs each rule refused; or the first refusal: of the files in the order of
/// the words, and then the first name that joins nothing.
pub fn network_of_files<R: SizeRule>(
    alloc: Global,
    bytes: &DesignBytes<'_>,
    rules: Vec<R>,
) -> Result<(Network, Refusals), Unread>
    requires few { length rules.items ≤ MAX_RULES }
    requires fresh { (i : ℕ) → slice_index (map R.count rules.items) i ≡ 0 }
    ensures { Yields result (designing (rules_of R.allows R.label rules.items) (bytes_seen bytes.now)) }
{
    let read = read_files(alloc, bytes)?;
    join(alloc, &read, rules)
}

/// The network of the files and the fields of a design text; or the first refusal: of the files in the order of the
/// words, the text last, and then the first name that joins nothing.
pub fn network_and_text<R: SizeRule>(
    alloc: Global,
    bytes: &DesignBytes<'_>,
    text: &[u8],
    rules: Vec<R>,
) -> Result<(Network, Listed), Unread>
    requires few { length rules.items ≤ MAX_RULES }
    requires fresh { (i : ℕ) → slice_index (map R.count rules.items) i ≡ 0 }
    ensures { Yields result (checking (rules_of R.allows R.label rules.items) (bytes_seen bytes.now) text.now) }
{
    let read = read_files(alloc, bytes)?;
    let listed = of_file(FileKind::Design, read_design(alloc, text))?;
    let (net, _) = join(alloc, &read, rules)?;
    Ok((net, listed))
}

/// What the files of a design say, or the first refusal in the order of the words.
pub fn read_files(alloc: Global, bytes: &DesignBytes<'_>) -> Result<DesignData, Unread>
    ensures value { Yields result (data_of (bytes_seen bytes.now)) }
    ensures project { IfOk result (λ said. IsProject said.project) }
    ensures friction { IfOk result (λ said. HasFriction said.sizes said.friction) }
{
    let project = of_file(FileKind::Project, read_project(alloc, bytes.project))?;
    let sizes = of_file(FileKind::Sizes, read_sizes(alloc, bytes.sizes))?;
    let friction = of_file(
        FileKind::Friction,
        read_friction(alloc, bytes.friction, &sizes),
    )?;
    let fittings = of_file(FileKind::Fittings, read_fittings(alloc, bytes.fittings))?;
    let fans = of_file(FileKind::Fans, read_fans(alloc, bytes.fans))?;
    let return_fans = read_return_fans(alloc, bytes.return_fans)?;
    Ok(DesignData {
        project,
        sizes,
        friction,
        fittings,
        fans,
        return_fans,
    })
}

/// The fans that are offered to the return side, where their file is named.
fn read_return_fans(alloc: Global, bytes: Option<&[u8]>) -> Result<Option<Fans>, Unread>
    ensures { Yields result (return_fans_of (option_map (λ b. b.now) bytes.entry)) }
{
    match bytes {
        Some(bytes) => Ok(Some(of_file(FileKind::ReturnFans, read_fans(alloc, bytes))?)),
        None => Ok(None),
    }
}

/// The network of what the files say, with how many pairs each rule refused; or the first name that joins nothing.
fn join<R: SizeRule>(
    alloc: Global,
    read: &DesignData,
    rules: Vec<R>,
) -> Result<(Network, Refusals), Unread>
    requires few { length rules.items ≤ MAX_RULES }
    requires fresh { (i : ℕ) → slice_index (map R.count rules.items) i ≡ 0 }
    requires project { IsProject read.now.project }
    requires friction { HasFriction read.now.sizes read.now.friction }
    ensures { Yields result (joined (rules_of R.allows R.label rules.items) read.now) }
{
    let built = build(
        alloc,
        &read.project,
        &read.sizes,
        &read.friction,
        &read.fittings,
        &read.fans,
        rules,
    );
    let (net, refusals) = of_file(FileKind::Project, built)?;
    Ok((with_return_fans(alloc, read, net)?, refusals))
}

/// The network with the fans that are offered to the return side at its airflow.
fn with_return_fans(alloc: Global, read: &DesignData, net: Network) -> Result<Network, NoMemory>
    requires project { IsProject read.now.project }
    requires none { net.return_fans ≡ [] }
    ensures { IfOk result (λ found. found ≡ with_return_fans read.now net) }
{
    match &read.return_fans {
        Some(fans) => {
            let flow = read.project.flows.side_flow(Side::Return);
            Ok(net.with_return_fans(offer(alloc, fans, &read.project.energy, flow)?))
        }
        None => Ok(net),
    }
}

/// What a file says, or its refusal.
fn of_file<T>(file: FileKind, read: Result<T, ReadError>) -> Result<T, Unread>
    ensures said { (said : Result T Fault) → Gives read said → Yields result (of_file file said) }
    ensures read { IfOk result (λ value. read ≡ Ok value) }
{
    match read {
        Ok(value) => Ok(value),
        Err(ReadError::Refused(fault)) => Err(Unread::Refused(Refusal { file, fault })),
        Err(ReadError::NoMemory) => Err(Unread::NoMemory),
    }
}

impl From<NoMemory> for Unread {
    ghost from_gives = { λ _ error. error ≡ out_of_memory };

    fn from(_error: NoMemory) -> Unread {
        Unread::NoMemory
    }
}
