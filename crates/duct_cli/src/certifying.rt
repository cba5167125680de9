//! What `certify` and `verify` answer.
ghost use Rattle.std.specs.Prelude.{◌≡◌, ◌≢◌, ◌<◌, length, option_map, IfOk};
ghost use Rattle.duct_units.specs.Rules.{Gives};
ghost use Rattle.front_certificate.specs.Certificates.{front_count};
ghost use Rattle.certified_design.specs.Findings.{NamesSection};
ghost use Rattle.duct_cli.specs.Certifying.{AnswersBeside, AnswersCertificate, AnswersCertify, AnswersVerify, finding_line, finding_status, listed_of};

use crate::answers::{Answer, refused};
use crate::crew::Crew;
use crate::status::{FOUND, NONE_FOUND, READ_FAULT, REFUSED_WORDS};
use certified_design::{Finding, judge};
use command_words::FileKind;
use design_text::read as read_design;
use duct_definitions::Listed;
use duct_ports::Gate;
use duct_units::{List, NoMemory, ReadError};
use exact_certificate::certify;
use front_certificate::{Certificate, read_certificate, write};
use net_model::Network;
use network_file::read_network;
use std::alloc::Global;
use std::thread::Threads;
use text_lines::one_line;

/// The answer for the bytes of a network file that is to be certified.
pub fn answer_certify<T: Threads + Sync, G: Gate>(
    alloc: Global,
    crew: &Crew<'_, T, G>,
    bytes: &[u8],
) -> Result<Answer, NoMemory>
    ensures answer { IfOk result (λ a. AnswersCertify bytes.now a.status a.text) }
    ensures status { IfOk result (λ a. (a.status < READ_FAULT) × (a.status ≢ REFUSED_WORDS)) }
{
    match read_network(alloc, bytes) {
        Ok(net) => {
            let c = certify(crew.rt, alloc, &net, crew.workers, crew.gate)?;
            Ok(Answer {
                status: FOUND,
                text: write(alloc, &net, &c)?,
            })
        }
        Err(ReadError::Refused(fault)) => refused(alloc, FileKind::Network, &fault),
        Err(ReadError::NoMemory) => Err(NoMemory),
    }
}

/// The answer for the bytes of a network file, of a certificate, and of a design text where there are any.
pub fn answer_verify(
    alloc: Global,
    network: &[u8],
    certificate: &[u8],
    design: Option<&[u8]>,
) -> Result<Answer, NoMemory>
    ensures answer { IfOk result (λ a. AnswersVerify network.now certificate.now (option_map (λ b. b.now) design.entry) a.status a.text) }
    ensures status { IfOk result (λ a. (a.status < READ_FAULT) × (a.status ≢ REFUSED_WORDS)) }
{
    match read_network(alloc, network) {
        Ok(net) => answer_certificate(alloc, &net, certificate, design),
        Err(ReadError::Refused(fault)) => refused(alloc, FileKind::Network, &fault),
        Err(ReadError::NoMemory) => Err(NoMemory),
    }
}

/// The answer for the bytes of a certificate of the network.
fn answer_certificate(
    alloc: Global,
    net: &Network,
    bytes: &[u8],
    design: Option<&[u8]>,
) -> Result<Answer, NoMemory>
    ensures answer { IfOk result (λ a. AnswersCertificate net.now bytes.now (option_map (λ b. b.now) design.entry) a.status a.text) }
    ensures status { IfOk result (λ a. (a.status < READ_FAULT) × (a.status ≢ REFUSED_WORDS)) }
{
    match read_certificate(alloc, net, bytes) {
        Ok(c) => answer_beside(alloc, net, &c, design),
        Err(ReadError::Refused(fault)) => refused(alloc, FileKind::Certificate, &fault),
        Err(ReadError::NoMemory) => Err(NoMemory),
    }
}

/// The answer for a certificate of the network, and for the bytes of a design text where there are any.
fn answer_beside(
    alloc: Global,
    net: &Network,
    c: &Certificate,
    design: Option<&[u8]>,
) -> Result<Answer, NoMemory>
    requires { length c.now.fronts ≡ front_count net.now }
    ensures answer { IfOk result (λ a. AnswersBeside net.now c.now (option_map (λ b. b.now) design.entry) a.status a.text) }
    ensures status { IfOk result (λ a. (a.status < READ_FAULT) × (a.status ≢ REFUSED_WORDS)) }
{
    match read_listed(alloc, design) {
        Ok(listed) => finding_answer(alloc, net, judge(net, c, &listed)),
        Err(ReadError::Refused(fault)) => refused(alloc, FileKind::Design, &fault),
        Err(ReadError::NoMemory) => Err(NoMemory),
    }
}

/// The fields of the design text, where there is one.
fn read_listed(alloc: Global, bytes: Option<&[u8]>) -> Result<Option<Listed>, ReadError>
    ensures { Gives result (listed_of (option_map (λ b. b.now) bytes.entry)) }
{
    match bytes {
        Some(bytes) => Ok(Some(read_design(alloc, bytes)?)),
        None => Ok(None),
    }
}

/// The status and the line of what is found.
fn finding_answer(alloc: Global, net: &Network, finding: Finding) -> Result<Answer, NoMemory>
    requires { NamesSection net.now finding }
    ensures answer { IfOk result (λ a. (a.status ≡ finding_status finding) × (a.text ≡ finding_line net.now finding)) }
    ensures status { IfOk result (λ a. (a.status < READ_FAULT) × (a.status ≢ REFUSED_WORDS)) }
{
    Ok(Answer {
        status: finding_status(finding),
        text: finding_line(alloc, net, finding)?,
    })
}

fn finding_status(finding: Finding) -> u8
    ensures value { result ≡ finding_status finding }
    ensures status { (result < READ_FAULT) × (result ≢ REFUSED_WORDS) }
{
    match finding {
        Finding::Yes => FOUND,
        _ => NONE_FOUND,
    }
}

fn finding_line(alloc: Global, net: &Network, finding: Finding) -> Result<List<u8>, NoMemory>
    requires { NamesSection net.now finding }
    ensures { IfOk result (λ text. text ≡ finding_line net.now finding) }
{
    match finding {
        Finding::Yes => one_line(alloc, b"certificate", &[b"yes"]),
        Finding::Section(s) => {
            let name = net.section_name(s);
            one_line(alloc, b"certificate", &[b"no", b"section", name.bytes()])
        }
        Finding::Total => one_line(alloc, b"certificate", &[b"no", b"total"]),
        Finding::Design => one_line(alloc, b"certificate", &[b"no", b"design"]),
    }
}
