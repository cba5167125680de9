//! Writing all bytes to a sink.
ghost use Rattle.std.specs.Prelude.{◌≡◌, ◌≤◌, [], is_some, OnOk, OnErr};
ghost use Rattle.std.specs.Io.KnownBytes.{Appends};
ghost use Rattle.duct_ports.specs.Faults.{Rose};
ghost use Rattle.duct_ports.specs.Writing.{AppendsPart};

use crate::sink::Sink;
use thiserror::Error;

/// Not all bytes were taken.
#[derive(Debug, Drop, Error)]
#[error("not all bytes were taken")]
pub struct WriteFault;

/// Writes the bytes in order, and offers all that are left at each write.
#[tactic(auto, using(crate::proofs::Pieces::appends_more))]
pub fn write_all<W: Sink>(sink: &mut W, bytes: &[u8]) -> Result<(), WriteFault>
    ensures bytes { OnOk result (Appends (W.taken sink.old) (W.taken sink.new) bytes.now) }
    ensures part { OnErr result (AppendsPart (W.taken sink.old) (W.taken sink.new) bytes.now) }
    ensures empty { bytes.now ≡ [] → sink.new ≡ sink.old }
    ensures tells { is_some (W.taken sink.new) ≡ is_some (W.taken sink.old) }
    ensures count { W.fault_count sink.old ≤ W.fault_count sink.new }
    ensures cause { OnErr result (Rose (W.fault_count sink.old) (W.fault_count sink.new)) }
{
    let mut at = 0;
    'pieces: while at < bytes.len() {
        match sink.write(&bytes[at..]) {
            Ok(count) => at += count,
            Err(_) => return Err(WriteFault),
        }
    }
    Ok(())
}
