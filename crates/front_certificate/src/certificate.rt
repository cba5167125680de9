//! A certificate as a value.
ghost use Rattle.std.specs.Prelude.{◌≡◌, [], ◌∷◌, ◌++◌, All, IfOk, OnOk, OnErr, IfErr};
ghost use Rattle.pareto_front.specs.Front.{IsFront};

use duct_units::NoMemory;
use pareto_front::Front;
use std::alloc::Global;
use std::marker::Model;

/// A stated total, and the fronts of the sections in file order, of each section beside each size of its neighbour. A
/// contract sees the total and the list of the fronts.
#[derive(Debug, Drop)]
pub struct Certificate {
    total: Option<u64>,
    fronts: Vec<Front>,
}

impl Model for Certificate {
    ghost use Rattle.std.specs.Prelude.{All};
    ghost use Rattle.pareto_front.specs.Front.{IsFront};
    ghost use Rattle.front_certificate.specs.Certificates.{Certificate as CertificateData};

    ghost Value = { CertificateData };

    ghost view = { λ c. record { total = c.total; fronts = c.fronts.items } };

    ghost invariant = { λ c. All IsFront c.fronts.items };
}

impl Certificate {
    /// A certificate without fronts yet; no total where it says that no design meets the rules. Takes no memory.
    pub fn start(alloc: Global, total: Option<u64>) -> Certificate
        ensures { result ≡ record { total = total; fronts = [] } }
    {
        Certificate {
            total,
            fronts: Vec::new(alloc),
        }
    }

    /// Adds the next front, which is moved. Without memory nothing changes.
    pub fn push(&mut self, front: Front) -> Result<(), NoMemory>
        ensures pushed { OnOk result (self.new ≡ record self.old { fronts = self.old.fronts ++ front ∷ [] }) }
        ensures refused { OnErr result (self.new ≡ self.old) }
    {
        let _ = front.points();
        Ok(self.fronts.push(front)?)
    }

    /// The stated total, cents; None where it says that no design meets the rules.
    pub fn total(&self) -> Option<u64>
        ensures { result ≡ self.now.total }
    {
        self.total
    }

    /// The fronts in order.
    pub fn fronts(&self) -> &[Front]
        ensures value { result.now ≡ self.now.fronts }
        ensures rising { All IsFront self.now.fronts }
    {
        self.fronts.as_slice()
    }
}
