//! What condensing a section came to.
ghost use Rattle.std.specs.Prelude.{◌≡◌};
ghost use Rattle.contract_join.specs.Outcomes.{section_of};

use crate::section_fronts::SectionFronts;

/// What condensing a section came to.
#[derive(Drop)]
pub enum Outcome<'n> {
    /// The fronts of a section.
    Fronts(SectionFronts<'n>),
    /// The section for which memory ran out, its own or that of a section beyond it.
    NoMemory(u32),
}

impl<'n> Outcome<'n> {
    /// The section, from 0 in file order.
    pub fn section(&self) -> u32
        ensures { result ≡ section_of self.now }
    {
        match self {
            Outcome::Fronts(fronts) => fronts.section(),
            Outcome::NoMemory(section) => *section,
        }
    }
}
