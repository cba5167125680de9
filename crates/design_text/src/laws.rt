//! Laws of design texts. Each is the contract of a call that has nothing to do.
ghost use Rattle.std.specs.Prelude.{◌≡◌, Ok, List, ℕ};
ghost use Rattle.duct_definitions.specs.declared.design.Design.{Design};
ghost use Rattle.duct_definitions.specs.declared.listed.Listed.{Listed};
ghost use Rattle.duct_definitions.specs.Network.{Network, IsNetwork};
ghost use Rattle.duct_definitions.specs.Designs.{Meets};
ghost use Rattle.duct_definitions.specs.DesignText.{listed, text};
ghost use Rattle.design_text.specs.Texts.{IsInRange, IsTextOf};
ghost use Rattle.design_text.specs.Reading.{reading};

/// The text of fields in range is read, and gives them back; so no text is that of other fields.
#[tactic(auto, using(crate::proofs::ReadLaws::text_again, crate::proofs::ReadLaws::text_alone))]
pub fn texts_are_read()
    ensures again { (l : Listed) → IsInRange l → reading (text l) ≡ Ok l }
    ensures alone { (l m : Listed) (bytes : List ℕ) → IsTextOf l bytes → IsTextOf m bytes → l ≡ m }
{}

/// The text of a design that meets the rules is read, and gives the design's fields back.
#[tactic(auto, using(crate::proofs::PrintedLaws::printed_again))]
pub fn printed_designs_are_read()
    ensures { (net : Network) (d : Design) → IsNetwork net → Meets net d
        → reading (text (listed net d)) ≡ Ok (listed net d) }
{}
