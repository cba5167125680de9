//! What a sound certificate proves of all designs, and which certificates are sound. Each law is the contract of a
//! call that has nothing to do.
ghost use Rattle.std.specs.Prelude.{◌≡◌, ℕ, Option, Some, None, List, []};
ghost use Rattle.duct_units.specs.declared.side.Side.TheVariants.{Supply, Return};
ghost use Rattle.duct_definitions.specs.Tree.{IsTree, section_count};
ghost use Rattle.duct_definitions.specs.Network.{Network};
ghost use Rattle.pareto_front.specs.declared.point.Point.{Point};
ghost use Rattle.least_laws.specs.Choosing.{side_least, cost_at, IsOffered, IsChosen};
ghost use Rattle.front_certificate.specs.Certificates.{Certificate};
ghost use Rattle.duct_units.specs.declared.fault.Fault.{Fault};
ghost use Rattle.duct_units.specs.declared.fault.ReadError.TheVariants.{Refused};
ghost use Rattle.front_certificate.specs.Reading.{Begins, IsRefusal, IsTextOf, line_count};
ghost use Rattle.front_certificate.specs.Sound.{IsSound, IsJudgement, NoneCostsLess, AreExactFronts, AreSoundBefore, IsSoundTotal};
ghost use Rattle.front_certificate.specs.declared.judgement.Judgement.{Judgement};

/// Where a certificate is sound, no design that meets the rules costs less than its total; without a total none meets
/// them.
pub fn sound_certificate_bounds_every_design()
    ensures { (net : Network) → IsTree net.tree → (c : Certificate) → IsSound net c → NoneCostsLess net c.total }
{}

/// Fronts that give the least prices are sound in every section. With them the least cost of fans and budgets is a
/// sound total, and where no fans with any budget have a cost, so is none.
pub fn exact_fronts_are_sound()
    ensures sections { (net : Network) → IsTree net.tree → (fronts : List (List Point))
        → AreExactFronts net fronts → AreSoundBefore net fronts (section_count net.tree) }
    ensures total { (net : Network) → IsTree net.tree → (fronts : List (List Point))
        → AreExactFronts net fronts → (fan : ℕ) (own : Option ℕ) (budget price : ℕ)
        → IsChosen net (side_least net Supply) (side_least net Return) fan own budget price
        → IsSoundTotal net fronts (Some price) }
    ensures none { (net : Network) → IsTree net.tree → (fronts : List (List Point))
        → AreExactFronts net fronts
        → ((fan : ℕ) (own : Option ℕ) (budget : ℕ) → IsOffered net fan own budget
        → cost_at net (side_least net Supply) (side_least net Return) fan own budget ≡ None)
        → IsSoundTotal net fronts None }
{}

/// The text of a certificate begins with all lines of one, and nothing stands behind, so it is not refused.
pub fn text_of_a_certificate_has_its_lines()
    ensures { (net : Network) (bytes : List ℕ) (c : Certificate) → IsTextOf net bytes c
        → Begins net bytes (line_count net) [] }
{}

/// A certificate has one judgement.
pub fn judgement_is_one()
    ensures { (net : Network) (c : Certificate) (j k : Judgement) → IsJudgement net c j → IsJudgement net c k → j ≡ k }
{}

/// Bytes are the text of one certificate, or they are refused at one line.
pub fn reading_is_one()
    ensures text { (net : Network) (bytes : List ℕ) (c d : Certificate) → IsTextOf net bytes c → IsTextOf net bytes d
        → c ≡ d }
    ensures refusal { (net : Network) (bytes : List ℕ) (f g : Fault) → IsRefusal net bytes (Refused f)
        → IsRefusal net bytes (Refused g) → f ≡ g }
    ensures either { (net : Network) (bytes : List ℕ) (c : Certificate) (f : Fault) → IsTextOf net bytes c
        → IsRefusal net bytes (Refused f) → ⊥ }
{}
