//! The test of a certificate.
ghost use Rattle.std.specs.Prelude.{◌≡◌, length};
ghost use Rattle.front_certificate.specs.Certificates.{front_count};
ghost use Rattle.front_certificate.specs.Sound.{IsJudgement, Proves};

use crate::certificate::Certificate;
use crate::judgement::Judgement;
use crate::laws::sound_certificate_bounds_every_design;
use crate::sections::is_sound_section;
use crate::stated::Stated;
use crate::total::is_sound_total;
use net_model::Network;

/// Whether the certificate is sound: the first section that is not, else the total where it is not. A yes proves that
/// no design that meets the rules costs less than the total, or without a total that none meets them. Takes no memory.
pub fn verify(net: &Network, c: &Certificate) -> Judgement
    requires { length c.now.fronts ≡ front_count net.now }
    ensures judged { IsJudgement net.now c.now result }
    ensures proves { Proves net.now c.now.total result }
{
    sound_certificate_bounds_every_design();
    let stated = Stated::new(net, c.fronts());
    for s in 0..net.tree().len() {
        if !is_sound_section(&stated, s) {
            return Judgement::Section(s);
        }
    }
    if is_sound_total(&stated, c.total()) {
        Judgement::Yes
    } else {
        Judgement::Total
    }
}
