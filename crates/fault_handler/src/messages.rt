//! Reading the messages of the guest's userfault object.

ghost use Rattle.std.specs.Prelude.{◌≡◌, ◌↔◌, Some, None};
ghost use Rattle.mig_base.specs.Userfault.{Noted, next_message};
ghost use Rattle.mig_model.specs.Effects.{read_effect};
ghost use Rattle.mig_model.specs.Guest.{read_guest};
ghost use Rattle.guest.specs.Guests.{guest_with};
ghost use Rattle.uffd_ioctl.specs.Lent.{IsLent};

use mig_base::Message;
use mig_base::effect::Effect;
use uffd_ioctl::Space;
use vcpu::Cpus;

/// Reads the next message, and returns it with the effect of the step; `None` if there is no message. It takes no memory.
pub fn read(space: &mut Space, cpus: &mut Cpus) -> Option<(Message, Effect)>
    requires { IsLent space.old }
    ensures none { (result ≡ None) ↔ (next_message space.old.object ≡ None) }
    ensures message { (noted : Noted) → next_message space.old.object ≡ Some noted →
        result ≡ Some (noted.message, read_effect cpus.old noted.cpu noted.message) }
    ensures guest { (noted : Noted) → next_message space.old.object ≡ Some noted →
        guest_with space.new cpus.new ≡
        read_guest (guest_with space.old cpus.old) noted.cpu noted.message }
    ensures unchanged { next_message space.old.object ≡ None →
        (space.new ≡ space.old) × (cpus.new ≡ cpus.old) }
    ensures lent { IsLent space.new }
{
    let Ok((message, cpu)) = space.read_message() else {
        return None;
    };
    Some((message, cpus.read(message, cpu)))
}
