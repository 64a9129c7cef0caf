//! Installing copies.

ghost use Rattle.std.specs.Prelude.{◌≡◌, ℕ, ◌*◌, true, false, ◌∷◌, List, is_some, Some, None, Ok, Err, IfOk, IfErr, OnOk, OnErr};
ghost use Rattle.foundation.specs.declared.TheConstants.{PAGE_SIZE};
ghost use Rattle.mig_base.specs.declared.effect.Effect as effects;
ghost use Rattle.mig_base.specs.declared.refusal.Refusal.{Refusal};
ghost use Rattle.mig_model.specs.Destination.{settled};
ghost use Rattle.mig_model.specs.DestinationSteps.{install};
ghost use Rattle.mig_model.specs.Guest.{is_forgotten, is_present};
ghost use Rattle.mig_model.specs.GuestSteps.{when_quiet};
ghost use Rattle.mig_model.specs.Ioctls.{installed};
ghost use Rattle.mig_model.specs.NodeSteps.{IsRefusedFor, acted, and_then, checked, first_of, in_phase};
ghost use Rattle.mig_model.specs.Owed.{home};
ghost use Rattle.mig_base.specs.Userfault as object;
ghost use Rattle.mig_model.specs.Wire as wire;
ghost use Rattle.uffd_ioctl.specs.Lent.{IsLent};
ghost use Rattle.fault_handler.specs.Asking.{effect_of_copy, next_install_effect};

use super::Destination;
use crate::arrival::Arrival;
use mig_base::effect::Effect;
use mig_base::refusal::Refusal;
use mig_base::{NoMemory, PageNo, page_address};
use std::collections::VecDeque;
use uffd_ioctl::{Space, install_page, make_zeros};

impl Destination {
    /// Puts the first arrival where its page belongs now, by moving its bytes: UFFDIO_COPY for that page, or UFFDIO_ZEROPAGE for a page of
    /// zeros. The page is no longer owed, its request ends, and those that sleep on it are woken. A copy of a page that is owed nowhere is
    /// dropped. Refused as `Phase` before it has run, as `NothingThere` if no copy waits, and as `Changing` while an event is unread;
    /// then as `NoMemory`, only for a copy that is installed.
    #[tactic(auto, unfolding(mig_model::specs::NodeSteps::unless))]
    pub fn install(&mut self) -> Result<Effect, Refusal>
        ensures made { IfOk result (λ effect. install self.old ≡ acted effect self.new) }
        ensures refused { IfErr result (λ refusal. IsRefusedFor (install self.old) refusal) }
        ensures memory { (copy : wire.Copy) (rest : List wire.Copy) →
            self.old.arrivals ≡ copy ∷ rest → result ≡ Err Refusal.NoMemory →
            is_some (home self.old.owed copy.page) ≡ true }
        ensures err { OnErr result (self.new ≡ self.old) }

        // For a reader: a copy is installed at the page where its page of the source is owed, and never over a page that is present;
        // afterwards that page is owed nothing.
        ensures pair { IfOk result (λ effect. (page origin : ℕ) →
            effect ≡ effects.Effect.Installed (PAGE_SIZE * page) (PAGE_SIZE * origin) →
            (settled self.old page ≡ Some origin) × (settled self.new page ≡ None)) }
        ensures missing { IfOk result (λ effect. (page origin : ℕ) →
            effect ≡ effects.Effect.Installed (PAGE_SIZE * page) (PAGE_SIZE * origin) →
            is_present self.old.guest.space page ≡ false) }
    {
        let origin = self.next_arrival()?;
        let Some(page) = self.owed.home(origin) else {
            self.arrivals.pop_front();
            self.dropped = self.dropped.saturating_add(1);
            return Ok(Effect::Dropped {
                origin: page_address(origin),
            });
        };
        self.space.is_in_order();
        put_first(&mut self.arrivals, &mut self.space, page)?;
        self.owed.settle(origin);
        self.requests.end(origin);
        self.cpus.wake_page(u64::from(page));
        self.installed = self.installed.saturating_add(1);
        Ok(Effect::Installed {
            addr: page_address(page),
            origin: page_address(origin),
        })
    }

    /// The page at the source of the copy that [`Destination::install`] would install, and the page where it belongs now, both as numbers:
    /// `None` if it would be dropped, since it is owed nowhere. Nothing changes, and it takes no memory. So a driver can ask, put the bytes
    /// into real memory, and then make the install.
    ///
    /// Refused as an install is: as `Phase` before it has run, as `NothingThere` if no copy waits, and as `Changing` while an event is
    /// unread.
    pub fn next_install(&self) -> Result<(PageNo, Option<PageNo>), Refusal>
        ensures { effect_of_copy result ≡ next_install_effect self.now }
    {
        let origin = self.next_arrival()?;
        Ok((origin, self.owed.home(origin)))
    }

    /// Whether [`Destination::install`] would install or drop a copy, or how it would be refused; memory is not considered.
    pub fn check_install(&self) -> Result<(), Refusal>
        ensures { result ≡ checked (install self.now) }
    {
        let _origin = self.next_arrival()?;
        Ok(())
    }

    /// The page at the source of the first copy that has arrived, or why none can be installed.
    #[tactic(auto, unfolding(mig_model::specs::NodeSteps::unless))]
    fn next_arrival(&self) -> Result<PageNo, Refusal>
        ensures { result ≡ and_then
            (in_phase self.now.has_run (when_quiet self.now.guest (first_of self.now.arrivals)))
            (λ copy. Ok copy.page) }
    {
        self.ensure_run()?;
        let Some(arrival) = self.arrivals.front() else {
            return Err(Refusal::NothingThere);
        };
        if self.space.changing() > 0 {
            return Err(Refusal::Changing);
        }
        Ok(arrival.page())
    }
}

/// Removes the first arrival and puts it at a missing page. `NoMemory` changes nothing.
fn put_first(
    arrivals: &mut VecDeque<Arrival>,
    space: &mut Space,
    page: PageNo,
) -> Result<(), NoMemory>
    requires lent { IsLent space.old }
    requires quiet { object.changing space.old.object ≡ 0 }
    requires watched { is_forgotten space.old page ≡ false }
    requires missing { is_present space.old page ≡ false }
    ensures space { (copy : wire.Copy) (rest : List wire.Copy) → arrivals.old.items ≡ copy ∷ rest →
        OnOk result (space.new ≡ installed space.old page 1 (λ i. copy.bytes) false) }
    ensures arrivals { (copy : wire.Copy) (rest : List wire.Copy) →
        arrivals.old.items ≡ copy ∷ rest → OnOk result (arrivals.new.items ≡ rest) }
    ensures err { OnErr result ((space.new ≡ space.old) ×
        (arrivals.new.items ≡ arrivals.old.items)) }
{
    if let Some(arrival) = arrivals.front_mut() {
        put(space, arrival, page)?;
    }
    arrivals.pop_front();
    Ok(())
}

/// Moves the content of a copy to a missing page. `NoMemory` changes nothing.
fn put(space: &mut Space, arrival: &mut Arrival, page: PageNo) -> Result<(), NoMemory>
    requires lent { IsLent space.old }
    requires quiet { object.changing space.old.object ≡ 0 }
    requires watched { is_forgotten space.old page ≡ false }
    requires missing { is_present space.old page ≡ false }
    ensures ok { OnOk result (space.new ≡
        installed space.old page 1 (λ i. arrival.old.bytes) false) }
    ensures err { OnErr result ((space.new ≡ space.old) × (arrival.new ≡ arrival.old)) }
{
    let Some(bytes) = arrival.take() else {
        return make_zeros(space, page);
    };
    match install_page(space, page, bytes) {
        Ok(()) => Ok(()),
        Err(bytes) => {
            arrival.put_back(Some(bytes));
            Err(NoMemory)
        }
    }
}
