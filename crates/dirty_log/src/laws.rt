//! What holds for a log and its space across all calls, as a law: a function that does nothing and whose contract is the law. Calls
//! appear in it as functions of the machine; the contract of each call equates the two.

ghost use Rattle.mig_model.specs.Guest.{Fault};
ghost use Rattle.mig_model.specs.Log.{Log, empty_log, forgotten};
ghost use Rattle.mig_model.specs.Source.{Source, source_acted, space_of};
ghost use Rattle.mig_model.specs.Space.{Space, IsSoundSpace};
ghost use Rattle.dirty_log.specs.Laws.{AreWatched, StayProtected, StayProtectedInOrder};
ghost use Rattle.dirty_log.specs.Spaces.{AreProtected};

/// A clean page that no unread event has changed is protected, and so it is present and registered for write-protect faults. This holds
/// for an empty log; each call of a log keeps it, and so does each load, store and map call of a processor.
pub fn clean_pages_are_protected()
    ensures watched { (log : Log) (space : Space) → IsSoundSpace space →
        AreProtected log space → AreWatched log space }
    ensures new { (space : Space) → AreProtected empty_log space }
    ensures forget { (log : Log) (space : Space) → AreProtected (forgotten log) space }
    ensures kept { (log : Log) (space : Space) → AreProtected log space → StayProtected log space }
    ensures kept_in_order { (log : Log) (space : Space) → IsSoundSpace space →
        AreProtected log space → StayProtectedInOrder log space }
    ensures act { (node : Source) (fault : Fault) → IsSoundSpace (space_of node) →
        AreProtected node.log (space_of node) →
        AreProtected (source_acted node fault).log (space_of (source_acted node fault)) }
{}
