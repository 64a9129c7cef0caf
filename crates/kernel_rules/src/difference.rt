//! Where a kernel may do what the model does not: the lines of docs/LINUX.md of which a log can have a case.

/// A difference from the model.
#[derive(Clone, Copy)]
pub enum Difference {
    /// The handshake asked for a feature that the model does not have.
    OtherFeatures,
    /// UFFDIO_REGISTER of an object that did not ask for the three events.
    RegisterWithoutEvents,
    /// A second thread queues a fault of a page while one of the same kind is unread.
    FaultOfEachThread,
    /// An unread fault goes when its thread is woken.
    FaultTakenAway,
    /// A thread that found a page missing queues its fault when the page is already there.
    FaultOnItsWay,
    /// A thread leaves a fault that is not resolved: a signal came.
    LeftByASignal,
    /// An object is closed while pages are registered with it.
    Close,
    /// A REMOVE that is not of the whole range of its call.
    RemoveOfEachArea,
    /// The messages of mremap in the order and number of a kernel.
    MessagesOfMremap,
    /// An event is read before one of a call that began to queue earlier.
    OrderOfTwoCalls,
    /// EAGAIN of a call when all events are read, and the map call has not returned.
    ChangingLonger,
    /// ENOENT over several pages, each of which is registered.
    Areas,
    /// UFFDIO_WRITEPROTECT over a range with pages that are not registered.
    WriteProtectOverAHole,
}
