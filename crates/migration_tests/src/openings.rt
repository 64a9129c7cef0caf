//! How the stories begin, and what two nodes do to continue after a break.

use crate::answers::Answer::{
    Noticed, Refused, Replied, Resumed, RoundMade, SentPage, Started, Switched, TookAdvise,
    TookDiscard, TookPackage, TookResume,
};
use crate::calls::Call::{Deliver, End, Map, Notice, Resume, Round, Send, Start, Store, Switch};
use crate::play::Row;
use mig_base::Reply::{At, Done};
use mig_base::refusal::Refusal;
use mig_base::schedule::Side;

/// One page with a one, and a migration that has begun.
pub static STARTED: [Row; 3] = [
    (Map(0, 4096), Replied(0, At(0x10000))),
    (Store(0, 0x10000, 8, 1), Replied(0, Done)),
    (Start, Started(1)),
];

/// The destination runs, and is owed this page.
pub static OWED: [Row; 7] = [
    (Map(0, 4096), Replied(0, At(0x10000))),
    (Store(0, 0x10000, 8, 1), Replied(0, Done)),
    (Start, Started(1)),
    (Switch, Switched(0, 1)),
    (Deliver, TookAdvise),
    (Deliver, TookDiscard(0)),
    (Deliver, TookPackage(1)),
];

/// The page was sent in a round.
pub static SENT: [Row; 5] = [
    (Map(0, 4096), Replied(0, At(0x10000))),
    (Store(0, 0x10000, 8, 1), Replied(0, Done)),
    (Start, Started(1)),
    (Round, RoundMade(1, 1)),
    (Send, SentPage(0x10000)),
];

/// The destination runs, and is owed three pages.
pub static OWED_THREE: [Row; 9] = [
    (Map(0, 12288), Replied(0, At(0x10000))),
    (Store(0, 0x10000, 8, 1), Replied(0, Done)),
    (Store(0, 0x11000, 8, 2), Replied(0, Done)),
    (Store(0, 0x12000, 8, 3), Replied(0, Done)),
    (Start, Started(1)),
    (Switch, Switched(0, 3)),
    (Deliver, TookAdvise),
    (Deliver, TookDiscard(0)),
    (Deliver, TookPackage(3)),
];

/// Both nodes notice the first break, and the channel is up again.
pub static RESUMED: [Row; 8] = [
    (Notice(Side::Source), Noticed(Side::Source)),
    (Notice(Side::Destination), Noticed(Side::Destination)),
    (Round, Refused(Refusal::Phase)),
    (Send, Refused(Refusal::Phase)),
    (Switch, Refused(Refusal::Phase)),
    (End, Refused(Refusal::Phase)),
    (Resume, Resumed(2)),
    (Deliver, TookResume),
];
