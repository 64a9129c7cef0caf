//! `Claims`, call by call: each scene has claims of its own pages, and what it leaves of them.
ghost use Rattle.std.specs.Prelude.{◌≢◌, IfSome, IfOk, AllPairs};
ghost use Rattle.pusher.specs.Seats.{IsSeatOf};

use super::again::{close, split};
use super::rows::{ascending, descending};
use mig_base::schedule::Ticket;
use mig_base::{NoMemory, PageNo};
use pusher::{ClaimSeat, Claims};
use std::alloc::Global;
use std::test::Fail;

/// What is done with claims in epoch 1.
#[derive(Clone, Copy)]
enum Scene {
    /// Each page is claimed once.
    Once,
    /// What nobody claims is left.
    Some,
    /// There are no pages.
    Empty,
    /// The pages descend.
    Descending,
    /// What a seat has claimed that was dropped is in neither list, and all that is free is left.
    Dropped,
}

const SCENES: [(Scene, &str); 5] = [
    (Scene::Once, "each page is claimed once"),
    (Scene::Some, "what nobody claims is left"),
    (Scene::Empty, "no pages"),
    (Scene::Descending, "pages that descend"),
    (Scene::Dropped, "a dropped seat keeps its claims"),
];

fn pages(alloc: Global, scene: Scene) -> Result<Vec<PageNo>, NoMemory>
    ensures { IfOk result (λ v. AllPairs ◌≢◌ v.items) }
{
    match scene {
        Scene::Once => ascending(alloc, 0x10, 2),
        Scene::Some => ascending(alloc, 0x10, 130),
        Scene::Empty => ascending(alloc, 0, 0),
        Scene::Descending => descending(alloc, 0x13, 4),
        Scene::Dropped => ascending(alloc, 0x10, 4),
    }
}

fn open(alloc: Global, scene: Scene) -> Result<(Claims, ClaimSeat), NoMemory>
    ensures { IfOk result (λ r. IsSeatOf r.0 r.1) }
{
    let pages = pages(alloc, scene)?;
    Claims::new(alloc, 1, pages)
}

/// The claims of a scene, made once more where memory was refused.
fn opened(alloc: Global, scene: Scene) -> Option<(Claims, ClaimSeat)>
    ensures { IfSome result (λ r. IsSeatOf r.0 r.1) }
{
    match open(alloc, scene) {
        Ok(made) => Some(made),
        Err(NoMemory) => open(alloc, scene).ok(),
    }
}

/// The ticket of a page.
fn ticket(page: PageNo) -> Option<Ticket> {
    Some(Ticket { epoch: 1, page })
}

fn claim_each_once(alloc: Global, claims: &Claims, seat: &mut ClaimSeat) -> bool
    requires { IsSeatOf claims.now seat.old }
    ensures { IsSeatOf claims.now seat.new }
{
    if claims.len() != 2 {
        return false;
    }
    let first = claims.claim(seat, 0);
    let again = claims.claim(seat, 0);
    let was_free = claims.is_free(seat, 1);
    match split(alloc, claims, seat) {
        Some(other) => {
            claims.epoch() == 1
                && first == ticket(0x10)
                && again.is_none()
                && was_free
                && claim_second(claims, seat, other)
        }
        None => false,
    }
}

/// The other of two seats claims the second page, and is joined.
fn claim_second(claims: &Claims, seat: &mut ClaimSeat, mut other: ClaimSeat) -> bool
    requires seat { IsSeatOf claims.now seat.old }
    requires other { IsSeatOf claims.now other }
    ensures { IsSeatOf claims.now seat.new }
{
    if claims.len() != 2 {
        return false;
    }
    let second = claims.claim(&mut other, 1);
    let is_taken = !claims.is_free(seat, 1);
    let are_apart = claims.holds(seat, 0)
        && !claims.holds(seat, 1)
        && claims.holds(&other, 1)
        && !claims.holds(&other, 0);
    claims.join(seat, other);
    let are_joined = claims.holds(seat, 0) && claims.holds(seat, 1);
    second == ticket(0x11) && is_taken && are_apart && are_joined
}

fn claim_some(claims: &Claims, seat: &mut ClaimSeat) -> bool
    requires { IsSeatOf claims.now seat.old }
    ensures { IsSeatOf claims.now seat.new }
{
    if claims.len() != 130 {
        return false;
    }
    let one = claims.claim(seat, 64);
    let other = claims.claim(seat, 129);
    one.is_some() && other.is_some()
}

fn claim_none(alloc: Global, claims: &Claims, seat: &mut ClaimSeat) -> bool
    requires { IsSeatOf claims.now seat.old }
    ensures { IsSeatOf claims.now seat.new }
{
    match split(alloc, claims, seat) {
        Some(other) => {
            claims.join(seat, other);
            claims.len() == 0 && claims.index_of(0).is_none()
        }
        None => false,
    }
}

fn claim_descending(claims: &Claims, seat: &mut ClaimSeat) -> bool
    requires { IsSeatOf claims.now seat.old }
    ensures { IsSeatOf claims.now seat.new }
{
    if claims.len() != 4 {
        return false;
    }
    let last = claims.claim(seat, 3);
    let second = claims.claim(seat, 1);
    last.is_some() && second.is_some() && are_descending(claims)
}

/// Whether claims know the place of each page, and of none besides.
fn are_descending(claims: &Claims) -> bool {
    if claims.len() != 4 || claims.page(0) != 0x13 || claims.page(3) != 0x10 {
        return false;
    }
    for (page, index) in [
        (0x13, Some(0)),
        (0x12, Some(1)),
        (0x11, Some(2)),
        (0x10, Some(3)),
        (0xf, None),
        (0x14, None),
    ] {
        if claims.index_of(page) != index {
            return false;
        }
    }
    true
}

fn claim_and_drop(alloc: Global, claims: &Claims, seat: &mut ClaimSeat) -> bool
    requires { IsSeatOf claims.now seat.old }
    ensures { IsSeatOf claims.now seat.new }
{
    if claims.len() != 4 {
        return false;
    }
    match split(alloc, claims, seat) {
        Some(mut other) => {
            let first = claims.claim(seat, 0);
            let third = claims.claim(&mut other, 2);
            first.is_some() && third.is_some()
        }
        None => false,
    }
}

fn play_with(alloc: Global, claims: &Claims, seat: &mut ClaimSeat, scene: Scene) -> bool
    requires { IsSeatOf claims.now seat.old }
    ensures { IsSeatOf claims.now seat.new }
{
    match scene {
        Scene::Once => claim_each_once(alloc, claims, seat),
        Scene::Some => claim_some(claims, seat),
        Scene::Empty => claim_none(alloc, claims, seat),
        Scene::Descending => claim_descending(claims, seat),
        Scene::Dropped => claim_and_drop(alloc, claims, seat),
    }
}

/// Whether these pages are left, and these claimed.
fn are_wanted(scene: Scene, left: &[PageNo], claimed: &[PageNo]) -> bool {
    match scene {
        Scene::Once => left.is_empty() && claimed == [0x10, 0x11].as_slice(),
        Scene::Some => left.len() == 128 && claimed == [0x50, 0x91].as_slice(),
        Scene::Empty => left.is_empty() && claimed.is_empty(),
        Scene::Descending => {
            left == [0x13, 0x11].as_slice() && claimed == [0x12, 0x10].as_slice()
        }
        Scene::Dropped => left == [0x11, 0x13].as_slice() && claimed == [0x10].as_slice(),
    }
}

/// Whether all is as wanted in a scene.
fn play(alloc: Global, scene: Scene) -> bool {
    let Some((claims, mut seat)) = opened(alloc, scene) else {
        return false;
    };
    let held = play_with(alloc, &claims, &mut seat, scene);
    match close(alloc, claims, seat) {
        Some((left, claimed)) => held && are_wanted(scene, &left, &claimed),
        None => false,
    }
}

/// The first scene in which something is not as wanted.
fn first_failed<'a>(alloc: Global) -> Option<&'a str> {
    for (scene, name) in SCENES {
        if !play(alloc, scene) {
            return Some(name);
        }
    }
    None
}

#[test]
fn each_scene(rt: HostRuntime) -> Result<(), Fail> {
    match first_failed(rt.alloc()) {
        None => Ok(()),
        Some(name) => Err(Fail::from(name)),
    }
}
