// The links are tended, without the world: what is kept is written, and what came is read.
ghost use Rattle.std.specs.Prelude.{◌≡◌, OnOk, OnErr, true};
ghost use Rattle.muck_porter.specs.inner.Moves.{TendsPeer, LosesPeer, Tends, Loses};

use muck_links::Links;
use muck_model::NoMemory;
use muck_peer::Peer;

// One link: what is kept is written, and it is read. Answers whether anything moved.
fn tends<L: Links>(
    links: &mut L,
    room: &mut [u8],
    noted: bool,
    peer: &mut Peer,
) -> Result<bool, NoMemory>
    ensures tells { L.tells links.new ≡ L.tells links.old }
    ensures listening { L.listening links.new ≡ L.listening links.old }
    ensures ports { L.tells links.old ≡ true → (L.told links.new).ports ≡ (L.told links.old).ports }
    ensures ok { OnOk result (L.tells links.old ≡ true → TendsPeer noted (L.told links.old) (L.told links.new) peer.old peer.new) }
    ensures err { OnErr result (L.tells links.old ≡ true → LosesPeer noted (L.told links.old) (L.told links.new) peer.old) }
{
    let went = peer.sends_some(links, noted);
    match peer.hears_some(links, room) {
        Ok(came) => Ok(went || came),
        Err(e) => Err(e),
    }
}

// Each link once. Answers whether anything moved.
fn tends_each<L: Links>(
    links: &mut L,
    room: &mut [u8],
    noted: bool,
    peers: &mut Vec<Peer>,
) -> Result<bool, NoMemory>
    ensures tells { L.tells links.new ≡ L.tells links.old }
    ensures listening { L.listening links.new ≡ L.listening links.old }
    ensures ports { L.tells links.old ≡ true → (L.told links.new).ports ≡ (L.told links.old).ports }
    ensures ok { OnOk result (L.tells links.old ≡ true → Tends noted (L.told links.old) (L.told links.new) peers.old.items peers.new.items) }
    ensures err { OnErr result (L.tells links.old ≡ true → Loses noted (L.told links.old) (L.told links.new) peers.old.items) }
{
    let mut moved = false;
    let mut at = 0;
    while at < peers.len() {
        let peer = &mut peers[at];
        match tends(links, room, noted, peer) {
            Ok(this) => {
                if this {
                    moved = true;
                }
            }
            Err(e) => return Err(e),
        }
        at += 1;
    }
    Ok(moved)
}

// Whether a line of any link waits to be entered.
fn lines_come(peers: &Vec<Peer>) -> bool {
    peers.iter().any(|peer| peer.has_line())
}

// While lines come, what is queued for each connection is held back for a while. Answers whether any is.
fn holds_back(peers: &mut Vec<Peer>) -> bool
    ensures { peers.new.items ≡ peers.old.items }
{
    let come = lines_come(peers);
    let mut any = false;
    let mut at = 0;
    while at < peers.len() {
        let peer = &mut peers[at];
        if peer.holds_back(come) {
            any = true;
        }
        at += 1;
    }
    any
}

/// Each link once, and who is written to next waits while lines come. Answers whether anything moved, or waits so.
pub fn tends_all<L: Links>(
    links: &mut L,
    room: &mut [u8],
    noted: bool,
    peers: &mut Vec<Peer>,
) -> Result<bool, NoMemory>
    ensures tells { L.tells links.new ≡ L.tells links.old }
    ensures listening { L.listening links.new ≡ L.listening links.old }
    ensures ports { L.tells links.old ≡ true → (L.told links.new).ports ≡ (L.told links.old).ports }
    ensures ok { OnOk result (L.tells links.old ≡ true → Tends noted (L.told links.old) (L.told links.new) peers.old.items peers.new.items) }
    ensures err { OnErr result (L.tells links.old ≡ true → Loses noted (L.told links.old) (L.told links.new) peers.old.items) }
{
    match tends_each(links, room, noted, peers) {
        Ok(moved) => {
            let held = holds_back(peers);
            Ok(moved || held)
        }
        Err(e) => Err(e),
    }
}
