//! Sessions on a store, as one value.

ghost use Rattle.std.specs.Prelude.{◌≡◌, IfOk, IfErr};
ghost use Rattle.session_core.specs.Machine.{no_places};

use crate::notes::Session;
use disk_model::Disk;
use std::alloc::Global;
use std::marker::Model;
use store_base::NoMemory;
use store_core::Store;

/// How many sessions may be live.
pub(crate) const MAX_SESSIONS: usize = 64;

/// How many questions a session may have, and how many changes.
pub(crate) const MAX_NOTES: usize = 64;

/// A store, and the sessions that are live on it, each under a number from 0 to 63. Contracts see it as one record: the
/// store, and a place for each number.
pub struct Sessions<D: Disk> {
    pub(crate) alloc: Global,
    pub(crate) store: Store<D>,
    /// A place for each number.
    pub(crate) places: Vec<Option<Session>>,
}

impl<D: Disk> Model for Sessions<D> {
    ghost use Rattle.std.specs.Prelude.{◌≡◌, length};
    ghost use Rattle.session_core.specs.Machine.{live_limit};
    ghost use Rattle.session_core.specs.SessionState.{SessionsState};

    ghost Value = { SessionsState D };

    ghost view = { λ s. record { store = s.store; places = s.places.items } };

    ghost invariant = { λ s. length s.places.items ≡ live_limit };
}

impl<D: Disk> Sessions<D> {
    /// Takes a store, with no session on it yet. It takes the memory for all sessions that may be live, so `begin`
    /// takes none.
    /// `NoMemory`: there was none. The store is given back as it was.
    pub fn new(alloc: Global, store: Store<D>) -> Result<Sessions<D>, (NoMemory, Store<D>)>
        ensures ok { IfOk result (λ sessions. sessions ≡ record {
          store = store;
          places = no_places;
        }) }
        ensures err { IfErr result (λ refused. refused.1 ≡ store) }
    {
        match no_places(alloc) {
            Ok(places) => Ok(Sessions {
                alloc,
                store,
                places,
            }),
            Err(fault) => Err((fault, store)),
        }
    }

    /// The store.
    pub fn store(&self) -> &Store<D>
        ensures { result.now ≡ self.now.store }
    {
        &self.store
    }

    /// Ends all sessions, and gives the store back. What they staged is not carried out.
    pub fn into_store(self) -> Store<D>
        ensures { result ≡ self.store }
    {
        let Sessions {
            alloc: _,
            store,
            places: _,
        } = self;
        store
    }
}

/// A place for each session that may be live, all empty.
fn no_places(alloc: Global) -> Result<Vec<Option<Session>>, NoMemory>
    ensures { IfOk result (λ places. places.items ≡ no_places) }
{
    let mut places = Vec::with_capacity(alloc, MAX_SESSIONS)?;
    for _place in 0..MAX_SESSIONS {
        places.push(None)?;
    }
    Ok(places)
}
