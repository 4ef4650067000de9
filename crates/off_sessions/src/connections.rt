ghost use Rattle.std.specs.Prelude.{◌≡◌, [], OnOk, OnErr, IfSome, option_map, unwrap_or};
ghost use Rattle.std.specs.FinMap as map;
ghost use Rattle.off_http.specs.Request.{Waits};
ghost use Rattle.off_book.specs.Http.{is_full};
ghost use Rattle.off_sessions.specs.Connections.{bytes_of};

use off_base::NoMemory;
use off_http::Session;
use std::alloc::Global;
use std::collections::BTreeMap;
use std::marker::Model;

/// How many connections may be live.
const MOST_CONNECTIONS: usize = 8;

/// The live connections of clerks, each with what has come of its request. Contracts see the bytes
/// that have come of each, by number.
#[derive(Drop)]
pub struct Connections {
    live: BTreeMap<u32, Session>,
}

impl Model for Connections {
    ghost use Rattle.std.specs.Prelude.{List, ℕ};
    ghost use Rattle.std.specs.FinMap as map;
    ghost use Rattle.std.specs.Ordering.{nat_cmp};
    ghost use Rattle.off_sessions.specs.Connections.{heard_in, AreLive, connections_code};

    ghost Value = { map.FinMap nat_cmp (List ℕ) };

    ghost coded = { connections_code };

    ghost view = { λ c. heard_in c.live.entries };

    ghost invariant = { λ c. AreLive c.live.entries };
}

impl Connections {
    /// No connections. It takes no memory.
    pub fn new(alloc: Global) -> Connections
        ensures { result ≡ map.empty }
    {
        Connections {
            live: BTreeMap::new(alloc),
        }
    }

    /// Whether a piece of this connection is a new one's, while as many are live as may be.
    pub fn is_full_for(&self, conn: u32) -> bool
        ensures { result ≡ is_full self.now conn }
    {
        !self.live.contains_key(&conn) && self.live.len() >= MOST_CONNECTIONS
    }

    /// Takes a connection out, if it's live.
    pub fn take(&mut self, conn: u32) -> Option<Session>
        ensures bytes { option_map bytes_of result ≡ map.get self.old conn }
        ensures waits { IfSome result (λ session. session.answer ≡ Waits) }
        ensures left { self.new ≡ map.remove self.old conn }
    {
        self.live.remove(&conn)
    }

    /// Takes a connection out, to go on with its request, or begins one of which nothing has come.
    pub fn resume(&mut self, alloc: Global, conn: u32) -> Session
        ensures bytes { result.bytes ≡ unwrap_or (map.get self.old conn) [] }
        ensures waits { result.answer ≡ Waits }
        ensures left { self.new ≡ map.remove self.old conn }
    {
        match self.take(conn) {
            Some(session) => session,
            None => Session::new(alloc),
        }
    }

    /// Puts a connection in, of which a request hasn't come whole. After `NoMemory` the connections
    /// are as before.
    pub fn keep(&mut self, conn: u32, session: Session) -> Result<(), NoMemory>
        requires { session.answer ≡ Waits }
        ensures ok { OnOk result (self.new ≡ map.insert self.old conn session.bytes) }
        ensures err { OnErr result (self.new ≡ self.old) }
    {
        let is_kept = self.live.insert(conn, session).is_ok();
        if is_kept {
            return Ok(());
        }
        Err(NoMemory)
    }
}
