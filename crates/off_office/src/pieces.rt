ghost use Rattle.std.specs.Prelude.{◌≡◌, IsTrue, MatchResult};
ghost use Rattle.off_defs.specs.State.{says_nothing};
ghost use Rattle.off_http.specs.Heard.{IsAsked};
ghost use Rattle.off_http.specs.Request.{Waits};
ghost use Rattle.off_orders.specs.Sound.{is_sound};
ghost use Rattle.off_book.specs.Http.{is_full, heard_of};
ghost use Rattle.off_office.specs.Answering.{answer_asked, answer_to, IsAnswered};
ghost use Rattle.off_office.specs.Answering.{CarriedOut, NotCarriedOut, HeardPiece, NotHeard};
ghost use Rattle.off_office.specs.Answering.{WaitsFor, Refuses};
ghost use Rattle.off_office.specs.Acting.{forgets, Handled};
ghost use Rattle.off_office.specs.Asking.{Asks, SpentWithin, commit_calls, command_calls};
ghost use Rattle.off_office.specs.Asking.{meaning_calls};
ghost use Rattle.off_outside.specs.KeeperCalls.{Spent};

use crate::office::Office;
use off_accounts::{AccountErr, Planned};
use off_clerk::{CommandErr, Fault, command_of};
use off_http::{Fed, Session};
use off_orders::Command;
use off_outside::{KeepErr, Keeper, Outcome, Replies, What};
use off_sessions::{answer_fault, answer_reply, close_busy, fail};

impl Office {
    // Takes a piece of a clerk's connection.
    pub(crate) fn take_piece<K: Keeper>(
        &mut self,
        keeper: &mut K,
        conn: u32,
        piece: &[u8],
        out: &mut Replies,
    ) -> Outcome
        requires { out.old ≡ says_nothing }
        ensures { Handled (What.Piece conn piece.now) result out.new self.old self.new
            (K.seen keeper.old) (K.seen keeper.new) }
    {
        match self.hear(keeper, conn, piece, out) {
            Ok(()) => Outcome::Did,
            Err(err) => fail(err, out),
        }
    }

    // Hears a piece, and does what the connection asks by now. After an error the connection is
    // forgotten.
    fn hear<K: Keeper>(
        &mut self,
        keeper: &mut K,
        conn: u32,
        piece: &[u8],
        out: &mut Replies,
    ) -> Result<(), KeepErr>
        requires { out.old ≡ says_nothing }
        ensures told { MatchResult result
            (λ _. HeardPiece conn piece.now out.new self.old self.new
            (K.seen keeper.old) (K.seen keeper.new))
            (λ err. NotHeard err conn piece.now self.old self.new
            (K.seen keeper.old) (K.seen keeper.new)) }
        ensures asks { Asks (What.Piece conn piece.now) self.old.held
            (K.seen keeper.old) (K.seen keeper.new) }
    {
        if self.is_full_for(conn) {
            return close_busy(conn, out);
        }
        let mut session = self.resume(conn);
        match session.feed(piece)? {
            Fed::Wait => self.wait_for(conn, session, out),
            Fed::Bad(fault) => answer_fault(self.alloc, conn, &Fault::Http(fault), out),
            Fed::Whole => self.answer_request(keeper, conn, &session, out),
        }
    }

    // Whether a connection that is new comes while as many are live as may be.
    fn is_full_for(&self, conn: u32) -> bool
        ensures { result ≡ is_full self.entry.now.held.connections conn }
    {
        self.connections.is_full_for(conn)
    }

    // Takes a connection out, to go on with its request, or begins one.
    fn resume(&mut self, conn: u32) -> Session
        ensures bytes { result.bytes ≡ heard_of self.old.held conn }
        ensures waits { result.answer ≡ Waits }
        ensures left { self.new ≡ forgets self.old conn }
    {
        self.connections.resume(self.alloc, conn)
    }

    // Keeps a connection of which more must come.
    fn wait_for(&mut self, conn: u32, session: Session, out: &mut Replies) -> Result<(), KeepErr>
        requires waits { session.answer ≡ Waits }
        requires clean { out.old ≡ says_nothing }
        ensures { WaitsFor conn session.bytes result out.new self.old self.new }
    {
        self.connections.keep(conn, session)?;
        out.set_line(b"http wait");
        Ok(())
    }

    // Answers a whole request.
    fn answer_request<K: Keeper>(
        &mut self,
        keeper: &mut K,
        conn: u32,
        session: &Session,
        out: &mut Replies,
    ) -> Result<(), KeepErr>
        requires asked { IsAsked session.now.answer }
        requires clean { out.old ≡ says_nothing }
        ensures told { let answer = session.now.answer in
            IsAnswered result (answer_asked self.old.held.now answer) conn out.new
            self.old self.new (K.seen keeper.old) (K.seen keeper.new) }
        ensures spent { SpentWithin (meaning_calls session.now.answer)
            (K.seen keeper.old) (K.seen keeper.new) }
    {
        match command_of(self.alloc, session.method(), session.path(), session.body()) {
            Ok(command) => self.answer_command(keeper, conn, &command, out),
            Err(CommandErr::Fault(err)) => {
                answer_fault(self.alloc, conn, &Fault::Clerk(err), out)
            }
            Err(CommandErr::Memory) => Err(KeepErr::Memory),
        }
    }

    // Does a command and answers it, or answers why not.
    fn answer_command<K: Keeper>(
        &mut self,
        keeper: &mut K,
        conn: u32,
        command: &Command,
        out: &mut Replies,
    ) -> Result<(), KeepErr>
        requires sound { IsTrue (is_sound command.now) }
        requires clean { out.old ≡ says_nothing }
        ensures told { IsAnswered result (answer_to self.old.held.now command.now) conn out.new
            self.old self.new (K.seen keeper.old) (K.seen keeper.new) }
        ensures spent { SpentWithin (command_calls command.now)
            (K.seen keeper.old) (K.seen keeper.new) }
    {
        match self.plan(keeper, command) {
            Ok(planned) => self.carry_out(keeper, conn, &planned, out),
            Err(err) => self.refuse(conn, err, out),
        }
    }

    // Puts the answer of what was planned in hand, and then does it.
    fn carry_out<K: Keeper>(
        &mut self,
        keeper: &mut K,
        conn: u32,
        planned: &Planned,
        out: &mut Replies,
    ) -> Result<(), KeepErr>
        requires { out.old ≡ says_nothing }
        ensures told { MatchResult result
            (λ _. CarriedOut planned.now conn out.new self.old self.new
            (K.seen keeper.old) (K.seen keeper.new))
            (λ err. NotCarriedOut planned.now err self.old self.new
            (K.seen keeper.old) (K.seen keeper.new)) }
        ensures spent { Spent (commit_calls planned.now.writes)
            (K.seen keeper.old) (K.seen keeper.new) }
    {
        answer_reply(self.alloc, conn, &planned.reply, out)?;
        self.settle(keeper, &planned.writes, &planned.counts)
    }

    // Answers that a rule refuses a command, or hands on why it couldn't be done.
    fn refuse(&self, conn: u32, err: AccountErr, out: &mut Replies) -> Result<(), KeepErr>
        requires clean { out.old ≡ says_nothing }
        ensures { Refuses conn err result out.new }
    {
        match err {
            AccountErr::Refused { row, rule } => {
                answer_fault(self.alloc, conn, &Fault::Rule { row, rule }, out)
            }
            AccountErr::Failed => Err(KeepErr::Failed),
            AccountErr::Memory => Err(KeepErr::Memory),
        }
    }
}
