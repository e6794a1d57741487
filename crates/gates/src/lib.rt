// What the rules of a row ask: the row as a struct, read from the lent cells, and a gate for each rule.
#![tactic(auto)]

ghost use Rattle.std.specs.Prelude.{◌≡◌, ◌&&◌, ◌≤◌, cond, eqb, length};
ghost use Rattle.protocol.specs.declared.Counts.{Counts};
ghost use Rattle.protocol.specs.Rules.{listens, verdict, request_rule, compute_rule, prepare_rule, vote_rule, ready_rule, write_rule, clean_rule, decide_rule};
ghost use Rattle.protocol.specs.Answers.{answer_number};
ghost use Rattle.gates.specs.Gates.{loaded, as_row, given};

use protocol::{Answer, Refusal};
use registers::Decision;

// Where a row keeps its fixed cells.
pub const OWNER: usize = 0;

pub const OUTCOME: usize = 1;

pub const VALUE: usize = 2;

pub const COMPUTED: usize = 3;

pub const SENT: usize = 4;

pub const VOTED: usize = 5;

pub const VOTED_YES: usize = 6;

pub const HEARD: usize = 7;

pub const HEARD_YES: usize = 8;

pub const WRITTEN: usize = 9;

pub const TERMINATING: usize = 10;

pub const DECIDED: usize = 11;

pub const COMMITTED: usize = 12;

// The fixed cells of a row, with what its register of decisions holds.
#[derive(Clone, Copy, Debug, PartialEq, Eq)]
pub struct Row {
    pub owner: u16,
    pub decision: Option<Decision>,
    pub computed: u16,
    pub sent: u16,
    pub voted: u16,
    pub voted_yes: u16,
    pub heard: u16,
    pub heard_yes: u16,
    pub written: u16,
    pub terminating: u16,
    pub decided: u16,
    pub committed: u16,
}

// Whether the answer is that the event is accepted: it was public and stands, though `?` asks it here.
pub fn is_accepted(answer: Answer) -> bool
    ensures { result ≡ eqb (answer_number answer) 0 }
{
    answer.is_ok()
}

// The two words of a rule, each with its number.

// A message arrives that was sent if this holds.
pub fn sent_if(holds: bool) -> Answer
    ensures { answer_number result ≡ cond holds 0 6 }
{
    if holds { Ok(()) } else { Err(Refusal::NotSent) }
}

// This must hold where an event happens.
pub fn must(holds: bool) -> Answer
    ensures { answer_number result ≡ cond holds 0 7 }
{
    if holds { Ok(()) } else { Err(Refusal::MustNot) }
}

impl Row {
    // The row that lies in the lent cells; that they are there is all it asks, and a slice's start has no type that says so.
    pub fn load(row: &[u16]) -> Row
        requires { 13 ≤ length row.now }
        ensures { (n : Counts) → result ≡ loaded n row.now }
    {
        Row {
            owner: row[OWNER],
            decision: registers::read(row[OUTCOME], row[VALUE]),
            computed: row[COMPUTED],
            sent: row[SENT],
            voted: row[VOTED],
            voted_yes: row[VOTED_YES],
            heard: row[HEARD],
            heard_yes: row[HEARD_YES],
            written: row[WRITTEN],
            terminating: row[TERMINATING],
            decided: row[DECIDED],
            committed: row[COMMITTED],
        }
    }

    // ---- what the rules ask; a party is a number, for the reason that `masks` gives

    // 3. Sent if the server's bit is in the row.
    pub fn request(self, server: u16) -> Answer
        requires { (1 ≤ server) × (server ≤ 16) }
        ensures { answer_number result ≡ given (request_rule server (as_row self)) }
    {
        sent_if(masks::has(self.sent, server))
    }

    // 4. The server must be owner and computed 0.
    pub fn compute(self, server: u16, value: u16) -> Answer
        ensures { answer_number result ≡ given (compute_rule server value (as_row self)) }
    {
        must(self.owner == server)?;
        must(self.computed == 0)
    }

    // 5. Sent if computed is not 0.
    pub fn prepare(self, database: u16, value: u16) -> Answer
        ensures { answer_number result ≡ given (prepare_rule database value (as_row self)) }
    {
        sent_if(self.computed != 0)
    }

    // 6. Sent if the server is owner and the database has voted.
    pub fn vote(self, server: u16, database: u16) -> Answer
        requires { (1 ≤ database) × (database ≤ 16) }
        ensures { answer_number result ≡ given (vote_rule server database (as_row self)) }
    {
        sent_if(self.owner == server)?;
        sent_if(masks::has(self.voted, database))
    }

    // 7. Sent if the database's ready cell is 1.
    pub fn ready(self, server: u16, database: u16, ready: u16) -> Answer
        ensures { answer_number result ≡ given (ready_rule server database ready (as_row self)) }
    {
        sent_if(ready == 1)
    }

    // 8. The server must be owner, computed not 0, written 0, all D heard.
    pub fn write(self, databases: u16, server: u16) -> Answer
        requires { databases ≤ 15 }
        ensures { answer_number result ≡ given (write_rule databases server (as_row self)) }
    {
        must(self.owner == server)?;
        must(self.computed != 0)?;
        must(self.written == 0)?;
        must(masks::has_all(self.heard, databases))
    }

    // 11. Owner must not be 0 or this server, and must be suspected by it.
    pub fn clean(self, server: u16, suspected: u16) -> Answer
        requires { self.owner ≤ 16 }
        ensures { answer_number result ≡ given (clean_rule server suspected (as_row self)) }
    {
        must(self.owner != 0)?;
        must(self.owner != server)?;
        must(masks::has(suspected, self.owner))
    }

    // 12. Sent if the sender is terminating and outcome is not 0.
    pub fn decide(self, server: u16, database: u16) -> Answer
        requires { (1 ≤ server) × (server ≤ 16) }
        ensures { answer_number result ≡ given (decide_rule server database (as_row self)) }
    {
        sent_if(masks::has(self.terminating, server))?;
        sent_if(self.decision.is_some())
    }

    // ---- what the rules do with it

    // "If computed is not 0, written is 0 and the database is unheard."
    pub fn listens(self, database: u16) -> bool
        requires { (1 ≤ database) × (database ≤ 16) }
        ensures { result ≡ listens database (as_row self) }
    {
        self.computed != 0 && self.written == 0 && !masks::has(self.heard, database)
    }

    // "Commit with the computed value if the number heard as yes is D, else abort."
    pub fn verdict(self, databases: u16) -> Decision
        ensures { result ≡ verdict databases (as_row self) }
    {
        if masks::count(self.heard_yes) == databases {
            Decision::Commit(self.computed)
        } else {
            Decision::Abort
        }
    }

    // "Under the condition of 6, and only at the owner."
    pub fn owner_listens(self, server: u16, database: u16) -> bool
        requires { (1 ≤ database) × (database ≤ 16) }
        ensures { result ≡ (eqb self.owner server && listens database (as_row self)) }
    {
        self.owner == server && self.listens(database)
    }
}
