// The rules that ask and write the row of one result alone, over the row's part of the table, lent by itself as cells beside the counts (`Lent`).
// It is passed as a `&mut` of cells: in a struct over that reference each rule would owe two clauses more, that the reference and the counts stay.
// A store asks for the thirteen fixed cells, whichever it touches, since `row_view` and `set_fields` name any of them.
// A number of a party is held to the counts at the rule, which is called at one place with the numbers of an event.
#![tactic(auto)]

ghost use Rattle.std.specs.Prelude.{◌≡◌, false, not, ◌&&◌, [], ◌∷◌, ◌≤◌, Some, length};
ghost use Rattle.masks.specs.Mask.{all};
ghost use Rattle.registers.specs.Register.{held};
ghost use Rattle.registers.specs.declared.Decision.TheVariants.{Abort};
ghost use Rattle.protocol.specs.declared.Counts.{Counts as Setup};
ghost use Rattle.protocol.specs.Cells.{owner, outcome, value, sent, acked, known, written};
ghost use Rattle.protocol.specs.Rules.{calls, claims, votes, hears, offers, terminates, request_rule, compute_rule, prepare_rule, vote_rule, ready_rule, write_rule, clean_rule, decide_rule, ack_rule};
ghost use Rattle.protocol.specs.Answers.{answer_number};
ghost use Rattle.table.specs.Layout.{slot};
ghost use Rattle.table.specs.Table.{set_fields, row_view};
ghost use Rattle.rows.specs.Rows.{Lent, obeys, acknowledges, stepped, result_given};

use gates::{
    COMMITTED, COMPUTED, DECIDED, HEARD, HEARD_YES, OUTCOME, OWNER, Row, SENT, TERMINATING, VALUE,
    VOTED, VOTED_YES, WRITTEN,
};
use protocol::{Answer, Counts};
use registers::Decision;

// ---- where the acknowledgements lie, behind the fixed cells: two sums, each with the name of its cell in its contract

// Those sent to a server.
fn acked_at(server: u16) -> usize
    requires { server ≤ 16 }
    ensures { (n : Setup) → result ≡ slot n (acked server) }
{
    COMMITTED + server as usize
}

// Those that a server knows.
fn known_at(counts: Counts, server: u16) -> usize
    requires { (counts.servers ≤ 16) × (server ≤ 16) }
    ensures { result ≡ slot counts (known server) }
{
    COMMITTED + counts.servers as usize + server as usize
}

// ---- what rules write: each its own two cells, by a definition of its own

// The request is sent to server 1.
pub fn call(row: &mut [u16])
    requires { 13 ≤ length row.old }
    ensures { (n : Setup) → row.new ≡ set_fields n row.old (calls (row_view n row.old)) }
{
    row[SENT] = masks::with(row[SENT], 1);
}

// If nobody owns the result, the server does: the register of claims.
fn claim(row: &mut [u16], server: u16)
    requires { 13 ≤ length row.old }
    ensures { (n : Setup) → row.new ≡ set_fields n row.old (claims server (row_view n row.old)) }
{
    // whoever owns it then, the rule asks no more
    let _ = registers::claim(&mut row[OWNER..OUTCOME], server);
}

// What a database says in its vote: no if it has already decided.
fn says(yes: bool, decided: bool) -> bool
    ensures { result ≡ (yes && not decided) }
{
    yes && !decided
}

// A database that has not voted votes.
fn cast(row: &mut [u16], database: u16, yes: bool)
    requires fixed_cells { 13 ≤ length row.old }
    requires database_in_mask { (1 ≤ database) × (database ≤ 16) }
    ensures { (n : Setup) → row.new ≡ set_fields n row.old (votes database yes (row_view n row.old)) }
{
    if !masks::has(row[VOTED], database) {
        let vote = says(yes, masks::has(row[DECIDED], database));
        let voted_yes = masks::put(row[VOTED_YES], database, vote);
        row[VOTED] = masks::with(row[VOTED], database);
        row[VOTED_YES] = voted_yes;
    }
}

// The owner, if it listens, hears a database, as yes or not.
fn hear(row: &mut [u16], listening: bool, database: u16, yes: bool)
    requires fixed_cells { 13 ≤ length row.old }
    requires database_in_mask { (1 ≤ database) × (database ≤ 16) }
    ensures { (n : Setup) → row.new ≡ set_fields n row.old (hears listening database yes (row_view n row.old)) }
{
    if listening {
        let heard_yes = masks::put(row[HEARD_YES], database, yes);
        row[HEARD] = masks::with(row[HEARD], database);
        row[HEARD_YES] = heard_yes;
    }
}

// The server terminates the result with a decision in hand, whichever it is: nobody may terminate without one.
fn terminate(row: &mut [u16], server: u16, _in_hand: Decision)
    requires fixed_cells { 13 ≤ length row.old }
    requires server_in_mask { (1 ≤ server) × (server ≤ 16) }
    ensures { (n : Setup) → row.new ≡ set_fields n row.old (terminates server (row_view n row.old)) }
{
    row[TERMINATING] = masks::with(row[TERMINATING], server);
}

// A decision is offered to the register of decisions, and answered is the one to go on with: this one where it was taken, or what was held.
fn offer(row: &mut [u16], decision: Decision) -> Decision
    requires { 13 ≤ length row.old }
    ensures cells { (n : Setup) → row.new ≡ set_fields n row.old (offers decision (row_view n row.old) []) }
    ensures in_hand { (n : Setup) → Some result ≡ held (row_view n row.new outcome) (row_view n row.new value) }
{
    match registers::offer(&mut row[OUTCOME..COMPUTED], Some(decision)) {
        Ok(_) => decision,
        Err(held) => held,
    }
}

// The owner offers its verdict, and goes on with what the register then holds, its own or what was held.
fn settle(row: &mut [u16], server: u16, decision: Decision)
    requires fixed_cells { 13 ≤ length row.old }
    requires server_in_mask { (1 ≤ server) × (server ≤ 16) }
    ensures { (n : Setup) → row.new ≡ set_fields n row.old (offers decision (row_view n row.old) ((written, 1) ∷ terminates server (row_view n row.old))) }
{
    let in_hand = offer(row, decision);
    row[WRITTEN] = 1;
    terminate(row, server, in_hand);
}

// A cleaner offers abort, and goes on with what the register then holds: it may hold commit already.
fn sweep(row: &mut [u16], server: u16)
    requires fixed_cells { 13 ≤ length row.old }
    requires server_in_mask { (1 ≤ server) × (server ≤ 16) }
    ensures { (n : Setup) → row.new ≡ set_fields n row.old (offers Abort (row_view n row.old) (terminates server (row_view n row.old))) }
{
    let in_hand = offer(row, Decision::Abort);
    terminate(row, server, in_hand);
}

// An undecided database decides by the outcome; the rule asks that cell alone, so it is asked as the number it is.
fn obey(row: &mut [u16], database: u16)
    requires fixed_cells { 13 ≤ length row.old }
    requires database_in_mask { (1 ≤ database) × (database ≤ 16) }
    ensures { (n : Setup) → row.new ≡ set_fields n row.old (obeys database (row_view n row.old)) }
{
    if !masks::has(row[DECIDED], database) {
        let committed = masks::put(row[COMMITTED], database, row[OUTCOME] == 1);
        row[DECIDED] = masks::with(row[DECIDED], database);
        row[COMMITTED] = committed;
    }
}

// The acknowledgement to the sender is sent.
fn acknowledge(row: &mut [u16], counts: Counts, server: u16, database: u16)
    requires lent { Lent counts row.old }
    requires server_there { (1 ≤ server) × (server ≤ counts.servers) }
    requires database_there { (1 ≤ database) × (database ≤ counts.databases) }
    ensures { row.new ≡ set_fields counts row.old (acknowledges server database (row_view counts row.old)) }
{
    let sent = acked_at(server);
    row[sent] = masks::with(row[sent], database);
}

// ---- the rules

// 3. A request arrives.
pub fn request(row: &mut [u16], counts: Counts, server: u16) -> Answer
    requires lent { Lent counts row.old }
    requires server_there { (1 ≤ server) × (server ≤ counts.servers) }
    ensures { record { number = answer_number result; cells = row.new } ≡ stepped counts row.old (request_rule server (row_view counts row.old)) }
{
    Row::load(&row[..]).request(server)?;
    claim(row, server);
    Ok(())
}

// 4. The owner computes.
pub fn compute(row: &mut [u16], counts: Counts, server: u16, value: u16) -> Answer
    requires { Lent counts row.old }
    ensures { record { number = answer_number result; cells = row.new } ≡ stepped counts row.old (compute_rule server value (row_view counts row.old)) }
{
    Row::load(&row[..]).compute(server, value)?;
    row[COMPUTED] = value;
    Ok(())
}

// 5. A prepare arrives.
pub fn prepare(row: &mut [u16], counts: Counts, database: u16, value: u16) -> Answer
    requires lent { Lent counts row.old }
    requires database_there { (1 ≤ database) × (database ≤ counts.databases) }
    ensures { record { number = answer_number result; cells = row.new } ≡ stepped counts row.old (prepare_rule database value (row_view counts row.old)) }
{
    Row::load(&row[..]).prepare(database, value)?;
    cast(row, database, value == 1);
    Ok(())
}

// 6. A vote arrives.
pub fn vote(row: &mut [u16], counts: Counts, server: u16, database: u16) -> Answer
    requires lent { Lent counts row.old }
    requires database_there { (1 ≤ database) × (database ≤ counts.databases) }
    ensures { record { number = answer_number result; cells = row.new } ≡ stepped counts row.old (vote_rule server database (row_view counts row.old)) }
{
    let cells = Row::load(&row[..]);
    cells.vote(server, database)?;
    let yes = masks::has(cells.voted_yes, database);
    hear(row, cells.listens(database), database, yes);
    Ok(())
}

// 7. A ready arrives.
pub fn hear_ready(row: &mut [u16], counts: Counts, server: u16, database: u16, ready: u16) -> Answer
    requires lent { Lent counts row.old }
    requires database_there { (1 ≤ database) × (database ≤ counts.databases) }
    ensures { record { number = answer_number result; cells = row.new } ≡ stepped counts row.old (ready_rule server database ready (row_view counts row.old)) }
{
    let cells = Row::load(&row[..]);
    cells.ready(server, database, ready)?;
    let listening = cells.owner_listens(server, database);
    hear(row, listening, database, false);
    Ok(())
}

// 8. The owner writes its verdict.
pub fn write(row: &mut [u16], counts: Counts, server: u16) -> Answer
    requires lent { Lent counts row.old }
    requires server_there { (1 ≤ server) × (server ≤ counts.servers) }
    ensures { record { number = answer_number result; cells = row.new } ≡ stepped counts row.old (write_rule counts.databases server (row_view counts row.old)) }
{
    let cells = Row::load(&row[..]);
    cells.write(counts.databases, server)?;
    settle(row, server, cells.verdict(counts.databases));
    Ok(())
}

// 11. Another server cleans.
pub fn clean(row: &mut [u16], counts: Counts, server: u16, suspected: u16) -> Answer
    requires lent { Lent counts row.old }
    requires server_there { (1 ≤ server) × (server ≤ counts.servers) }
    requires owner_in_mask { row_view counts row.old owner ≤ 16 }
    ensures { record { number = answer_number result; cells = row.new } ≡ stepped counts row.old (clean_rule server suspected (row_view counts row.old)) }
{
    Row::load(&row[..]).clean(server, suspected)?;
    sweep(row, server);
    Ok(())
}

// 12. A decision arrives.
pub fn decide(row: &mut [u16], counts: Counts, server: u16, database: u16) -> Answer
    requires lent { Lent counts row.old }
    requires server_there { (1 ≤ server) × (server ≤ counts.servers) }
    requires database_there { (1 ≤ database) × (database ≤ counts.databases) }
    ensures { record { number = answer_number result; cells = row.new } ≡ stepped counts row.old (decide_rule server database (row_view counts row.old)) }
{
    Row::load(&row[..]).decide(server, database)?;
    obey(row, database);
    acknowledge(row, counts, server, database);
    Ok(())
}

// 13. An acknowledgement arrives.
pub fn ack(row: &mut [u16], counts: Counts, server: u16, database: u16) -> Answer
    requires lent { Lent counts row.old }
    requires server_there { (1 ≤ server) × (server ≤ counts.servers) }
    requires database_there { (1 ≤ database) × (database ≤ counts.databases) }
    ensures { record { number = answer_number result; cells = row.new } ≡ stepped counts row.old (ack_rule server database (row_view counts row.old)) }
{
    let sent = acked_at(server);
    gates::sent_if(masks::has(row[sent], database))?;
    let known = known_at(counts, server);
    row[known] = masks::with(row[known], database);
    Ok(())
}

// 14, what it asks of the row: sent if outcome is not 0 and the sender knows all D acknowledgements.
pub fn result(row: &[u16], counts: Counts, server: u16) -> Answer
    requires lent { Lent counts row.now }
    requires server_there { (1 ≤ server) × (server ≤ counts.servers) }
    ensures { answer_number result ≡ result_given counts server (row_view counts row.now) }
{
    let known = known_at(counts, server);
    let decided = registers::read(row[OUTCOME], row[VALUE]).is_some();
    let all_known = masks::has_all(row[known], counts.databases);
    gates::sent_if(decided && all_known)
}

// The request is sent to every server.
pub fn call_all(row: &mut [u16], counts: Counts)
    requires { Lent counts row.old }
    ensures { row.new ≡ set_fields counts row.old ((sent, all counts.servers) ∷ []) }
{
    row[SENT] = masks::all(counts.servers);
}
