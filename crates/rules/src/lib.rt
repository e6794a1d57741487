// The rules over the whole table: the kinds of a row, on the row lent by itself, and one function for each kind of the parties.
// The table is a lent `&mut` of cells beside its counts (`Held`), as the row is in `rows` and for the reason given there; between two stores of one rule
// it need not even be in range.
#![tactic(auto, using(crate::proofs::Laws::client_sum, crate::proofs::Laws::client_offset, crate::proofs::Laws::client_cell, crate::proofs::Laws::database_sum, crate::proofs::Laws::database_offset, crate::proofs::Laws::database_cell, crate::proofs::Laws::server_sum, crate::proofs::Laws::server_offset, crate::proofs::Laws::server_cell, crate::proofs::Laws::still_long))]

ghost use Rattle.std.specs.Prelude.{◌≡◌, [], ◌∷◌, ◌≤◌, T};
ghost use Rattle.lists.specs.Tests.{inside};
ghost use Rattle.masks.specs.Mask.{all, put};
ghost use Rattle.protocol.specs.Cells.{owner, sent, ready, suspects, phase, delivered, row_of, in_row};
ghost use Rattle.protocol.specs.Rules.{calls, issue_rule, timeout_rule, suspect_rule, trust_rule, result_rule, server_crash_rule, database_crash_rule, client_crash_rule, recover_rule};
ghost use Rattle.protocol.specs.Answers.{answer_number};
ghost use Rattle.protocol.specs.Kinds.{kind_number};
ghost use Rattle.table.specs.Table.{view, set_all, row_view};
ghost use Rattle.rows.specs.Rows.{Lent, stepped};
ghost use Rattle.rules.specs.Rules.{Held, Named, ruled, Follows, row_rule, row_ruled, aborted, concluded};

use gates::Row;
use layout::{ATTEMPT, DELIVERED, PHASE, READY, REQUEST, SUSPECTS, Table};
use protocol::{Answer, Counts, Event, Kind, Phase, Refusal};
use registers::Decision;

// ---- the row of a result, lent by itself

// A match over the nine kinds, each a rule function of its own; `asked` is what that rule asks of a party: the ready cell of the event's database, or whom the event's server suspects.
fn follow_row(row: &mut [u16], counts: Counts, kind: Kind, event: Event, asked: u16) -> Answer
    requires lent { Lent counts row.old }
    requires follows { Follows counts event }
    requires kind_read { kind_number kind ≡ event.kind }
    requires owner_in_mask { row_view counts row.old owner ≤ 16 }
    ensures { record { number = answer_number result; cells = row.new } ≡ stepped counts row.old (row_rule counts event asked asked (row_view counts row.old)) }
{
    match kind {
        Kind::RequestArrives => rows::request(row, counts, event.server),
        Kind::Compute => rows::compute(row, counts, event.server, event.value),
        Kind::PrepareArrives => rows::prepare(row, counts, event.database, event.value),
        Kind::VoteArrives => rows::vote(row, counts, event.server, event.database),
        Kind::ReadyArrives => rows::hear_ready(row, counts, event.server, event.database, asked),
        Kind::Write => rows::write(row, counts, event.server),
        Kind::Clean => rows::clean(row, counts, event.server, asked),
        Kind::DecideArrives => rows::decide(row, counts, event.server, event.database),
        Kind::AckArrives => rows::ack(row, counts, event.server, event.database),
        // never reached: `at_row` asks that the kind is one of these nine
        _ => Err(Refusal::UnknownKind),
    }
}

// What the rule of a row's kind asks of a party, and 0 where it asks nothing of one: the number of a cell, by a match over the kinds, each beside its event
// as in `engine`.
fn asked_of_party(table: Table, kind: Kind, event: Event) -> u16
    requires follows { Follows table.counts event }
    requires kind_read { kind_number kind ≡ event.kind }
    ensures ready { event.kind ≡ 7 → result ≡ view table.entry.counts table.entry.cells.now (ready event.database) }
    ensures suspected { event.kind ≡ 11 → result ≡ view table.entry.counts table.entry.cells.now (suspects event.server) }
{
    match kind {
        Kind::ReadyArrives => table.database(event.database)[READY],
        Kind::Clean => table.server(event.server)[SUSPECTS],
        _ => 0,
    }
}

// The rule of a row's kind at the event's result.
pub fn at_row(table: &mut [u16], counts: Counts, event: Event) -> Answer
    requires held { Held counts table.old }
    requires follows { Follows counts event }
    ensures { record { number = answer_number result; cells = table.new } ≡ ruled counts table.old (row_ruled counts event (view counts table.old)) }
{
    let kind = Kind::try_from(event.kind)?;
    let cells = &table[..];
    let asked = asked_of_party(Table { cells, counts }, kind, event);
    let row = &mut table[layout::row_range(counts, event.client, event.attempt)];
    follow_row(row, counts, kind, event, asked)
}

// The request of a result is sent to server 1.
fn call(table: &mut [u16], counts: Counts, client: u16, attempt: u16)
    requires { Named counts table.old client attempt }
    ensures { table.new ≡ set_all counts table.old (in_row client attempt (calls (row_of (view counts table.old) client attempt))) }
{
    rows::call(&mut table[layout::row_range(counts, client, attempt)]);
}

// The request of a result is sent to every server.
fn call_all(table: &mut [u16], counts: Counts, client: u16, attempt: u16)
    requires { Named counts table.old client attempt }
    ensures { table.new ≡ set_all counts table.old (in_row client attempt ((sent, all counts.servers) ∷ [])) }
{
    rows::call_all(
        &mut table[layout::row_range(counts, client, attempt)],
        counts,
    );
}

// ---- the rules of the parties

// A server suspects another, or not, from now on.
fn doubt(table: &mut [u16], counts: Counts, server: u16, other: u16, doubted: bool)
    requires held { Held counts table.old }
    requires server_there { T (inside counts.servers server) }
    requires other_in_mask { (1 ≤ other) × (other ≤ 16) }
    ensures { table.new ≡ set_all counts table.old ((suspects server, put (view counts table.old (suspects server)) other doubted) ∷ []) }
{
    let at = layout::server_at(server) + SUSPECTS;
    table[at] = masks::put(table[at], other, doubted);
}

// 1. A client issues its request.
pub fn issue(table: &mut [u16], counts: Counts, client: u16, value: u16) -> Answer
    requires held { Held counts table.old }
    requires client_there { T (inside counts.clients client) }
    ensures { record { number = answer_number result; cells = table.new } ≡ ruled counts table.old (issue_rule (view counts table.old) client value) }
{
    let at = layout::client_at(counts, client);
    gates::must(table[at + PHASE] == Phase::Idle as u16)?;
    table[at + PHASE] = Phase::Waiting as u16;
    table[at + ATTEMPT] = 1;
    table[at + REQUEST] = value;
    call(table, counts, client, 1);
    Ok(())
}

// 2. A client's timeout.
pub fn timeout(table: &mut [u16], counts: Counts, client: u16) -> Answer
    requires held { Held counts table.old }
    requires client_there { T (inside counts.clients client) }
    ensures { record { number = answer_number result; cells = table.new } ≡ ruled counts table.old (timeout_rule counts (view counts table.old) client) }
{
    let at = layout::client_at(counts, client);
    gates::must(table[at + PHASE] == Phase::Waiting as u16)?;
    let attempt = table[at + ATTEMPT];
    call_all(table, counts, client, attempt);
    Ok(())
}

// 9. A server suspects another.
pub fn suspect(table: &mut [u16], counts: Counts, server: u16, other: u16) -> Answer
    requires held { Held counts table.old }
    requires servers_there { T (inside counts.servers server) × T (inside counts.servers other) }
    ensures { record { number = answer_number result; cells = table.new } ≡ ruled counts table.old (suspect_rule (view counts table.old) server other) }
{
    gates::must(server != other)?;
    doubt(table, counts, server, other, true);
    Ok(())
}

// 10. A server trusts another again.
pub fn trust(table: &mut [u16], counts: Counts, server: u16, other: u16) -> Answer
    requires held { Held counts table.old }
    requires servers_there { T (inside counts.servers server) × T (inside counts.servers other) }
    ensures { record { number = answer_number result; cells = table.new } ≡ ruled counts table.old (trust_rule (view counts table.old) server other) }
{
    gates::must(server != other)?;
    doubt(table, counts, server, other, false);
    Ok(())
}

// 15 to 17 are alike but for the place of the party's cell: each rule is a function of its own, as it is a definition of its own.

// 15. A server crashes.
pub fn crash_server(table: &mut [u16], counts: Counts, server: u16) -> Answer
    requires held { Held counts table.old }
    requires server_there { T (inside counts.servers server) }
    ensures { record { number = answer_number result; cells = table.new } ≡ ruled counts table.old (server_crash_rule server) }
{
    let at = layout::server_at(server);
    table[at] = 0;
    Ok(())
}

// 16. A database crashes.
pub fn crash_database(table: &mut [u16], counts: Counts, database: u16) -> Answer
    requires held { Held counts table.old }
    requires database_there { T (inside counts.databases database) }
    ensures { record { number = answer_number result; cells = table.new } ≡ ruled counts table.old (database_crash_rule database) }
{
    let at = layout::database_at(counts, database);
    table[at] = 0;
    Ok(())
}

// 17. A client crashes.
pub fn crash_client(table: &mut [u16], counts: Counts, client: u16) -> Answer
    requires held { Held counts table.old }
    requires client_there { T (inside counts.clients client) }
    ensures { record { number = answer_number result; cells = table.new } ≡ ruled counts table.old (client_crash_rule client) }
{
    let at = layout::client_at(counts, client);
    table[at] = 0;
    Ok(())
}

// 18. A database recovers.
pub fn recover(table: &mut [u16], counts: Counts, database: u16) -> Answer
    requires held { Held counts table.old }
    requires database_there { T (inside counts.databases database) }
    ensures { record { number = answer_number result; cells = table.new } ≡ ruled counts table.old (recover_rule (view counts table.old) database) }
{
    let at = layout::database_at(counts, database);
    gates::must(table[at] == 0)?;
    table[at] = 1;
    table[at + READY] = 1;
    Ok(())
}

// A commit reaches its client: phase 2, and the value is delivered.
fn deliver(table: &mut [u16], counts: Counts, client: u16, value: u16)
    requires held { Held counts table.old }
    requires client_there { T (inside counts.clients client) }
    ensures { table.new ≡ set_all counts table.old ((phase client, 2) ∷ (delivered client, value) ∷ []) }
{
    let at = layout::client_at(counts, client);
    table[at + PHASE] = Phase::Delivered as u16;
    table[at + DELIVERED] = value;
}

// An abort reaches its client: the next attempt, its request sent to server 1, or phase 3 if the attempt was the last.
fn advance(table: &mut [u16], counts: Counts, client: u16, attempt: u16)
    requires held { Held counts table.old }
    requires result_there { T (inside counts.clients client) × T (inside counts.attempts attempt) }
    ensures { table.new ≡ set_all counts table.old (aborted counts (view counts table.old) client attempt) }
{
    let at = layout::client_at(counts, client);
    if attempt == counts.attempts {
        table[at + PHASE] = Phase::GivenUp as u16;
        return;
    }
    table[at + ATTEMPT] = attempt + 1;
    call(table, counts, client, attempt + 1);
}

// A result reaches its client, which takes it if it waits on that attempt.
fn conclude(table: &mut [u16], counts: Counts, client: u16, attempt: u16)
    requires held { Held counts table.old }
    requires result_there { T (inside counts.clients client) × T (inside counts.attempts attempt) }
    ensures { table.new ≡ set_all counts table.old (concluded counts (view counts table.old) client attempt) }
{
    let at = layout::client_at(counts, client);
    if table[at + PHASE] != Phase::Waiting as u16 || table[at + ATTEMPT] != attempt {
        return;
    }
    let row = Row::load(&table[layout::row_range(counts, client, attempt)]);
    match row.decision {
        Some(Decision::Commit(value)) => deliver(table, counts, client, value),
        Some(Decision::Abort) => advance(table, counts, client, attempt),
        None => advance(table, counts, client, attempt),
    }
}

// 14. A result arrives.
pub fn result(table: &mut [u16], counts: Counts, client: u16, attempt: u16, server: u16) -> Answer
    requires held { Held counts table.old }
    requires result_there { T (inside counts.clients client) × T (inside counts.attempts attempt) }
    requires server_there { T (inside counts.servers server) }
    ensures { record { number = answer_number result; cells = table.new } ≡ ruled counts table.old (result_rule counts (view counts table.old) client attempt server) }
{
    rows::result(
        &table[layout::row_range(counts, client, attempt)],
        counts,
        server,
    )?;
    conclude(table, counts, client, attempt);
    Ok(())
}
