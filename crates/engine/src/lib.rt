// The engine: set up a fresh table, and apply one event to a table, whatever the caller lends.
#![tactic(auto)]

ghost use Rattle.std.specs.Prelude.{◌≡◌, true, T};
ghost use Rattle.lists.specs.Tests.{every};
ghost use Rattle.protocol.specs.Numbers.{fields};
ghost use Rattle.protocol.specs.Answers.{answer_number};
ghost use Rattle.protocol.specs.Kinds.{kind_number};
ghost use Rattle.table.specs.Table.{sound};
ghost use Rattle.table.specs.Jobs.{set_up, table_number, applied};
ghost use Rattle.rules.specs.Rules.{Held};
ghost use Rattle.engine.specs.Engine.{followed, parties_up, answered};

use layout::{HEADER, Table, UP};
use protocol::{Answer, Counts, Event, Kind, Refusal};

// ---- 5: the parties that act

// Kinds are a closed set, so what acts and what follows are matches over them. The kind goes beside its event: a struct of the two would be made here
// and again in `rules::at_row`, which takes the event alone.

// Whether the parties that act in the event are up: client in 1, 2, 14, 17; server in 3, 4, 6 to 11, 13, 15; database in 5, 12, 16;
// none in 18.
#[tactic(auto, using(crate::proofs::Laws::nobody_acts, crate::proofs::Laws::decide_answers))]
fn parties_up(table: Table, kind: Kind, event: Event) -> bool
    requires fields_fit { every (fields table.counts event) ≡ true }
    requires kind_read { kind_number kind ≡ event.kind }
    ensures { result ≡ parties_up table.entry.counts table.entry.cells.now event }
{
    match kind {
        Kind::Issue | Kind::Timeout | Kind::ResultArrives | Kind::ClientCrashes => {
            table.client(event.client)[UP] == 1
        }
        Kind::RequestArrives
        | Kind::Compute
        | Kind::VoteArrives
        | Kind::ReadyArrives
        | Kind::Write
        | Kind::Suspect
        | Kind::Trust
        | Kind::Clean
        | Kind::AckArrives
        | Kind::ServerCrashes => table.server(event.server)[UP] == 1,
        Kind::PrepareArrives | Kind::DecideArrives | Kind::DatabaseCrashes => {
            table.database(event.database)[UP] == 1
        }
        Kind::DatabaseRecovers => true,
    }
}

// ---- 6 and 7: the rule of the event's kind

// The decision over the 18 kinds.
fn follow(table: &mut [u16], counts: Counts, kind: Kind, event: Event) -> Answer
    requires held { Held counts table.old }
    requires fields_fit { every (fields counts event) ≡ true }
    requires kind_read { kind_number kind ≡ event.kind }
    ensures { record { number = answer_number result; cells = table.new } ≡ followed counts table.old event }
{
    match kind {
        Kind::Issue => rules::issue(table, counts, event.client, event.value),
        Kind::Timeout => rules::timeout(table, counts, event.client),
        Kind::RequestArrives
        | Kind::Compute
        | Kind::PrepareArrives
        | Kind::VoteArrives
        | Kind::ReadyArrives
        | Kind::Write
        | Kind::Clean
        | Kind::DecideArrives
        | Kind::AckArrives => rules::at_row(table, counts, event),
        Kind::Suspect => rules::suspect(table, counts, event.server, event.value),
        Kind::Trust => rules::trust(table, counts, event.server, event.value),
        Kind::ResultArrives => {
            rules::result(table, counts, event.client, event.attempt, event.server)
        }
        Kind::ServerCrashes => rules::crash_server(table, counts, event.server),
        Kind::DatabaseCrashes => rules::crash_database(table, counts, event.database),
        Kind::ClientCrashes => rules::crash_client(table, counts, event.client),
        Kind::DatabaseRecovers => rules::recover(table, counts, event.database),
    }
}

// ---- 3 to 7: an event on a sound table

// The lowest of the numbers that an event is asked for, in their order, or the rule's writes.
#[tactic(auto, using(crate::proofs::Laws::unknown_kind, crate::proofs::Laws::wrong_field, crate::proofs::Laws::party_down, crate::proofs::Laws::ruled_so))]
fn answer(table: &mut [u16], counts: Counts, event: Event) -> Answer
    requires { Held counts table.old }
    ensures { record { number = answer_number result; cells = table.new } ≡ answered counts table.old event }
{
    let kind = Kind::try_from(event.kind)?;
    if !kinds::fields_fit(counts, event) {
        return Err(Refusal::WrongField);
    }
    let cells = &table[..];
    if !parties_up(Table { cells, counts }, kind, event) {
        return Err(Refusal::PartyDown);
    }
    follow(table, counts, kind, event)
}

// What `apply` does with an event on a table that is sound: for the list job and the listing, which know that it is. An accepted event leaves
// the table sound, so a list of events asks 1 and 2 once. It is not exported.
#[tactic(auto, using(crate::proofs::Laws::has_header, crate::proofs::Laws::sound_long, crate::proofs::Laws::sound_ranged, crate::proofs::Laws::sound_range, crate::proofs::Laws::goes_on))]
pub fn apply_sound(table: &mut [u16], event: Event) -> Answer
    requires { T (sound table.old) }
    ensures { record { number = answer_number result; cells = table.new } ≡ applied table.old event }
{
    let counts = layout::counts_of(&table[..]);
    answer(table, counts, event)
}

// ---- 1 and 2: the table

// Numbers 1 and 2, asked of the table alone: the one place that looks at the header, the length and the cells.
pub fn look_over(table: &[u16]) -> Answer
    ensures { answer_number result ≡ table_number table.now }
{
    if table.len() < HEADER {
        return Err(Refusal::WrongSize);
    }
    let counts = layout::counts_of(table);
    if !layout::counts_fit(counts) || table.len() != layout::table_length(counts) {
        return Err(Refusal::WrongSize);
    }
    if !ranges::in_range(Table {
        cells: table,
        counts,
    }) {
        return Err(Refusal::OutOfRange);
    }
    Ok(())
}

// ---- the first two public jobs

// Sets up a fresh table: refused, and no cell changed, where a count is outside its range or the table has another length.
pub fn set_up(table: &mut [u16], counts: Counts) -> Answer
    ensures { record { number = answer_number result; cells = table.new } ≡ set_up table.old counts }
{
    if !layout::counts_fit(counts) || table.len() != layout::table_length(counts) {
        return Err(Refusal::WrongSize);
    }
    fresh::make(table, counts);
    Ok(())
}

// Applies one event: the lowest number that applies, and no cell changed, or the rule's writes.
pub fn apply(table: &mut [u16], event: Event) -> Answer
    ensures { record { number = answer_number result; cells = table.new } ≡ applied table.old event }
{
    look_over(&table[..])?;
    apply_sound(table, event)
}

// ---- the same with numbers for answers; `number_meets`, `check_meets`, `step_meets`, `one_number`, `one_check` and `one_step` of the crate promises speak
// of the first three

// The paper's number of an answer.
pub fn number(answer: Answer) -> u16
    ensures { result ≡ answer_number answer }
{
    match answer {
        Ok(()) => 0,
        Err(refusal) => u16::from(refusal),
    }
}

// Numbers 1 and 2 of a table by itself; 0 where it is sound.
pub fn check(table: &[u16]) -> u16
    ensures { result ≡ table_number table.now }
{
    number(look_over(table))
}

// One event, with its number for an answer.
pub fn step(table: &mut [u16], event: Event) -> u16
    ensures { (result ≡ (applied table.old event).number) × (table.new ≡ (applied table.old event).cells) }
{
    number(apply(table, event))
}

// One event on a table that is sound, with its number for an answer: it was public and stands, though nothing here calls it.
pub fn step_sound(table: &mut [u16], event: Event) -> u16
    requires { T (sound table.old) }
    ensures { (result ≡ (applied table.old event).number) × (table.new ≡ (applied table.old event).cells) }
{
    number(apply_sound(table, event))
}
