// The listing of an input, as paper 01's listing program prints it, in one function on slices.
#![tactic(auto)]

ghost use Rattle.std.specs.Prelude.{◌≡◌, [], ◌∷◌, ◌≤◌, min, T, length};
ghost use Rattle.protocol.specs.declared.Counts.{Counts as Setup};
ghost use Rattle.protocol.specs.Agreement.{Id};
ghost use Rattle.protocol.specs.Cells.{row_of};
ghost use Rattle.table.specs.Layout.{table_length};
ghost use Rattle.table.specs.Table.{view, row_view, sound, fresh_table};
ghost use Rattle.layout.specs.Ranged.{Ranged};
ghost use Rattle.text.specs.Writing.{line, over};
ghost use Rattle.text.specs.Lent.{Continues};
ghost use Rattle.listing.specs.Script.{script};
ghost use Rattle.listing.specs.Listing.{longest, played, client_line, result_line, for_each, listed, listing};

use gates::{COMMITTED, OUTCOME, OWNER, VALUE, VOTED_YES};
use layout::{ATTEMPT, DELIVERED, PHASE, Table};
use protocol::{Counts, Refusal};
use text::Page;

// The most bytes of an input.
const LONGEST: usize = 65536;

// The cells of the largest table: memory is fixed.
const MOST_CELLS: usize = 3788;

// The number that the program alone gives.
const MALFORMED: u16 = 8;

// ---- the lines of clients and results

fn client_line(page: &mut Page, table: Table, client: u16)
    requires client_there { Id table.counts.clients client }
    ensures { Continues page.old page.new (client_line (view table.entry.counts table.entry.cells.now) client) }
{
    let cells = table.client(client);
    lines::put_client(page, client, cells[PHASE], cells[ATTEMPT], cells[DELIVERED]);
}

#[tactic(auto, using(crate::proofs::Endings::none_put))]
fn client_lines(page: &mut Page, table: Table)
    ensures { Continues page.old page.new (for_each table.entry.counts.clients (client_line (view table.entry.counts table.entry.cells.now))) }
{
    for client in 1..=table.counts.clients {
        client_line(page, table, client);
    }
}

// A row, lent by itself; without an owner it has no line. It asks for its fixed cells, as `Row::load` does.
fn row_line(page: &mut Page, row: &[u16], client: u16, attempt: u16)
    requires { 13 ≤ length row.now }
    ensures { (n : Setup) → Continues page.old page.new (result_line client attempt (row_view n row.now)) }
{
    if row[OWNER] == 0 {
        return;
    }
    let votes = masks::count(row[VOTED_YES]);
    let commits = masks::count(row[COMMITTED]);
    lines::put_result(
        page,
        client,
        attempt,
        row[OWNER],
        row[OUTCOME],
        row[VALUE],
        votes,
        commits,
    );
}

fn result_line(page: &mut Page, table: Table, client: u16, attempt: u16)
    requires client_there { Id table.counts.clients client }
    requires attempt_there { Id table.counts.attempts attempt }
    ensures { Continues page.old page.new (result_line client attempt (row_of (view table.entry.counts table.entry.cells.now) client attempt)) }
{
    row_line(page, table.row(client, attempt), client, attempt);
}

// Those of one client.
#[tactic(auto, using(crate::proofs::Endings::none_put))]
fn attempt_lines(page: &mut Page, table: Table, client: u16)
    requires client_there { Id table.counts.clients client }
    ensures { Continues page.old page.new (for_each table.entry.counts.attempts (λ k. result_line client k (row_of (view table.entry.counts table.entry.cells.now) client k))) }
{
    for attempt in 1..=table.counts.attempts {
        result_line(page, table, client, attempt);
    }
}

#[tactic(auto, using(crate::proofs::Endings::none_put))]
fn result_lines(page: &mut Page, table: Table)
    ensures { Continues page.old page.new (for_each table.entry.counts.clients (λ c. for_each table.entry.counts.attempts (λ k. result_line c k (row_of (view table.entry.counts table.entry.cells.now) c k)))) }
{
    for client in 1..=table.counts.clients {
        attempt_lines(page, table, client);
    }
}

// ---- the events

// The events of the lines, to the first refusal: for each its place and its number.
fn play(page: &mut Page, table: &mut [u16], input: &[u8])
    requires is_sound { T (sound table.old) }
    requires not_too_long { length input.now ≤ longest }
    ensures text_after { Continues page.old page.new (played 1 table.old (script input.now)).text }
    ensures table_after { table.new ≡ (played 1 table.old (script input.now)).cells }
{
    // counted here, since the loop ends with the input and not with a count
    let mut place = 1;
    let mut rest = input;
    while !rest.is_empty() {
        let Some((event, behind)) = lines::read_event(rest) else {
            return lines::put_place(page, place, MALFORMED);
        };
        let answer = engine::apply_sound(table, event);
        lines::put_place(page, place, engine::number(answer));
        if answer.is_err() {
            return;
        }
        place += 1;
        rest = behind;
    }
}

// ---- the whole listing

// A refusal of the input itself: place 0, and nothing more.
fn refuse(page: &mut Page, number: u16)
    ensures { Continues page.old page.new (line (0 ∷ number ∷ [])) }
{
    lines::put_place(page, 0, number);
}

// The events and the ending, on a table of the setup's length.
fn list_on(page: &mut Page, table: &mut [u16], counts: Counts, input: &[u8])
    requires whole_table { length table.old ≡ table_length counts }
    requires ranged { Ranged counts }
    requires not_too_long { length input.now ≤ longest }
    ensures { Continues page.old page.new (listed counts (played 1 (fresh_table counts) (script input.now))) }
{
    // the length and the counts are right, so the answer is known
    let _ = engine::set_up(table, counts);
    play(page, table, input);
    let left = Table {
        cells: &table[..],
        counts,
    };
    client_lines(page, left);
    result_lines(page, left);
}

// The listing of an input.
#[tactic(auto, using(crate::proofs::Whole::cells_enough))]
fn put_listing(page: &mut Page, input: &[u8])
    ensures { Continues page.old page.new (listing input.now) }
{
    if LONGEST < input.len() {
        return refuse(page, MALFORMED);
    }
    let Some((counts, behind)) = lines::read_counts(input) else {
        return refuse(page, MALFORMED);
    };
    if !layout::counts_fit(counts) {
        return refuse(page, u16::from(Refusal::WrongSize));
    }
    let mut cells = [0; MOST_CELLS];
    let length = layout::table_length(counts);
    list_on(page, &mut cells[..length], counts, behind);
}

// Writes the listing of an input to the start of the lent room, as much as it has room for, and answers how many bytes that is.
pub fn list(input: &[u8], out: &mut [u8]) -> usize
    ensures how_many { result ≡ min (length (listing input.now)) (length out.old) }
    ensures out_after { out.new ≡ over out.old (listing input.now) }
{
    let mut page = Page { room: out, end: 0 };
    put_listing(&mut page, input);
    page.end
}
