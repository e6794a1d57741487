// Applies stored events to stored tables, data/001, data/002 and so on: each event alone, then all as a list. Prints every number and every cell.
#![tactic(auto)]

ghost use Rattle.std.specs.Prelude.{List, ℕ, ◌≤◌, ◌<◌, length, IfSome};
ghost use Rattle.text.specs.Lent.{Continues};

use layout::HEADER;
use protocol::Event;
use std::io::{self, Write};
use text::{NEWLINE, Page, SPACE};

// The letters of the lines with a number: of an event alone, and of the list.
const EVENT: u8 = b'E';

const LIST: u8 = b'L';

// The events behind these are not looked at.
const MOST_EVENTS: u16 = 999;

// Room for the cells of a table that is too long, and for an input or what is printed of it; memory is fixed.
const ROOM: usize = 4000;

const TEXT: usize = 65536;

// ---- the table's line

// The cells of the first line, decimals with one space between, and none where the line is empty: how many there are, and what stands behind the line.
fn read_cells<'a>(input: &'a [u8], room: &mut [u16]) -> Option<(usize, &'a [u8])>
    ensures { IfSome result (λ found. found.0 ≤ length room.old) }
{
    if let Some((b'\n', behind)) = input.split_first() {
        return Some((0, behind));
    }
    let mut rest = input;
    for (count, cell) in room.iter_mut().enumerate() {
        if let Some((last, behind)) = text::read_number(rest, NEWLINE) {
            *cell = last;
            return Some((count + 1, behind));
        }
        let (number, behind) = text::read_number(rest, SPACE)?;
        *cell = number;
        rest = behind;
    }
    None
}

// ---- printing

// Whether a cell is the last of its part, as the table's header has it: the header, the servers, the databases, the clients, each row.
fn ends_part(table: &[u16], place: usize) -> bool
    requires { place < length table.now }
{
    let behind = place + 1;
    if behind == table.len() {
        return true;
    }
    if table.len() < HEADER {
        return false;
    }
    let counts = layout::counts_of(table);
    let rows = layout::rows_start(counts);
    if rows < behind {
        return (behind - rows) % layout::row_length(counts) == 0;
    }
    behind == layout::server_at(1)
        || behind == layout::databases_start(counts)
        || behind == layout::clients_start(counts)
        || behind == rows
}

// Every cell, a line for each part of the table: a text behind what is written, as far as there is room.
fn put_cells(page: &mut Page, table: &[u16])
    ensures text_after { (text : List ℕ) × Continues page.old page.new text }
    ensures within { page.old.end ≤ length page.old.room.now → page.new.end ≤ length page.new.room.now }
{
    for (place, cell) in table.iter().enumerate() {
        let end = if ends_part(table, place) {
            NEWLINE
        } else {
            SPACE
        };
        page.put_number(*cell, end);
    }
}

// A line with two numbers, and the table.
fn print_table(rt: &HostRuntime, letter: u8, first: u16, second: u16, table: &[u16]) {
    let mut out = [0; TEXT];
    let mut page = Page {
        room: &mut out,
        end: 0,
    };
    page.put(letter);
    page.put(SPACE);
    lines::put_place(&mut page, first, second);
    put_cells(&mut page, table);
    let mut output = io::writer(rt);
    // what cannot be written is missed in what the program prints
    let _ = output.write_all(page.written());
}

// ---- the events

// One event on the table as lent, which is read anew for it, and the table that it leaves.
fn play_alone(rt: &HostRuntime, input: &[u8], place: u16, event: Event) {
    let mut room = [0; ROOM];
    if let Some((count, _)) = read_cells(input, &mut room) {
        let table = &mut room[..count];
        let answer = engine::apply(table, event);
        print_table(rt, EVENT, place, engine::number(answer), table);
    }
}

// Each event of the lines by itself, on the table of the input.
fn play_each(rt: &HostRuntime, input: &[u8], lines_of_events: &[u8]) {
    let mut rest = lines_of_events;
    for place in 1..=MOST_EVENTS {
        let Some((event, behind)) = lines::read_event(rest) else {
            return;
        };
        play_alone(rt, input, place, event);
        rest = behind;
    }
}

// All events of the lines in order from the table as lent, to the first refusal; where there are none, 1 and 2 are asked all the same.
fn play_list(rt: &HostRuntime, table: &mut [u16], lines_of_events: &[u8]) {
    if let Err(refusal) = engine::look_over(table) {
        return print_table(rt, LIST, 0, u16::from(refusal), table);
    }
    let mut rest = lines_of_events;
    for accepted in 0..MOST_EVENTS {
        if rest.is_empty() {
            return print_table(rt, LIST, accepted, 0, table);
        }
        let Some((event, behind)) = lines::read_event(rest) else {
            return;
        };
        if let Err(refusal) = engine::apply(table, event) {
            return print_table(rt, LIST, accepted, u16::from(refusal), table);
        }
        rest = behind;
    }
    print_table(rt, LIST, MOST_EVENTS, 0, table);
}

// A stored table and its events.
fn play(rt: &HostRuntime, input: &[u8]) {
    let mut room = [0; ROOM];
    if let Some((count, behind)) = read_cells(input, &mut room) {
        play_each(rt, input, behind);
        play_list(rt, &mut room[..count], behind);
    }
}

fn main(rt: HostRuntime) {
    for number in 1..1000 {
        let Some(mut file) = printing::open_stored(&rt, number) else {
            return;
        };
        let mut input = [0; TEXT];
        if let Ok(length) = printing::read_input(&mut file, &mut input) {
            play(&rt, &input[..length]);
        }
    }
}
