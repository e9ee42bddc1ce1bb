//! Reads commands from the rows of a text. Refuses the leftmost bad column.
ghost use Rattle.std.specs.Prelude.{◌≡◌, ◌≢◌, ◌≤◌, map, IfOk, IfSome};
ghost use Rattle.ob_base.specs.Fields.{unix_second_in, until_in};
ghost use Rattle.ob_csv.specs.Header.{columns};
ghost use Rattle.ob_total.specs.Commands.{IsCommand, IsSpan, column, with_unused, span_end_in, span_of, cause_of, bus_of, section_of, device_of, other_node_in, since_in, life_of, connect_of, switch_of, kind_in, command_of};

use ob_base::{
    Crew, LAST_SECOND, Life, Name, Pos, Ref, Refusal, Second, read_act, read_cause, read_feeder,
    read_normal, read_serial, read_unix_second, read_until,
};
use ob_csv::{COLUMNS, Row, RowFields};

/// The seconds from `first` up to `end`, `end` excluded.
#[derive(Clone, Copy)]
pub struct Span {
    pub first: Second,
    pub end: Second,
}

/// The kinds of commands.
#[derive(Clone, Copy)]
pub enum Kind {
    Cause,
    Bus,
    Section,
    Device,
    Life,
    Connect,
    Switch,
}

/// The command in a row after the first.
#[derive(Clone, Copy)]
pub enum Command {
    /// A cause, which doesn't affect a total.
    Cause,
    /// A bus.
    Bus(Name),
    /// A section and its home feeder.
    Section(Name, u8),
    /// A device, its two nodes, its normal position and its in-service interval.
    Device(Name, Name, Name, Pos, Life),
    /// A new in-service interval that replaces the one that a device had.
    Life(Name, Life),
    /// A customer's number, section and service interval.
    Connect(u32, Name, Second, Option<Second>),
    /// A device's position from a second on, with cause and crew.
    Switch(Name, Pos, Second, u8, Crew),
}

/// One more than the greatest length of a span, in seconds.
const SPAN_LIMIT: u64 = 1 << 25;

/// Reads the span from the first row.
pub fn span_in(row: &Row) -> Result<Span, Refusal>
    ensures span { result ≡ span_of row.now }
    ensures valid { IfOk result IsSpan }
{
    match row.fields() {
        Some(fields) => read_span(&fields),
        None => Err(Refusal::BadField(0)),
    }
}

/// Reads the command from a row after the first.
pub fn command_in(row: &Row) -> Result<Command, Refusal>
    ensures command { result ≡ command_of row.now }
    ensures valid { IfOk result IsCommand }
{
    match row.fields() {
        Some(fields) => read_command(&fields),
        None => Err(Refusal::BadField(0)),
    }
}

fn read_span(row: &RowFields<'_>) -> Result<Span, Refusal>
    ensures span { result ≡ span_of (map (λ f. f.now) row.now) }
    ensures valid { IfOk result IsSpan }
{
    if column(row, 1) != b"span".as_slice() {
        return Err(Refusal::BadField(1));
    }
    Ref::read(column(row, 2)).ok_or(Refusal::BadField(2))?;
    let first = read_unix_second(column(row, 3)).ok_or(Refusal::BadField(3))?;
    let end = read_span_end(first, column(row, 4)).ok_or(Refusal::BadField(4))?;
    complete(Span { first, end }, row, 5)
}

fn read_command(row: &RowFields<'_>) -> Result<Command, Refusal>
    ensures command { result ≡ command_of (map (λ f. f.now) row.now) }
    ensures valid { IfOk result IsCommand }
{
    let kind = read_kind(column(row, 1)).ok_or(Refusal::BadField(1))?;
    Ref::read(column(row, 2)).ok_or(Refusal::BadField(2))?;
    match kind {
        Kind::Cause => read_cause_row(row),
        Kind::Bus => read_bus(row),
        Kind::Section => read_section(row),
        Kind::Device => read_device(row),
        Kind::Life => read_life(row),
        Kind::Connect => read_connect(row),
        Kind::Switch => read_switch(row),
    }
}

fn read_kind(text: &[u8]) -> Option<Kind>
    ensures { result ≡ kind_in text.now }
{
    if text == b"cause".as_slice() {
        Some(Kind::Cause)
    } else if text == b"bus".as_slice() {
        Some(Kind::Bus)
    } else if text == b"section".as_slice() {
        Some(Kind::Section)
    } else if text == b"device".as_slice() {
        Some(Kind::Device)
    } else if text == b"life".as_slice() {
        Some(Kind::Life)
    } else if text == b"connect".as_slice() {
        Some(Kind::Connect)
    } else if text == b"switch".as_slice() {
        Some(Kind::Switch)
    } else {
        None
    }
}

/// Reads the end of a span: after its first second, by less than `SPAN_LIMIT`.
fn read_span_end(first: Second, text: &[u8]) -> Option<Second>
    requires { first ≤ 99_999_999_999 }
    ensures end { result ≡ span_end_in first text.now }
    ensures valid { IfSome result (λ end. IsSpan (record { first = first; end = end })) }
{
    let end = read_unix_second(text)?;
    if first < end && end < first + SPAN_LIMIT {
        Some(end)
    } else {
        None
    }
}

fn read_cause_row(row: &RowFields<'_>) -> Result<Command, Refusal>
    ensures command { result ≡ cause_of (map (λ f. f.now) row.now) }
    ensures valid { IfOk result IsCommand }
{
    read_cause(column(row, 3)).ok_or(Refusal::BadField(3))?;
    Name::read(column(row, 4)).ok_or(Refusal::BadField(4))?;
    complete(Command::Cause, row, 5)
}

fn read_bus(row: &RowFields<'_>) -> Result<Command, Refusal>
    ensures command { result ≡ bus_of (map (λ f. f.now) row.now) }
    ensures valid { IfOk result IsCommand }
{
    let name = Name::read(column(row, 3)).ok_or(Refusal::BadField(3))?;
    complete(Command::Bus(name), row, 4)
}

fn read_section(row: &RowFields<'_>) -> Result<Command, Refusal>
    ensures command { result ≡ section_of (map (λ f. f.now) row.now) }
    ensures valid { IfOk result IsCommand }
{
    let name = Name::read(column(row, 3)).ok_or(Refusal::BadField(3))?;
    let feeder = read_feeder(column(row, 4)).ok_or(Refusal::BadField(4))?;
    complete(Command::Section(name, feeder), row, 5)
}

fn read_device(row: &RowFields<'_>) -> Result<Command, Refusal>
    ensures command { result ≡ device_of (map (λ f. f.now) row.now) }
    ensures valid { IfOk result IsCommand }
{
    let name = Name::read(column(row, 3)).ok_or(Refusal::BadField(3))?;
    let a = Name::read(column(row, 4)).ok_or(Refusal::BadField(4))?;
    let b = read_other_node(&a, column(row, 5)).ok_or(Refusal::BadField(5))?;
    let normal = read_normal(column(row, 6)).ok_or(Refusal::BadField(6))?;
    let since = read_since(column(row, 7)).ok_or(Refusal::BadField(7))?;
    let until = read_end(column(row, 8)).ok_or(Refusal::BadField(8))?;
    Ok(Command::Device(name, a, b, normal, Life { since, until }))
}

/// Reads the second node of a device, which isn't the first node.
fn read_other_node(a: &Name, text: &[u8]) -> Option<Name>
    ensures node { result ≡ other_node_in a.now text.now }
    ensures apart { IfSome result (λ b. a.now ≢ b) }
{
    let b = Name::read(text)?;
    if a.bytes() == b.bytes() {
        None
    } else {
        Some(b)
    }
}

fn read_life(row: &RowFields<'_>) -> Result<Command, Refusal>
    ensures command { result ≡ life_of (map (λ f. f.now) row.now) }
    ensures valid { IfOk result IsCommand }
{
    let name = Name::read(column(row, 3)).ok_or(Refusal::BadField(3))?;
    let since = read_since(column(row, 4)).ok_or(Refusal::BadField(4))?;
    let until = read_end(column(row, 5)).ok_or(Refusal::BadField(5))?;
    complete(Command::Life(name, Life { since, until }), row, 6)
}

/// Reads the beginning of an in-service interval as Unix seconds; 0 if the field is empty.
fn read_since(text: &[u8]) -> Option<Second>
    ensures { result ≡ since_in text.now }
{
    if text.is_empty() {
        Some(0)
    } else {
        read_unix_second(text)
    }
}

fn read_connect(row: &RowFields<'_>) -> Result<Command, Refusal>
    ensures command { result ≡ connect_of (map (λ f. f.now) row.now) }
    ensures valid { IfOk result IsCommand }
{
    let customer = read_serial(column(row, 3)).ok_or(Refusal::BadField(3))?;
    let section = Name::read(column(row, 4)).ok_or(Refusal::BadField(4))?;
    let since = read_unix_second(column(row, 5)).ok_or(Refusal::BadField(5))?;
    let until = read_end(column(row, 6)).ok_or(Refusal::BadField(6))?;
    complete(Command::Connect(customer, section, since, until), row, 7)
}

/// Reads the end of an in-service or service interval as Unix seconds, or none.
fn read_end(text: &[u8]) -> Option<Option<Second>>
    ensures { result ≡ until_in unix_second_in text.now }
{
    read_until(text, read_unix_second(text))
}

fn read_switch(row: &RowFields<'_>) -> Result<Command, Refusal>
    ensures command { result ≡ switch_of (map (λ f. f.now) row.now) }
    ensures valid { IfOk result IsCommand }
{
    let device = Name::read(column(row, 3)).ok_or(Refusal::BadField(3))?;
    let pos = read_act(column(row, 4)).ok_or(Refusal::BadField(4))?;
    let second = read_unix_second(column(row, 5)).ok_or(Refusal::BadField(5))?;
    let cause = read_cause(column(row, 6)).ok_or(Refusal::BadField(6))?;
    let crew = Crew::read(column(row, 7)).ok_or(Refusal::BadField(7))?;
    complete(Command::Switch(device, pos, second, cause, crew), row, 8)
}

/// Returns the value if the columns from `first` on are empty.
fn complete<T: Copy>(value: T, row: &RowFields<'_>, first: usize) -> Result<T, Refusal>
    requires numbered { 1 ≤ first }
    requires exists { first ≤ columns }
    ensures value { result ≡ with_unused (map (λ f. f.now) row.now) first (Ok value) }
    ensures kept { IfOk result (λ v. v ≡ value) }
{
    for number in first..COLUMNS + 1 {
        if !column(row, number).is_empty() {
            return Err(Refusal::BadField(number as u8));
        }
    }
    Ok(value)
}

/// Returns the field of a column; columns are numbered from 1.
fn column<'a>(row: &RowFields<'a>, number: usize) -> &'a [u8]
    requires numbered { 1 ≤ number }
    requires exists { number ≤ columns }
    ensures { result.now ≡ column (map (λ f. f.now) row.now) number }
{
    row[number - 1]
}
