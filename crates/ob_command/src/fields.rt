//! Reading a command from its six fields, by its kind. A refusal names the leftmost bad column.
ghost use Rattle.std.specs.Prelude.{◌≡◌, ◌<◌, ◌+◌, [], ◌∷◌, length, map, Ok};
ghost use Rattle.ob_command.specs.Fields.{bus_of, cause_of, connect_of, correct_of, device_of, life_of, mark_of, operation_in, revise_of, section_of, service_in, switch_of, unmark_of, with_unused, withdraw_of, AreFieldsOf};
ghost use Rattle.ob_command.specs.Spellings.{end_as, ends_from, start_as};

use crate::kind::Kind;
use crate::spelling::Spelling;
use crate::{CivilDate, Command, Ends, Moment, NewDevice, Operation, Service};
use ob_base::{Crew, Name, Refusal, read_act, read_normal};

/// The six fields after the kind, columns 3 to 8. Fields that a kind doesn't use are empty.
#[derive(Clone, Copy)]
pub(crate) struct Fields<'a> {
    /// Column 3.
    pub(crate) f1: &'a [u8],
    /// Column 4.
    pub(crate) f2: &'a [u8],
    /// Column 5.
    pub(crate) f3: &'a [u8],
    /// Column 6.
    pub(crate) f4: &'a [u8],
    /// Column 7.
    pub(crate) f5: &'a [u8],
    /// Column 8.
    pub(crate) f6: &'a [u8],
}

/// Reads a command of this kind from its fields in this spelling. The refusal names the leftmost
/// bad column, from 3 on. If a device's second node is its first, column 5 is bad.
pub(crate) fn read_fields(
    spelling: Spelling,
    kind: Kind,
    fields: &Fields<'_>,
) -> Result<Command, Refusal>
    ensures { AreFieldsOf spelling kind fields.now.f1.now fields.now.f2.now fields.now.f3.now
        fields.now.f4.now fields.now.f5.now fields.now.f6.now result }
{
    // Moments and dates are read first, whatever is in the columns to their left: their readings
    // are defined by a relation, and the contract of each kind takes their results as given.
    match kind {
        Kind::Cause => cause(spelling, fields),
        Kind::Bus => bus(fields),
        Kind::Section => section(spelling, fields),
        Kind::Device => {
            let since = spelling.read_moment(fields.f5);
            let until = spelling.read_moment(fields.f6);
            device(spelling, fields, since, until)
        }
        Kind::Life => {
            let since = spelling.read_moment(fields.f2);
            let until = spelling.read_moment(fields.f3);
            life(spelling, fields, since, until)
        }
        Kind::Connect => {
            let since = spelling.read_moment(fields.f3);
            let until = spelling.read_moment(fields.f4);
            connect(spelling, fields, since, until)
        }
        Kind::Revise => {
            let since = spelling.read_moment(fields.f2);
            let until = spelling.read_moment(fields.f3);
            revise(spelling, fields, since, until)
        }
        Kind::Switch => switch(spelling, fields, spelling.read_moment(fields.f3)),
        Kind::Correct => correct(spelling, fields, spelling.read_moment(fields.f4)),
        Kind::Withdraw => withdraw(spelling, fields),
        Kind::Mark => mark(CivilDate::read(fields.f1), fields),
        Kind::Unmark => unmark(CivilDate::read(fields.f1), fields),
    }
}

// For each kind: its columns from the left, then the columns that must be empty.

fn cause(spelling: Spelling, fields: &Fields<'_>) -> Result<Command, Refusal>
    ensures { result ≡ cause_of spelling fields.now.f1.now fields.now.f2.now
        (fields.now.f3.now ∷ fields.now.f4.now ∷ fields.now.f5.now ∷ fields.now.f6.now ∷ []) }
{
    let code = spelling.read_code(fields.f1).ok_or(Refusal::BadField(3))?;
    let name = Name::read(fields.f2).ok_or(Refusal::BadField(4))?;
    complete(
        Command::Cause { code, name },
        5,
        &[fields.f3, fields.f4, fields.f5, fields.f6],
    )
}

fn bus(fields: &Fields<'_>) -> Result<Command, Refusal>
    ensures { result ≡ bus_of fields.now.f1.now (fields.now.f2.now ∷ fields.now.f3.now
        ∷ fields.now.f4.now ∷ fields.now.f5.now ∷ fields.now.f6.now ∷ []) }
{
    let name = Name::read(fields.f1).ok_or(Refusal::BadField(3))?;
    complete(
        Command::Bus { name },
        4,
        &[fields.f2, fields.f3, fields.f4, fields.f5, fields.f6],
    )
}

fn section(spelling: Spelling, fields: &Fields<'_>) -> Result<Command, Refusal>
    ensures { result ≡ section_of spelling fields.now.f1.now fields.now.f2.now
        (fields.now.f3.now ∷ fields.now.f4.now ∷ fields.now.f5.now ∷ fields.now.f6.now ∷ []) }
{
    let name = Name::read(fields.f1).ok_or(Refusal::BadField(3))?;
    let feeder = spelling.read_feeder(fields.f2).ok_or(Refusal::BadField(4))?;
    complete(
        Command::Section { name, feeder },
        5,
        &[fields.f3, fields.f4, fields.f5, fields.f6],
    )
}

fn device(
    spelling: Spelling,
    fields: &Fields<'_>,
    since: Option<Moment>,
    until: Option<Moment>,
) -> Result<Command, Refusal>
    ensures { result ≡ device_of fields.now.f1.now fields.now.f2.now fields.now.f3.now
        fields.now.f4.now (start_as spelling fields.now.f5.now since)
        (end_as spelling fields.now.f6.now until) }
{
    let name = Name::read(fields.f1).ok_or(Refusal::BadField(3))?;
    let a = Name::read(fields.f2).ok_or(Refusal::BadField(4))?;
    let ends = read_ends(a, fields.f3).ok_or(Refusal::BadField(5))?;
    let normal = read_normal(fields.f4).ok_or(Refusal::BadField(6))?;
    let since = spelling.start_of(fields.f5, since);
    let life = read_service(7, since, spelling.end_of(fields.f6, until))?;
    Ok(Command::Device(NewDevice {
        name,
        ends,
        normal,
        life,
    }))
}

fn life(
    spelling: Spelling,
    fields: &Fields<'_>,
    since: Option<Moment>,
    until: Option<Moment>,
) -> Result<Command, Refusal>
    ensures { result ≡ life_of fields.now.f1.now (start_as spelling fields.now.f2.now since)
        (end_as spelling fields.now.f3.now until) (fields.now.f4.now ∷ fields.now.f5.now
        ∷ fields.now.f6.now ∷ []) }
{
    let device = Name::read(fields.f1).ok_or(Refusal::BadField(3))?;
    let since = spelling.start_of(fields.f2, since);
    let life = read_service(4, since, spelling.end_of(fields.f3, until))?;
    complete(
        Command::Life { device, life },
        6,
        &[fields.f4, fields.f5, fields.f6],
    )
}

fn connect(
    spelling: Spelling,
    fields: &Fields<'_>,
    since: Option<Moment>,
    until: Option<Moment>,
) -> Result<Command, Refusal>
    ensures { result ≡ connect_of spelling fields.now.f1.now fields.now.f2.now since
        (end_as spelling fields.now.f4.now until) (fields.now.f5.now ∷ fields.now.f6.now ∷ []) }
{
    let customer = spelling.read_serial(fields.f1).ok_or(Refusal::BadField(3))?;
    let section = Name::read(fields.f2).ok_or(Refusal::BadField(4))?;
    let service = read_service(5, since, spelling.end_of(fields.f4, until))?;
    complete(
        Command::Connect {
            customer,
            section,
            service,
        },
        7,
        &[fields.f5, fields.f6],
    )
}

fn revise(
    spelling: Spelling,
    fields: &Fields<'_>,
    since: Option<Moment>,
    until: Option<Moment>,
) -> Result<Command, Refusal>
    ensures { result ≡ revise_of spelling fields.now.f1.now since
        (end_as spelling fields.now.f3.now until) (fields.now.f4.now ∷ fields.now.f5.now
        ∷ fields.now.f6.now ∷ []) }
{
    let customer = spelling.read_serial(fields.f1).ok_or(Refusal::BadField(3))?;
    let service = read_service(4, since, spelling.end_of(fields.f3, until))?;
    complete(
        Command::Revise { customer, service },
        6,
        &[fields.f4, fields.f5, fields.f6],
    )
}

fn switch(
    spelling: Spelling,
    fields: &Fields<'_>,
    second: Option<Moment>,
) -> Result<Command, Refusal>
    ensures { result ≡ switch_of spelling fields.now.f1.now fields.now.f2.now second
        fields.now.f4.now fields.now.f5.now (fields.now.f6.now ∷ []) }
{
    let device = Name::read(fields.f1).ok_or(Refusal::BadField(3))?;
    let operation = read_operation(spelling, 4, fields.f2, second, fields.f4, fields.f5)?;
    complete(Command::Switch { device, operation }, 8, &[fields.f6])
}

fn correct(
    spelling: Spelling,
    fields: &Fields<'_>,
    second: Option<Moment>,
) -> Result<Command, Refusal>
    ensures { result ≡ correct_of spelling fields.now.f1.now fields.now.f2.now fields.now.f3.now
        second fields.now.f5.now fields.now.f6.now }
{
    let entry = spelling.read_serial(fields.f1).ok_or(Refusal::BadField(3))?;
    let revision = spelling.read_serial(fields.f2).ok_or(Refusal::BadField(4))?;
    let operation = read_operation(spelling, 5, fields.f3, second, fields.f5, fields.f6)?;
    Ok(Command::Correct {
        entry,
        revision,
        operation,
    })
}

fn withdraw(spelling: Spelling, fields: &Fields<'_>) -> Result<Command, Refusal>
    ensures { result ≡ withdraw_of spelling fields.now.f1.now fields.now.f2.now
        (fields.now.f3.now ∷ fields.now.f4.now ∷ fields.now.f5.now ∷ fields.now.f6.now ∷ []) }
{
    let entry = spelling.read_serial(fields.f1).ok_or(Refusal::BadField(3))?;
    let revision = spelling.read_serial(fields.f2).ok_or(Refusal::BadField(4))?;
    complete(
        Command::Withdraw { entry, revision },
        5,
        &[fields.f3, fields.f4, fields.f5, fields.f6],
    )
}

fn mark(date: Option<CivilDate>, fields: &Fields<'_>) -> Result<Command, Refusal>
    ensures { result ≡ mark_of date fields.now.f2.now
        (fields.now.f3.now ∷ fields.now.f4.now ∷ fields.now.f5.now ∷ fields.now.f6.now ∷ []) }
{
    let date = date.ok_or(Refusal::BadField(3))?;
    let engineer = Crew::read(fields.f2).ok_or(Refusal::BadField(4))?;
    complete(
        Command::Mark { date, engineer },
        5,
        &[fields.f3, fields.f4, fields.f5, fields.f6],
    )
}

fn unmark(date: Option<CivilDate>, fields: &Fields<'_>) -> Result<Command, Refusal>
    ensures { result ≡ unmark_of date fields.now.f2.now
        (fields.now.f3.now ∷ fields.now.f4.now ∷ fields.now.f5.now ∷ fields.now.f6.now ∷ []) }
{
    let date = date.ok_or(Refusal::BadField(3))?;
    let engineer = Crew::read(fields.f2).ok_or(Refusal::BadField(4))?;
    complete(
        Command::Unmark { date, engineer },
        5,
        &[fields.f3, fields.f4, fields.f5, fields.f6],
    )
}

// Reads the second node of a device, which must differ from the first, and answers both.
fn read_ends(a: Name, text: &[u8]) -> Option<Ends>
    ensures { result ≡ ends_from a text.now }
{
    Ends::new(a, Name::read(text)?)
}

// Makes a service or an in-service interval, with its beginning in a column and its end in the
// next.
fn read_service(
    column: u8,
    since: Option<Moment>,
    until: Option<Option<Moment>>,
) -> Result<Service, Refusal>
    requires { column < 255 }
    ensures { result ≡ service_in column since until }
{
    let since = since.ok_or(Refusal::BadField(column))?;
    let until = until.ok_or(Refusal::BadField(column + 1))?;
    Ok(Service { since, until })
}

// Makes a switching operation from four columns from `column` on: act, second, cause and crew.
fn read_operation(
    spelling: Spelling,
    column: u8,
    act: &[u8],
    second: Option<Moment>,
    cause: &[u8],
    crew: &[u8],
) -> Result<Operation, Refusal>
    requires { column < 253 }
    ensures { result ≡ operation_in spelling column act.now second cause.now crew.now }
{
    Ok(Operation {
        act: read_act(act).ok_or(Refusal::BadField(column))?,
        second: second.ok_or(Refusal::BadField(column + 1))?,
        cause: spelling
            .read_code(cause)
            .ok_or(Refusal::BadField(column + 2))?,
        crew: Crew::read(crew).ok_or(Refusal::BadField(column + 3))?,
    })
}

// Answers the command if the fields from a column on are empty.
fn complete(command: Command, column: u8, fields: &[&[u8]]) -> Result<Command, Refusal>
    requires { column + length fields.now < 256 }
    ensures { result ≡ with_unused column (map (λ f. f.now) fields.now) (Ok command) }
{
    for (place, field) in fields.iter().enumerate() {
        if !field.is_empty() {
            return Err(Refusal::BadField(column + place as u8));
        }
    }
    Ok(command)
}
