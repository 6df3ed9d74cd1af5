//! The judge of commands, in the order of refusals.

ghost use Rattle.std.specs.Prelude.{◌≡◌, ◌&&◌, ◌||◌, Some, None, Ok, Err, IfOk, MatchOption, Bool, false, if◌then◌else◌};
ghost use Rattle.std.specs.Option.{option_or};
ghost use Rattle.std.specs.List.{list_any};
ghost use Rattle.drda_words.specs.Excuse.{Answers};
ghost use Rattle.ddm_objects.specs.Source.{view};
ghost use Rattle.dss_frames.specs.Group.{command_of};
ghost use Rattle.drda_commands.specs.Tables.{command_for, items_for};
ghost use Rattle.drda_commands.specs.Given.{contents_of};
ghost use Rattle.drda_commands.specs.Judge as spec;
ghost use Rattle.drda_commands.specs.Needs.{Needs};
ghost use Rattle.drda_commands.specs.Views.{occurs_of, given_of, accepted_of};

use crate::given::{Given, Occurs, found_in};
use crate::refusal::{Refusal, SyntaxError};
use crate::stage::Stage;
use crate::table::{Command, Form, Item, command_of, items_of};
use crate::texts::text_in;
use crate::values::number4;
use ddm_objects::{Object, code_point};
use drda_names::is_name;
use dss_frames::Group;
use xa_calls::SyncType;

/// The least and the greatest size of a block, in bytes (QRYBLKSZ).
const LEAST_BLOCK: u32 = 512;

const GREATEST_BLOCK: u32 = 10_485_760;

/// The most data objects of a command.
const MAX_DATA_OBJECTS: usize = 8;

/// A command that is not refused, and what it brought.
#[derive(Clone, Copy)]
pub struct Accepted<'a> {
    pub command: Command,
    pub given: Given<'a>,
}

fn command_object(contents: &[u8]) -> Result<Object<'_>, Refusal>
    ensures { Answers view Some result (spec.command_object contents.now) }
{
    if contents.is_empty() {
        return Err(Refusal::Syntax(SyntaxError::Missing));
    }
    match Object::parse(contents) {
        Ok((object, [])) => Ok(object),
        Ok((_, _)) => Err(Refusal::Syntax(SyntaxError::BytesLeft)),
        Err(fault) => Err(Refusal::Syntax(SyntaxError::InObject(fault))),
    }
}

#[inline(always)]
fn check_due(command: Command, stage: Stage) -> Result<(), Refusal>
    ensures { result ≡ spec.due_or_refused command stage }
{
    match (command, stage) {
        (Command::Excsat, _) => Ok(()),
        (Command::Accsec, Stage::Known | Stage::MechanismChosen(_) | Stage::Checked) => Ok(()),
        (Command::Secchk, Stage::MechanismChosen(_)) => Ok(()),
        (Command::Accrdb, Stage::Checked) => Ok(()),
        (Command::Accrdb, Stage::Opened) => Err(Refusal::RdbAccessed),
        (Command::Accsec | Command::Secchk | Command::Accrdb, _) => Err(Refusal::OutOfTurn),
        (_, Stage::Opened) => Ok(()),
        _ => Err(Refusal::RdbNotAccessed),
    }
}

#[inline(always)]
#[tactic(auto, unfolding(ddm_objects::specs::Reading::walk))]
fn check_whole(command: Command, given: Given<'_>) -> Result<(), Refusal>
    ensures { result ≡ spec.whole_or_refused command (given_of given.entry) }
{
    if given.is_empty() {
        return Ok(());
    }
    if let Some(error) = given.first_fault(command) {
        return Err(Refusal::Syntax(error));
    }
    if given.count() > MAX_DATA_OBJECTS {
        return Err(Refusal::Syntax(SyntaxError::TooManyObjects));
    }
    Ok(())
}

#[inline]
fn is_twice(occurs: Occurs<'_>) -> bool
    ensures { result ≡ spec.is_twice (occurs_of occurs.entry) }
{
    matches!(occurs, Occurs::Twice)
}

#[inline]
fn is_1208(occurs: Occurs<'_>) -> bool
    ensures { result ≡ spec.is_1208 (occurs_of occurs.entry) }
{
    match occurs {
        Occurs::Never => true,
        Occurs::Once([high, low]) => *high == 0x04 && *low == 0xB8,
        Occurs::Once(_) | Occurs::Twice => false,
    }
}

fn is_boolean(value: &[u8]) -> bool
    ensures { result ≡ spec.is_boolean value.now }
{
    match value {
        [byte] => *byte == 0xF0 || *byte == 0xF1,
        _ => false,
    }
}

fn is_block_size(size: Option<u32>) -> bool
    ensures { result ≡ spec.is_block_size size }
{
    match size {
        Some(size) => LEAST_BLOCK <= size && size <= GREATEST_BLOCK,
        None => false,
    }
}

fn is_sqlda_type(value: &[u8]) -> bool
    ensures { result ≡ spec.is_sqlda_type value.now }
{
    match value {
        [byte] => *byte <= 5,
        _ => false,
    }
}

fn is_sync_type(value: &[u8]) -> bool
    ensures { result ≡ spec.is_sync_type value.now }
{
    match value {
        [byte] => SyncType::from_number(*byte).is_some(),
        _ => false,
    }
}

// What is judged of the value of an item that stands once.
#[derive(Clone, Copy)]
struct Judged {
    is_twice_inside: bool,
    has_no_text: bool,
    is_supported: bool,
}

// The value of an item that holds neither objects nor texts.
#[inline]
fn plain(is_supported: bool) -> Judged
    ensures { result ≡ record { is_twice_inside = false; has_no_text = false; is_supported = is_supported } }
{
    Judged {
        is_twice_inside: false,
        has_no_text: false,
        is_supported,
    }
}

// The value of TYPDEFOVR, by the two CCSIDs in it that are read.
fn judge_ccsids(single: Occurs<'_>, mixed: Occurs<'_>) -> Judged
    ensures twice { result.is_twice_inside ≡ (spec.is_twice (occurs_of single.entry) || spec.is_twice (occurs_of mixed.entry)) }
    ensures text { result.has_no_text ≡ false }
    ensures supported { result.is_supported ≡ (spec.is_1208 (occurs_of single.entry) && spec.is_1208 (occurs_of mixed.entry)) }
{
    Judged {
        is_twice_inside: is_twice(single) || is_twice(mixed),
        has_no_text: false,
        is_supported: is_1208(single) && is_1208(mixed),
    }
}

// Kept out of the loop over items, most of which a command does not bring.
#[inline(never)]
fn judge_value(unicode: bool, form: Form, value: &[u8]) -> Judged
    ensures twice { result.is_twice_inside ≡ spec.is_twice_inside form value.now }
    ensures text { result.has_no_text ≡ spec.has_no_text form value.now }
    ensures supported { result.is_supported ≡ spec.is_supported unicode form value.now }
{
    match form {
        Form::ManagerLevels => plain(value.len() % 4 == 0),
        Form::AnyBytes => plain(true),
        Form::Bytes { least, greatest } => plain(least <= value.len() && value.len() <= greatest),
        Form::BlockSize => plain(is_block_size(number4(value))),
        Form::Boolean => plain(is_boolean(value)),
        Form::SqldaType => plain(is_sqlda_type(value)),
        Form::SyncType => plain(is_sync_type(value)),
        Form::DefinitionName => plain(is_name(unicode, value, b"QTDSQLASC")),
        Form::DefinitionOverrides => judge_ccsids(
            found_in(code_point::CCSIDSBC, value),
            found_in(code_point::CCSIDMBC, value),
        ),
        Form::StatementTexts => Judged {
            is_twice_inside: false,
            has_no_text: text_in(value).is_none(),
            is_supported: true,
        },
        Form::DescribedData => Judged {
            is_twice_inside: is_twice(found_in(code_point::FDODSC, value))
                || is_twice(found_in(code_point::FDODTA, value)),
            has_no_text: false,
            is_supported: true,
        },
    }
}

// What items are refused for.
#[derive(Clone, Copy)]
struct Faults {
    is_twice: bool,
    is_missing: bool,
    /// The code point of the first item with a value that is not supported.
    bad: Option<u16>,
}

impl Faults {
    // These, and those of what is judged after.
    #[inline]
    fn and(self, later: Faults) -> Faults
        ensures twice { result.is_twice ≡ (self.is_twice || later.is_twice) }
        ensures missing { result.is_missing ≡ (self.is_missing || later.is_missing) }
        ensures bad { result.bad ≡ option_or self.bad later.bad }
    {
        Faults {
            is_twice: self.is_twice || later.is_twice,
            is_missing: self.is_missing || later.is_missing,
            bad: self.bad.or(later.bad),
        }
    }
}

#[inline]
fn item_faults(unicode: bool, item: Item, occurs: Occurs<'_>) -> Faults
    ensures twice { result.is_twice ≡ spec.has_twice item.form (occurs_of occurs.entry) }
    ensures missing { result.is_missing ≡ (item.is_required && spec.is_absent item.form (occurs_of occurs.entry)) }
    ensures bad { result.bad ≡ (if spec.has_bad_value unicode item.form (occurs_of occurs.entry) then Some item.code else None) }
{
    match occurs {
        Occurs::Never => Faults {
            is_twice: false,
            is_missing: item.is_required,
            bad: None,
        },
        Occurs::Once(value) => {
            let judged = judge_value(unicode, item.form, value);
            Faults {
                is_twice: judged.is_twice_inside,
                is_missing: item.is_required && judged.has_no_text,
                bad: (!judged.is_supported).then_some(item.code),
            }
        }
        Occurs::Twice => Faults {
            is_twice: true,
            is_missing: false,
            bad: None,
        },
    }
}

// Whether a command requires an item.
#[inline(always)]
fn requires_any(command: Command) -> bool
    ensures { result ≡ list_any (λ item. item.is_required) (items_for command) }
{
    match command {
        Command::Excsat | Command::Rdbcmm | Command::Rdbrllbck => false,
        Command::Accsec
        | Command::Secchk
        | Command::Accrdb
        | Command::Excsqlimm
        | Command::Prpsqlstt
        | Command::Dscsqlstt
        | Command::Excsqlstt
        | Command::Opnqry
        | Command::Cntqry
        | Command::Clsqry
        | Command::Syncctl => true,
    }
}

// What is wrong with what a command brought. One that comes alone, as a commit does, only wants what it requires.
#[inline(always)]
fn faults_in(unicode: bool, command: Command, given: &Given<'_>) -> Faults
    ensures twice { result.is_twice ≡ list_any (spec.item_twice (given_of given.now)) (items_for command) }
    ensures missing { result.is_missing ≡ list_any (spec.item_missing (given_of given.now)) (items_for command) }
    ensures bad { MatchOption result.bad (spec.none_bad unicode (items_for command) (given_of given.now) ≡ Ok tt) (λ code. spec.none_bad unicode (items_for command) (given_of given.now) ≡ Err (Refusal.ValueNotSupported code)) }
{
    if given.is_empty() {
        return Faults {
            is_twice: false,
            is_missing: requires_any(command),
            bad: None,
        };
    }
    faults_of(unicode, items_of(command), given)
}

// Each item is found once.
#[inline(always)]
fn faults_of(unicode: bool, items: &[Item], given: &Given<'_>) -> Faults
    ensures twice { result.is_twice ≡ list_any (spec.item_twice (given_of given.now)) items.now }
    ensures missing { result.is_missing ≡ list_any (spec.item_missing (given_of given.now)) items.now }
    ensures bad { MatchOption result.bad (spec.none_bad unicode items.now (given_of given.now) ≡ Ok tt) (λ code. spec.none_bad unicode items.now (given_of given.now) ≡ Err (Refusal.ValueNotSupported code)) }
{
    let mut faults = Faults {
        is_twice: false,
        is_missing: false,
        bad: None,
    };
    for item in items {
        let occurs = given.found(item.kind, item.code);
        faults = faults.and(item_faults(unicode, *item, occurs));
    }
    faults
}

/// The command in a request DSS with these contents and these object DSSs behind it, or what it is refused for; `unicode` says whether
/// names may come in UTF-8. The first refusal in this order counts: no command object, its faults, bytes behind it; an unknown command; one
/// that does not come at this stage; faults of objects, and of the texts of a statement, by place, and more than eight data objects; a
/// parameter or data object twice, a required one missing, a value that is not supported.
pub fn judge<'a>(
    stage: Stage,
    unicode: bool,
    contents: &'a [u8],
    objects: Group<'a>,
) -> Result<Accepted<'a>, Refusal>
    ensures verdict { Answers accepted_of Some result (spec.judged stage unicode contents.now (contents_of (command_of objects.entry))) }

    // What a command requires has come.
    ensures brings { IfOk result (λ a. Needs a.command (given_of a.given)) }
{
    let object = command_object(contents)?;
    let Some(command) = command_of(object.code) else {
        return Err(Refusal::CommandNotSupported(object.code));
    };
    check_due(command, stage)?;
    let given = Given {
        parameters: object.value,
        objects,
    };
    check_whole(command, given)?;
    let faults = faults_in(unicode, command, &given);
    if faults.is_twice {
        return Err(Refusal::Syntax(SyntaxError::Twice));
    }
    if faults.is_missing {
        return Err(Refusal::Syntax(SyntaxError::Missing));
    }
    if let Some(code) = faults.bad {
        return Err(Refusal::ValueNotSupported(code));
    }
    Ok(Accepted { command, given })
}
