//! What a command brought.

ghost use Rattle.std.specs.Prelude.{◌≡◌, ◌↔◌, IsTrue, ◌&&◌, option_copied, ◌==◌, if◌then◌else◌, ◌+◌, ◌^◌, ◌-◌, List, ℕ, min, length};
ghost use Rattle.ddm_objects.specs.Reading.{walk};
ghost use Rattle.dss_frames.specs.Group.{command_of};
ghost use Rattle.drda_commands.specs.Given.{contents_of, value_of, seen_again, seen_in, seen_in_texts, found_at, nothing, count_in, is_at, objects_fault, own_fault, fault_inside, fault_in, fault_in_texts, first_fault, never};
ghost use Rattle.ddm_objects.specs.Source.{view};
ghost use Rattle.drda_commands.specs.Views.{occurs_of, given_of};

use crate::refusal::SyntaxError;
use crate::table::{Command, Form, Item, ItemKind, items_of};
use crate::texts::texts_in;
use ddm_objects::{Object, parts_of};
use dss_frames::Group;

/// The parameters of a command, and its object DSSs.
#[derive(Clone, Copy)]
pub struct Given<'a> {
    pub parameters: &'a [u8],
    pub objects: Group<'a>,
}

/// How often a code point stands somewhere, and its data where it stands once.
#[derive(Clone, Copy)]
pub enum Occurs<'a> {
    Never,
    Once(&'a [u8]),
    Twice,
}

impl<'a> Occurs<'a> {
    /// The data, where it stands once.
    pub fn value(self) -> Option<&'a [u8]>
        ensures { option_copied result ≡ value_of (occurs_of self.entry) }
    {
        match self {
            Occurs::Once(value) => Some(value),
            Occurs::Never | Occurs::Twice => None,
        }
    }

    fn again(self, value: &'a [u8]) -> Occurs<'a>
        ensures { occurs_of result ≡ seen_again (occurs_of self.entry) value.now }
    {
        match self {
            Occurs::Never => Occurs::Once(value),
            Occurs::Once(_) | Occurs::Twice => Occurs::Twice,
        }
    }
}

// An object after those that were seen before.
fn seen_with<'a>(code: u16, before: Occurs<'a>, object: Object<'a>) -> Occurs<'a>
    ensures { occurs_of result ≡ (if object.entry.code == code then seen_again (occurs_of before.entry) object.entry.value.now else occurs_of before.entry) }
{
    if object.code == code {
        before.again(object.value)
    } else {
        before
    }
}

// On from what was seen before.
fn seen_in<'a>(code: u16, before: Occurs<'a>, text: &'a [u8]) -> Occurs<'a>
    ensures { occurs_of result ≡ seen_in code (occurs_of before.entry) (walk text.now).objects }
{
    let mut seen = before;
    for part in parts_of(text) {
        match part {
            Ok(object) => seen = seen_with(code, seen, object),
            Err(_) => return seen,
        }
    }
    seen
}

/// How often a code point stands in a text of objects.
#[inline(always)]
#[tactic(auto, unfolding(ddm_objects::specs::Reading::walk))]
pub(crate) fn found_in(code: u16, text: &[u8]) -> Occurs<'_>
    ensures { occurs_of result ≡ seen_in code never (walk text.now).objects }
{
    if text.is_empty() {
        return Occurs::Never;
    }
    seen_in(code, Occurs::Never, text)
}

#[inline(always)]
fn found_in_dsss<'a>(code: u16, objects: Group<'a>) -> Occurs<'a>
    ensures { occurs_of result ≡ seen_in_texts code never (contents_of (command_of objects.entry)) }
{
    let mut seen = Occurs::Never;
    let mut left = objects;
    'dsss: while let Some((dss, more)) = left.split_first() {
        seen = seen_in(code, seen, dss.contents);
        left = more;
    }
    seen
}

fn is_at(kind: ItemKind, other: ItemKind) -> bool
    ensures { result ≡ is_at kind other }
{
    matches!(
        (kind, other),
        (ItemKind::Parameter, ItemKind::Parameter) | (ItemKind::DataObject, ItemKind::DataObject)
    )
}

// The first fault by place among the objects of a text.
fn objects_fault(text: &[u8]) -> Option<SyntaxError>
    ensures { result ≡ objects_fault text.now }
{
    for part in parts_of(text) {
        match part {
            Ok(_) => {}
            Err(fault) => return Some(SyntaxError::InObject(fault)),
        }
    }
    None
}

fn own_fault(form: Form, value: &[u8]) -> Option<SyntaxError>
    ensures { result ≡ own_fault form value.now }
{
    match form {
        Form::ManagerLevels
        | Form::AnyBytes
        | Form::Bytes { .. }
        | Form::BlockSize
        | Form::Boolean
        | Form::SqldaType
        | Form::SyncType
        | Form::DefinitionName => None,
        Form::DefinitionOverrides | Form::DescribedData => objects_fault(value),
        Form::StatementTexts => match texts_in(value) {
            Some(_) => None,
            None => Some(SyntaxError::MalformedText),
        },
    }
}

fn fault_inside(items: &[Item], kind: ItemKind, object: Object<'_>) -> Option<SyntaxError>
    ensures { result ≡ fault_inside items.now kind (view object.entry) }
{
    for item in items {
        if is_at(item.kind, kind) && item.code == object.code {
            return own_fault(item.form, object.value);
        }
    }
    None
}

fn fault_in(items: &[Item], kind: ItemKind, text: &[u8]) -> Option<SyntaxError>
    ensures { result ≡ fault_in (fault_inside items.now kind) text.now }
{
    for part in parts_of(text) {
        match part {
            Ok(object) => {
                let inside = fault_inside(items, kind, object);
                if inside.is_some() {
                    return inside;
                }
            }
            Err(fault) => return Some(SyntaxError::InObject(fault)),
        }
    }
    None
}

fn fault_in_dsss(items: &[Item], objects: Group<'_>) -> Option<SyntaxError>
    ensures { result ≡ fault_in_texts (fault_inside items.now ItemKind.DataObject) (contents_of (command_of objects.entry)) }
{
    let mut left = objects;
    'dsss: while let Some((dss, more)) = left.split_first() {
        let fault = fault_in(items, ItemKind::DataObject, dss.contents);
        if fault.is_some() {
            return fault;
        }
        left = more;
    }
    None
}

// How many objects stand in a text, as far as a number goes.
fn count_of(text: &[u8]) -> usize
    ensures { result ≡ min (length (walk text.now).objects) (2 ^ 64 - 1) }
{
    let mut count = 0_usize;
    for part in parts_of(text) {
        match part {
            Ok(_) => count = count.saturating_add(1),
            Err(_) => return count,
        }
    }
    count
}

impl<'a> Given<'a> {
    /// Whether nothing came, no parameter and no object DSS.
    #[inline(always)]
    pub(crate) fn is_empty(&self) -> bool
        ensures { IsTrue result ↔ (given_of self.now ≡ nothing) }
    {
        self.parameters.is_empty() && self.objects.is_empty()
    }

    /// How often a code point stands at this place, and its data where it stands once.
    #[inline(always)]
    pub fn found(&self, kind: ItemKind, code: u16) -> Occurs<'a>
        ensures { occurs_of result ≡ found_at kind code (given_of self.now) }
    {
        match kind {
            ItemKind::Parameter => found_in(code, self.parameters),
            ItemKind::DataObject => found_in_dsss(code, self.objects),
        }
    }

    /// The first fault by place, in the parameters, then in the data objects: the data of an item that
    /// the command reads are judged where they stand, as objects where they are a container and as texts
    /// where they are those of a statement.
    pub(crate) fn first_fault(&self, command: Command) -> Option<SyntaxError>
        ensures { result ≡ first_fault command (given_of self.now) }
    {
        let items = items_of(command);
        let fault = fault_in(items, ItemKind::Parameter, self.parameters);
        if fault.is_some() {
            return fault;
        }
        fault_in_dsss(items, self.objects)
    }

    /// How many data objects came, as far as a number goes.
    pub(crate) fn count(&self) -> usize
        ensures { result ≡ min (count_in (given_of self.now).objects) (2 ^ 64 - 1) }
    {
        let mut count = 0_usize;
        let mut left = self.objects;
        'dsss: while let Some((dss, more)) = left.split_first() {
            count = count.saturating_add(count_of(dss.contents));
            left = more;
        }
        count
    }
}
