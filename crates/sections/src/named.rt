//! Sections in a map by their names. Each function says what it does to the list of them.

ghost use Rattle.std.specs.Prelude.{◌≡◌, ◌+◌, ◌<◌, ◌≤◌, ◌++◌, ◌∷◌, [], None, Some, bytes_eq, is_some, map, option_copied, true};
ghost use Rattle.std.specs.Map.{lookup};
ghost use Rattle.indexmap.specs.IndexMap.{spare};
ghost use Rattle.sections.specs.Blocks.{section_advanced};
ghost use Rattle.sections.specs.Cursors.{changed_at, closed, with_cursor, with_statement};
ghost use Rattle.sections.specs.Units.{section_ended};

use crate::name::{Name, Sought};
use crate::section::{Preparation, Section};
use indexmap::IndexMap;
use tables::RowList;

/// The section of this name.
pub fn find<'s>(sections: &'s IndexMap<Name, Section>, name: &[u8]) -> Option<&'s Section>
    ensures { option_copied result ≡ lookup (bytes_eq name.now) sections.now.entries }
{
    sections.get(Sought { bytes: name })
}

/// Prepares a statement, for which there is room.
pub fn prepare(sections: &mut IndexMap<Name, Section>, preparation: Preparation)
    requires { 0 < spare sections.old }
    ensures { sections.new.entries ≡ with_statement preparation sections.old.entries }
{
    if find(sections, preparation.name()).is_some() {
        prepare_again(sections, preparation);
    } else {
        add(sections, preparation);
    }
}

fn prepare_again(sections: &mut IndexMap<Name, Section>, preparation: Preparation)
    requires { is_some (lookup (bytes_eq preparation.name) sections.old.entries) ≡ true }
    ensures { sections.new.entries ≡ changed_at preparation.name (λ section. record section { statement = preparation.statement; is_held = preparation.is_held }) sections.old.entries }
{
    match sections.get_mut(Sought {
        bytes: preparation.name(),
    }) {
        Some(section) => preparation.prepare_again(section),
        None => unreachable!(),
    }
}

fn add(sections: &mut IndexMap<Name, Section>, preparation: Preparation)
    requires room { 0 < spare sections.old }
    requires absent { lookup (bytes_eq preparation.name) sections.old.entries ≡ None }
    ensures { sections.new.entries ≡ sections.old.entries ++ (preparation.name, record { statement = preparation.statement; is_held = preparation.is_held; cursor = None }) ∷ [] }
{
    let (name, section) = preparation.into_section();
    match sections.insert(name, section) {
        Ok(before) => drop(before),
        Err(_) => unreachable!(),
    }
}

/// Gives the section of this name a cursor.
pub fn begin(
    sections: &mut IndexMap<Name, Section>,
    name: &[u8],
    rows: RowList,
    instance: u64,
    block_size: u32,
)
    ensures list { sections.new.entries ≡ changed_at name.now (with_cursor rows instance block_size) sections.old.entries }
    ensures room { spare sections.old ≤ spare sections.new }
{
    match sections.get_mut(Sought { bytes: name }) {
        Some(section) => section.begin(rows, instance, block_size),
        None => {}
    }
}

/// Puts the cursor of the section of this name behind so many more rows.
pub fn advance(sections: &mut IndexMap<Name, Section>, name: &[u8], count: usize, block_size: u32)
    ensures list { sections.new.entries ≡ changed_at name.now (section_advanced count block_size) sections.old.entries }
    ensures room { spare sections.old ≤ spare sections.new }
{
    match sections.get_mut(Sought { bytes: name }) {
        Some(section) => section.advance(count, block_size),
        None => {}
    }
}

/// Closes the cursor of the section of this name.
pub fn close(sections: &mut IndexMap<Name, Section>, name: &[u8])
    ensures list { sections.new.entries ≡ changed_at name.now closed sections.old.entries }
    ensures room { spare sections.old ≤ spare sections.new }
{
    match sections.get_mut(Sought { bytes: name }) {
        Some(section) => section.close(),
        None => {}
    }
}

/// Ends a unit for each cursor.
pub fn end_unit(sections: &mut IndexMap<Name, Section>, keeps_held: bool)
    ensures list { sections.new.entries ≡ map (λ named. (named.0, section_ended keeps_held named.1)) sections.old.entries }
    ensures room { spare sections.old ≤ spare sections.new }
{
    for i in 0..sections.len() {
        let section = &mut sections[i];
        section.end_unit(keeps_held);
    }
}
